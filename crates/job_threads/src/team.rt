//! Jobs of three kinds on threads of their own, beside one on the caller's.
ghost use Rattle.std.specs.Prelude.{◌≡◌, ◌+◌, ◌++◌, ◌≤◌, [], All, IfErr, IfOk, IfSome, IsOk, OnOk, MatchResult, false, map, reverse, true, vec_capacity, vec_len};
ghost use Rattle.job_threads.specs.Jobs.{HaveDone, IsTeam, TeamDid};

use crate::job::Job;
use crate::joining::{join, join_all, take_all_back, take_back};
use crate::starting::{Begun, Handle, Started, start, start_all};
use crate::word::say_no;
use std::alloc::{AllocError, Global};
use std::sync::{OnceLock, OnceToken, Wait};
use std::thread;
use std::thread::{Scope, Threads};

/// Jobs that run on threads of their own: so many of a first kind, one of a second, so many of a third.
#[derive(Drop)]
pub struct Team<J, K, L> {
    pub first: Vec<J>,
    pub second: K,
    pub third: Vec<L>,
}

/// Room for what the jobs of a team leave.
#[derive(Drop)]
struct TeamRooms<A, B> {
    first: Vec<A>,
    third: Vec<B>,
}

/// A team whose threads are being started.
#[derive(Drop)]
struct Handles<'s, J: Job, K: Job, L: Job> {
    first: Begun<'s, J>,
    second: Result<Handle<'s, K>, K>,
    third: Begun<'s, L>,
}

/// Runs all jobs of a team at once, each on a thread of its own, and `main` on the caller's. It joins the threads when
/// `main` has ended, those of the first kind, then the second's, then those of the third, and gives what all left.
///
/// `Err` has all jobs as they were: there was no memory, or a thread couldn't be started. Then none has worked.
pub fn run_team<
    First: Job + Send + Drop,
    Second: Job + Send + Drop,
    Third: Job + Send + Drop,
    Last: Job + Drop,
    Runtime: Threads + Wait + Sync,
>(
    rt: &Runtime,
    alloc: Global,
    team: Team<First, Second, Third>,
    main: Last,
) -> Result<
    (Team<First::Left, Second::Left, Third::Left>, Last::Left),
    (Team<First, Second, Third>, Last),
>
where
    First::Left: Send,
    Second::Left: Send,
    Third::Left: Send,
    requires team { All First.ready team.first.items × Second.ready team.second × All Third.ready team.third.items }
    requires main { Last.ready main }
    ensures first { IfOk result (λ left. HaveDone First.did team.first.items left.0.first.items) }
    ensures second { IfOk result (λ left. Second.did team.second left.0.second) }
    ensures third { IfOk result (λ left. HaveDone Third.did team.third.items left.0.third.items) }
    ensures main { IfOk result (λ left. Last.did main left.1) }
    ensures counts { IfOk result (λ left. (vec_len left.0.first ≡ vec_len team.first) × (vec_len left.0.third ≡ vec_len team.third)) }
    ensures back { IfErr result (λ back. IsTeam team back.0 × (back.1 ≡ main)) }
{
    let Ok(rooms) = rooms_for(alloc, team.first.len(), team.third.len()) else {
        return Err((team, main));
    };
    let word = OnceLock::new();
    let begin = &word;
    thread::scope(
        thread::scope_env(),
        rt,
        |scope| -> Result<
            (Team<First::Left, Second::Left, Third::Left>, Last::Left),
            (Team<First, Second, Third>, Last),
        >
            requires ready { All First.ready team.first.items × Second.ready team.second × All Third.ready team.third.items × Last.ready main }
            requires first_room { (rooms.first.items ≡ []) × (vec_len team.first ≤ vec_capacity rooms.first) }
            requires third_room { (rooms.third.items ≡ []) × (vec_len team.third ≤ vec_capacity rooms.third) }
            ensures did { IfOk result (λ left. TeamDid First.did Second.did Third.did team left.0 × Last.did main left.1) }
            ensures counts { IfOk result (λ left. (vec_len left.0.first ≡ vec_len team.first) × (vec_len left.0.third ≡ vec_len team.third)) }
            ensures back { IfErr result (λ back. IsTeam team back.0 × (back.1 ≡ main)) }
        {
            let (handles, started) = start_team(scope, rt, alloc, begin, team);
            match tell(rt, begin, started) {
                Ok(token) => Ok(work_and_join(rt, &token, handles, rooms, main)),
                Err(token) => Err((take_team_back(rt, &token, handles), main)),
            }
        },
    )
}

/// Room for so many of the first kind and so many of the third.
fn rooms_for<A: Drop, B: Drop>(
    alloc: Global,
    first: usize,
    third: usize,
) -> Result<TeamRooms<A, B>, AllocError>
    ensures first { IfOk result (λ rooms. (rooms.first.items ≡ []) × (first ≤ vec_capacity rooms.first)) }
    ensures third { IfOk result (λ rooms. (rooms.third.items ≡ []) × (third ≤ vec_capacity rooms.third)) }
{
    Ok(TeamRooms {
        first: Vec::with_capacity(alloc, first)?,
        third: Vec::with_capacity(alloc, third)?,
    })
}

/// Says by the start word whether all were started: yes, or no.
fn tell<'s, R: Wait>(
    rt: &R,
    word: &'s OnceLock<bool>,
    started: Started<'s>,
) -> Result<OnceToken<'s, bool>, OnceToken<'s, bool>>
    requires { IfErr started (λ said. IfSome said (λ token. (token.of ≡ word.now.id) × (token.value ≡ false))) }
    ensures all { OnOk result (IsOk started.entry) }
    ensures yes { IfOk result (λ token. (token.value ≡ true) × (token.of ≡ word.now.id)) }
    ensures no { IfErr result (λ token. (token.value ≡ false) × (token.of ≡ word.now.id)) }
{
    match started {
        Ok(()) => match word.set(rt, true) {
            Ok(token) => Ok(token),
            Err(_) => Err(say_no(rt, word)),
        },
        Err(Some(token)) => Err(token),
        Err(None) => Err(say_no(rt, word)),
    }
}

/// Works, and joins threads that have been told to work.
fn work_and_join<
    's,
    First: Job + Drop,
    Second: Job + Drop,
    Third: Job + Drop,
    Last: Job,
    Runtime: Threads,
>(
    rt: &Runtime,
    token: &OnceToken<'s, bool>,
    handles: Handles<'s, First, Second, Third>,
    rooms: TeamRooms<First::Left, Third::Left>,
    main: Last,
) -> (Team<First::Left, Second::Left, Third::Left>, Last::Left)
    requires yes { token.now.value ≡ true }
    requires words { All (λ h. h.promise.word.now.id ≡ token.now.of) handles.first.handles.items × MatchResult handles.second (λ h. h.promise.word.now.id ≡ token.now.of) (λ _. ⊥) × All (λ h. h.promise.word.now.id ≡ token.now.of) handles.third.handles.items }
    requires first_room { (rooms.first.items ≡ []) × (vec_len handles.first.handles ≤ vec_capacity rooms.first) }
    requires third_room { (rooms.third.items ≡ []) × (vec_len handles.third.handles ≤ vec_capacity rooms.third) }
    requires main { Last.ready main }
    ensures first { HaveDone First.did (reverse (map (λ h. h.promise.job.value) handles.entry.first.handles.items)) result.0.first.items }
    ensures second { IfOk handles.entry.second (λ h. Second.did h.promise.job.value result.0.second) }
    ensures third { HaveDone Third.did (reverse (map (λ h. h.promise.job.value) handles.entry.third.handles.items)) result.0.third.items }
    ensures main { Last.did main result.1 }
{
    let main_left = main.work();
    let Handles {
        first,
        second,
        third,
    } = handles;
    let Ok(second) = second else { unreachable!() };
    let left = Team {
        first: join_all(rt, token, first.handles, rooms.first),
        second: join(rt, token, second),
        third: join_all(rt, token, third.handles, rooms.third),
    };
    (left, main_left)
}

/// Joins threads that have been told not to work, and gives the team back.
fn take_team_back<'s, First: Job + Drop, Second: Job + Drop, Third: Job + Drop, Runtime: Threads>(
    rt: &Runtime,
    token: &OnceToken<'s, bool>,
    handles: Handles<'s, First, Second, Third>,
) -> Team<First, Second, Third>
    requires no { token.now.value ≡ false }
    requires words { All (λ h. h.promise.word.now.id ≡ token.now.of) handles.first.handles.items × IfOk handles.second (λ h. h.promise.word.now.id ≡ token.now.of) × All (λ h. h.promise.word.now.id ≡ token.now.of) handles.third.handles.items }
    requires first_room { vec_len handles.first.jobs + vec_len handles.first.handles ≤ vec_capacity handles.first.jobs }
    requires third_room { vec_len handles.third.jobs + vec_len handles.third.handles ≤ vec_capacity handles.third.jobs }
    ensures first { result.first.items ≡ handles.entry.first.jobs.items ++ reverse (map (λ h. h.promise.job.value) handles.entry.first.handles.items) }
    ensures second { MatchResult handles.entry.second (λ h. result.second ≡ h.promise.job.value) (λ job. result.second ≡ job) }
    ensures third { result.third.items ≡ handles.entry.third.jobs.items ++ reverse (map (λ h. h.promise.job.value) handles.entry.third.handles.items) }
{
    let Handles {
        first,
        second,
        third,
    } = handles;
    Team {
        first: take_all_back(rt, token, first),
        second: match second {
            Ok(handle) => take_back(rt, token, handle),
            Err(job) => job,
        },
        third: take_all_back(rt, token, third),
    }
}

/// Starts a thread for each job, until one can't be started, or there is no memory for the handles.
fn start_team<
    's,
    Env,
    First: Job + Send + Drop + 's,
    Second: Job + Send + Drop + 's,
    Third: Job + Send + Drop + 's,
    Runtime: Threads + Wait + Sync + 's,
>(
    scope: &Scope<'s, Env>,
    rt: &'s Runtime,
    alloc: Global,
    word: &'s OnceLock<bool>,
    team: Team<First, Second, Third>,
) -> (Handles<'s, First, Second, Third>, Started<'s>)
where
    First::Left: Send,
    Second::Left: Send,
    Third::Left: Send,
    requires { All First.ready team.first.items × Second.ready team.second × All Third.ready team.third.items }
    ensures first { result.0.first.jobs.items ++ reverse (map (λ h. h.promise.job.value) result.0.first.handles.items) ≡ team.first.items }
    ensures second { MatchResult result.0.second (λ h. h.promise.job.value ≡ team.second) (λ job. job ≡ team.second) }
    ensures third { result.0.third.jobs.items ++ reverse (map (λ h. h.promise.job.value) result.0.third.handles.items) ≡ team.third.items }
    ensures words { All (λ h. h.promise.word.now.id ≡ word.now.id) result.0.first.handles.items × IfOk result.0.second (λ h. h.promise.word.now.id ≡ word.now.id) × All (λ h. h.promise.word.now.id ≡ word.now.id) result.0.third.handles.items }
    ensures first_room { vec_len result.0.first.jobs + vec_len result.0.first.handles ≤ vec_capacity result.0.first.jobs }
    ensures third_room { vec_len result.0.third.jobs + vec_len result.0.third.handles ≤ vec_capacity result.0.third.jobs }
    ensures all { OnOk result.1 ((result.0.first.jobs.items ≡ []) × IsOk result.0.second × (result.0.third.jobs.items ≡ [])) }
    ensures said { IfErr result.1 (λ said. IfSome said (λ token. (token.of ≡ word.now.id) × (token.value ≡ false))) }
{
    let Team {
        first,
        second,
        third,
    } = team;
    let (first, started) = start_all(scope, rt, alloc, word, first);
    if let Err(said) = started {
        let third = unbegun(alloc, third);
        let second = Err(second);
        return (
            Handles {
                first,
                second,
                third,
            },
            Err(said),
        );
    }
    let second = match start(scope, rt, word, second) {
        Ok(handle) => handle,
        Err((back, token)) => {
            let third = unbegun(alloc, third);
            let second = Err(back);
            return (
                Handles {
                    first,
                    second,
                    third,
                },
                Err(Some(token)),
            );
        }
    };
    let (third, started) = start_all(scope, rt, alloc, word, third);
    let second = Ok(second);
    (
        Handles {
            first,
            second,
            third,
        },
        started,
    )
}

/// Jobs for which no thread was started.
fn unbegun<'s, J: Job>(alloc: Global, jobs: Vec<J>) -> Begun<'s, J>
    ensures jobs { result.jobs.items ≡ jobs.items }
    ensures handles { result.handles.items ≡ [] }
    ensures room { vec_len result.jobs + vec_len result.handles ≤ vec_capacity result.jobs }
{
    let handles = Vec::new(alloc);
    Begun { jobs, handles }
}
