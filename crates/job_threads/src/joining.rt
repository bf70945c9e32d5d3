//! Threads are joined.
ghost use Rattle.std.specs.Prelude.{◌≡◌, ◌+◌, ◌++◌, ◌≤◌, All, true, false, map, reverse, [], vec_len, vec_capacity};
ghost use Rattle.job_threads.specs.Jobs.{HaveDone};

use crate::job::{Ended, Job, ThreadResult};
use crate::starting::{Begun, Handle};
use std::sync::OnceToken;
use std::thread::Threads;

/// Joins a thread that has worked, and gives what its job left.
pub fn join<'s, J: Job + Drop, R: Threads>(
    rt: &R,
    token: &OnceToken<'s, bool>,
    handle: Handle<'s, J>,
) -> J::Left
    requires { (token.now.value ≡ true) × (handle.promise.word.now.id ≡ token.now.of) }
    ensures { J.did handle.entry.promise.job.value result }
{
    let ThreadResult { word, ended } = handle.join(rt);
    token.agrees(&word);
    match ended {
        Ended::Left(left) => left,
        Ended::Back(_) => unreachable!(),
    }
}

/// Joins threads that have worked, the last one first.
pub fn join_all<'s, J: Job + Drop, R: Threads>(
    rt: &R,
    token: &OnceToken<'s, bool>,
    handles: Vec<Handle<'s, J>>,
    room: Vec<J::Left>,
) -> Vec<J::Left>
    requires word { (token.now.value ≡ true) × All (λ h. h.promise.word.now.id ≡ token.now.of) handles.items }
    requires room { (room.items ≡ []) × (vec_len handles ≤ vec_capacity room) }
    ensures { HaveDone J.did (reverse (map (λ h. h.promise.job.value) handles.entry.items)) result.items }
{
    let mut handles = handles;
    let mut lefts = room;
    while let Some(handle) = handles.pop() {
        let left = join(rt, token, handle);
        lefts.push_reserved(left);
    }
    lefts
}

/// Joins a thread that was told not to work, and gives its job back.
pub fn take_back<'s, J: Job + Drop, R: Threads>(
    rt: &R,
    token: &OnceToken<'s, bool>,
    handle: Handle<'s, J>,
) -> J
    requires { (token.now.value ≡ false) × (handle.promise.word.now.id ≡ token.now.of) }
    ensures { result ≡ handle.entry.promise.job.value }
{
    let ThreadResult { word, ended } = handle.join(rt);
    token.agrees(&word);
    match ended {
        Ended::Back(job) => job,
        Ended::Left(_) => unreachable!(),
    }
}

/// Joins threads that were told not to work, the last one first, and gives all jobs back.
pub fn take_all_back<'s, J: Job + Drop, R: Threads>(
    rt: &R,
    token: &OnceToken<'s, bool>,
    begun: Begun<'s, J>,
) -> Vec<J>
    requires word { (token.now.value ≡ false) × All (λ h. h.promise.word.now.id ≡ token.now.of) begun.handles.items }
    requires room { vec_len begun.jobs + vec_len begun.handles ≤ vec_capacity begun.jobs }
    ensures { result.items ≡ begun.entry.jobs.items ++ reverse (map (λ h. h.promise.job.value) begun.entry.handles.items) }
{
    let Begun {
        mut jobs,
        mut handles,
    } = begun;
    while let Some(handle) = handles.pop() {
        let job = take_back(rt, token, handle);
        jobs.push_reserved(job);
    }
    jobs
}
