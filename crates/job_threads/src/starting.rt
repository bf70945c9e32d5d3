//! Threads are started.
ghost use Rattle.std.specs.Prelude.{◌≡◌, ◌+◌, ◌++◌, ◌≤◌, vec_capacity, [], ◌∷◌, All, true, false, IfOk, OnOk, IfErr, IfSome, vec_len, map, reverse};
ghost use Rattle.job_threads.specs.Jobs.{EndsBy};

use crate::job::{Ended, Job, ThreadPromise, ThreadResult};
use crate::word::{await_word, say_no};
use std::alloc::Global;
use std::snapshot::Snapshot;
use std::sync::{OnceLock, OnceToken, Wait};
use std::thread::{PromisedHandle, Scope, Threads};

/// A thread that was started.
pub type Handle<'s, J> = PromisedHandle<
    ThreadResult<'s, J, <J as Job>::Left>,
    ThreadPromise<'s, J>,
>;

/// Jobs: those for which no thread was started, and the threads of the others, the last job's first.
#[derive(Drop)]
pub struct Begun<'s, J: Job> {
    pub jobs: Vec<J>,
    pub handles: Vec<Handle<'s, J>>,
}

/// Whether all threads were started. If not, and one couldn't be started: the word, which then said no.
pub type Started<'s> = Result<(), Option<OnceToken<'s, bool>>>;

/// What a thread does.
fn thread<'s, J: Job + Drop, R: Wait>(
    rt: &R,
    word: &'s OnceLock<bool>,
    job: J,
) -> ThreadResult<'s, J, J::Left>
    requires { J.ready job }
    ensures { (result.word.of ≡ word.now.id) × EndsBy J.did job result.word.value result.ended }
{
    let token = await_word(rt, word);
    let ended = if *word.value(&token) {
        Ended::Left(job.work())
    } else {
        Ended::Back(job)
    };
    ThreadResult { word: token, ended }
}

/// Starts a thread for a job. Where no thread can be made the word says no, and the job comes back.
pub fn start<'s, E, J: Job + Send + Drop + 's, R: Threads + Wait + Sync + 's>(
    scope: &Scope<'s, E>,
    rt: &'s R,
    word: &'s OnceLock<bool>,
    job: J,
) -> Result<Handle<'s, J>, (J, OnceToken<'s, bool>)>
where
    J::Left: Send,
    requires { J.ready job }
    ensures started { IfOk result (λ h. (h.promise.word.now.id ≡ word.now.id) × (h.promise.job.value ≡ job)) }
    ensures back { IfErr result (λ back. back.0 ≡ job) }
    ensures said { IfErr result (λ back. (back.1.of ≡ word.now.id) × (back.1.value ≡ false)) }
{
    let promise = ThreadPromise {
        word,
        job: Snapshot::of(&job),
    };
    let spawned = scope.spawn_with(
        promise,
        move || -> ThreadResult<'_, J, J::Left>
            requires { J.ready job }
            ensures { (result.word.of ≡ word.entry.now.id) × EndsBy J.did job result.word.value result.ended }
        { thread(rt, word, job) },
    );
    match spawned {
        Ok(handle) => Ok(handle),
        Err(refused) => {
            let token = say_no(rt, word);
            let told = refused.value;
            let ThreadResult { word: seen, ended } = told();
            token.agrees(&seen);
            match ended {
                Ended::Back(job) => Err((job, token)),
                Ended::Left(_) => unreachable!(),
            }
        }
    }
}

/// Starts a thread for each job, the last one first, until one can't be started, or there is no memory for the handles.
pub fn start_all<'s, E, J: Job + Send + Drop + 's, R: Threads + Wait + Sync + 's>(
    scope: &Scope<'s, E>,
    rt: &'s R,
    alloc: Global,
    word: &'s OnceLock<bool>,
    jobs: Vec<J>,
) -> (Begun<'s, J>, Started<'s>)
where
    J::Left: Send,
    requires { All J.ready jobs.items }
    ensures jobs { result.0.jobs.items ++ reverse (map (λ h. h.promise.job.value) result.0.handles.items) ≡ jobs.items }
    ensures room { vec_len result.0.jobs + vec_len result.0.handles ≤ vec_capacity result.0.jobs }
    ensures words { All (λ h. h.promise.word.now.id ≡ word.now.id) result.0.handles.items }
    ensures all { OnOk result.1 (result.0.jobs.items ≡ []) }
    ensures said { IfErr result.1 (λ said. IfSome said (λ token. (token.of ≡ word.now.id) × (token.value ≡ false))) }
{
    let mut jobs = jobs;
    let Ok(mut handles) = Vec::with_capacity(alloc, jobs.len()) else {
        let handles = Vec::new(alloc);
        return (Begun { jobs, handles }, Err(None));
    };
    while let Some(job) = jobs.pop() {
        match start(scope, rt, word, job) {
            Ok(handle) => handles.push_reserved(handle),
            Err((back, token)) => {
                jobs.push_reserved(back);
                return (Begun { jobs, handles }, Err(Some(token)));
            }
        }
    }
    (Begun { jobs, handles }, Ok(()))
}
