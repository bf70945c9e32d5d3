//! What runs on a thread of its own.
ghost use Rattle.std.specs.Prelude.{◌≡◌};

use std::snapshot::Snapshot;
use std::sync::{OnceLock, OnceToken};
use std::thread::Promise;

/// What runs on a thread of its own, once.
pub trait Job {
    /// What it leaves.
    type Left: Drop;

    /// It may begin.
    ghost ready: { Self → Type 0 };

    /// What it did, by what it was and what it left.
    ghost did: { Self → Self.Left → Type 0 };

    /// Does it.
    fn work(self) -> Self::Left
        requires { ready self }
        ensures { did self result };
}

/// What became of a job.
#[derive(Drop)]
pub enum Ended<J, X> {
    /// It has worked, and left this.
    Left(X),
    /// It hasn't worked, and is as it was.
    Back(J),
}

/// What a thread gives back: the start word that it saw, and what became of its job.
#[derive(Drop)]
pub struct ThreadResult<'s, J, X> {
    pub word: OnceToken<'s, bool>,
    pub ended: Ended<J, X>,
}

/// What a thread promises that is started with this job: it saw this start word. Where that said yes the job has
/// worked, and where it said no the job comes back.
#[derive(Drop)]
pub struct ThreadPromise<'s, J> {
    pub word: &'s OnceLock<bool>,
    pub job: Snapshot<J>,
}

impl<'s, J: Job> Promise<ThreadResult<'s, J, J::Left>> for ThreadPromise<'s, J> {
    ghost use Rattle.std.specs.Prelude.{◌≡◌};
    ghost use Rattle.job_threads.specs.Jobs.{EndsBy};

    ghost kept_by = { λ p r. (r.word.of ≡ p.word.now.id) × EndsBy J.did p.job.value r.word.value r.ended };
}
