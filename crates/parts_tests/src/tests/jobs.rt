//! Three jobs that are told to work, and three that are told not to.
ghost use Rattle.std.specs.Prelude.{◌≡◌};

use job_threads::{Job, join_all, start_all, take_all_back};
use std::alloc::{AllocError, Global};
use std::sync::atomic::{AtomicU64, Ordering};
use std::sync::{OnceLock, Wait};
use std::test::Fail;
use std::thread;
use std::thread::{Scope, Threads};

/// Adds its number to a sum, and leaves it.
#[derive(Drop)]
struct Adds<'s> {
    number: u64,
    sum: &'s AtomicU64,
}

impl<'s> Job for Adds<'s> {
    ghost use Rattle.std.specs.Prelude.{◌≡◌};

    type Left = u64;

    ghost ready = { λ job. Unit {0} };

    ghost did = { λ job left. left ≡ job.number };

    fn work(self) -> u64 {
        self.sum.fetch_add(self.number, Ordering::SeqCst);
        self.number
    }
}

/// How many numbers a list has, and its last three.
type Listed = (usize, [u64; 3]);

/// What is kept of the numbers that jobs left.
fn listed(numbers: &[u64]) -> Listed {
    let mut last = [0; 3];
    for number in numbers {
        last = [last[1], last[2], *number];
    }
    (numbers.len(), last)
}

/// What is kept of the numbers of jobs.
fn numbers_of(jobs: &[Adds]) -> Listed {
    let mut last = [0; 3];
    for job in jobs {
        last = [last[1], last[2], job.number];
    }
    (jobs.len(), last)
}

/// What is kept of what jobs left that are told to work, and of those that came back. `None` where one couldn't be
/// started.
fn in_scope<'s, E, R: Threads + Wait + Sync + 's>(
    scope: &Scope<'s, E>,
    rt: &'s R,
    alloc: Global,
    word: &'s OnceLock<bool>,
    (jobs, room): (Vec<Adds<'s>>, Vec<u64>),
    works: bool,
) -> Option<(Listed, Listed)> {
    let (begun, started) = start_all(scope, rt, alloc, word, jobs);
    let token = word.set(rt, works && started.is_ok()).ok()?;
    if !*word.value(&token) {
        let back = take_all_back(rt, &token, begun);
        return Some((listed(&[]), numbers_of(&back)));
    }
    if begun.handles.len() > room.capacity() || !room.is_empty() {
        return None;
    }
    let lefts = join_all(rt, &token, begun.handles, room);
    Some((listed(&lefts), listed(&[])))
}

/// Three jobs that add to a sum, and room for what they leave.
fn jobs_of(alloc: Global, sum: &AtomicU64) -> Result<(Vec<Adds>, Vec<u64>), AllocError> {
    let room = Vec::with_capacity(alloc, 3)?;
    let jobs = vec![in alloc;
        Adds { number: 1, sum },
        Adds { number: 2, sum },
        Adds { number: 3, sum },
    ]?;
    Ok((jobs, room))
}

/// The same with new jobs, and the sum.
fn three<R: Threads + Wait + Sync>(
    rt: &R,
    alloc: Global,
    works: bool,
) -> Result<(Listed, Listed, u64), AllocError> {
    let sum = AtomicU64::new(0);
    let word = OnceLock::new();
    let jobs = jobs_of(alloc, &sum)?;
    let begin = &word;
    let ended = thread::scope(thread::scope_env(), rt, |scope| {
        in_scope(scope, rt, alloc, begin, jobs, works)
    });
    let (lefts, back) = ended.ok_or(AllocError)?;
    Ok((lefts, back, sum.load(Ordering::SeqCst)))
}

#[test]
fn three_work(rt: HostRuntime) -> Result<(), Fail> {
    let came = three(&rt, rt.alloc(), true)?;
    assert_eq!(rt; came, ((3, [1, 2, 3]), (0, [0; 3]), 6));
    Ok(())
}

#[test]
fn three_come_back(rt: HostRuntime) -> Result<(), Fail> {
    let came = three(&rt, rt.alloc(), false)?;
    assert_eq!(rt; came, ((0, [0; 3]), (3, [1, 2, 3]), 0));
    Ok(())
}
