//! How the backend takes what is sent to it.
ghost use Rattle.std.specs.Prelude.{◌≡◌};
ghost use Rattle.collector_board.specs.Backlog.{left_by, tries_after};

use batch_post::{AttemptOutcome, BatchFate};
use metrics_text::ShardNumbers;
use std::sync::atomic::{AtomicBool, AtomicU64, Ordering};

/// How the backend takes what is sent to it, where batches are sent to one. One thread sends, any may read.
#[derive(Drop)]
pub struct ExportProgress {
    /// Whether batches are sent.
    is_on: AtomicBool,
    /// How many tries to send the batch that is under way have failed.
    failed_tries: AtomicU64,
    /// How many batches were given up.
    given_up: AtomicU64,
}

impl ExportProgress {
    /// Nothing is sent.
    pub fn new() -> Self {
        ExportProgress {
            is_on: AtomicBool::new(false),
            failed_tries: AtomicU64::new(0),
            given_up: AtomicU64::new(0),
        }
    }

    /// From now on batches are sent.
    pub fn begins(&self) {
        self.is_on.store(true, Ordering::Relaxed);
    }

    /// Whether batches are sent.
    pub fn is_on(&self) -> bool {
        self.is_on.load(Ordering::Relaxed)
    }

    /// A try to send the batch that is under way ended so.
    pub fn tried(&self, outcome: AttemptOutcome) {
        let failed = self.failed_tries.load(Ordering::Relaxed);
        self.failed_tries
            .store(tries_after(failed, outcome), Ordering::Relaxed);
    }

    /// The batch that was under way is no more.
    pub fn settled(&self, fate: BatchFate) {
        self.failed_tries.store(0, Ordering::Relaxed);
        if fate == BatchFate::GivenUp {
            self.given_up.fetch_add(1, Ordering::Relaxed);
        }
    }

    /// How many tries to send the batch that is under way have failed.
    pub fn failed_tries(&self) -> u64 {
        self.failed_tries.load(Ordering::Relaxed)
    }

    /// How many batches were given up.
    pub fn given_up(&self) -> u64 {
        self.given_up.load(Ordering::Relaxed)
    }
}

/// How many tries of a batch have failed after one more, up to 2^64-1: none where it was taken.
fn tries_after(failed: u64, outcome: AttemptOutcome) -> u64
    ensures { result ≡ tries_after failed outcome }
{
    match outcome {
        AttemptOutcome::Answered(200, _) => 0,
        _ => failed.saturating_add(1),
    }
}

/// How many of the spans that wait have left their shards, by what each shard holds: neither in its queues nor of a trace
/// that waits there.
pub fn left_by(waiting: u64, shards: &[ShardNumbers]) -> u64
    ensures { result ≡ left_by waiting shards.now }
{
    let mut left = waiting;
    for shard in shards {
        left = left.saturating_sub(shard.queued);
        left = left.saturating_sub(shard.spans);
    }
    left
}
