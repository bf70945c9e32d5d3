//! What shards tell of their decisions, until it is written.
use crossbeam_queue::ArrayQueue;
use decision_json::MOST_SAID;
use line_entries::LineNews;
use policy_eval::MOST_POLICIES;
use std::alloc::{AllocError, Global};
use std::sync::Wait;
use std::sync::atomic::{AtomicU64, Ordering};

/// At most this many decisions wait until they are written, some 10 MiB.
const MOST_WAITING: usize = 65_536;

const _: () = prove!(MOST_SAID == MOST_POLICIES);

/// Decisions that shards told and nobody has taken yet.
#[derive(Drop)]
pub struct DecisionQueue {
    waiting: ArrayQueue<LineNews>,
    lost: AtomicU64,
}

impl DecisionQueue {
    /// Nothing was told.
    pub fn new(alloc: Global) -> Result<Self, AllocError> {
        Ok(DecisionQueue {
            waiting: ArrayQueue::new(alloc, MOST_WAITING)?,
            lost: AtomicU64::new(0),
        })
    }

    /// Puts what was told behind what waits, and counts it as lost where there is no room: a shard never waits
    /// for its decisions to be written.
    pub fn put<R: Wait>(&self, rt: &R, news: LineNews) {
        if self.waiting.push(rt, news).is_err() {
            self.loses(1);
        }
    }

    /// Takes what was told first, if anything waits.
    pub fn take<R: Wait>(&self, rt: &R) -> Option<LineNews> {
        self.waiting.pop(rt)
    }

    /// Counts lines that are never written.
    pub fn loses(&self, lines: u64) {
        self.lost.fetch_add(lines, Ordering::Relaxed);
    }

    /// How many lines are never written.
    pub fn lost(&self) -> u64 {
        self.lost.load(Ordering::Relaxed)
    }
}
