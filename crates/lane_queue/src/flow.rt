//! How far both ends of a queue have come, for each other and for readers.
use crossbeam_utils::CachePadded;
use std::sync::atomic::{AtomicU64, Ordering};

/// How many items were popped, and how many were pushed, modulo 2^64. One thread tells each. No contract rests on it.
#[derive(Drop)]
pub struct Flow {
    popped: CachePadded<AtomicU64>,
    pushed: CachePadded<AtomicU64>,
}

impl Flow {
    /// None was pushed or popped.
    pub fn new() -> Self {
        Flow {
            popped: CachePadded::new(AtomicU64::new(0)),
            pushed: CachePadded::new(AtomicU64::new(0)),
        }
    }

    /// One more was popped.
    pub fn step(&self) {
        let popped = self.popped.load(Ordering::Relaxed);
        self.popped.store(popped.wrapping_add(1), Ordering::Release);
    }

    /// So many were pushed by now.
    pub fn pushed_to(&self, pushed: u64) {
        self.pushed.store(pushed, Ordering::Relaxed);
    }

    /// How many of so many that were pushed still wait, at most.
    pub fn waiting(&self, pushed: u64) -> u64 {
        pushed.wrapping_sub(self.popped.load(Ordering::Acquire))
    }

    /// How many wait, as far as is known here: a push is told behind it.
    pub fn len(&self) -> u64 {
        let popped = self.popped.load(Ordering::Relaxed);
        let pushed = self.pushed.load(Ordering::Relaxed);
        let waiting = pushed.wrapping_sub(popped);
        if waiting > u64::MAX / 2 { 0 } else { waiting }
    }
}
