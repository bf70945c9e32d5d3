//! What wakes a thread that waits at its queues.
use std::sync::Wait;
use std::sync::atomic::{AtomicU64, Ordering};
use std::time::Duration;

/// The receiver doesn't wait.
const AWAKE: u64 = 0;

/// The receiver sleeps, or will once it has found its queues empty again.
const WAITS: u64 = 1;

/// So long it sleeps at most, in milliseconds.
const LIMIT: u64 = 1_000;

/// Wakes the receiver of some queues when a sender has pushed. No contract rests on it.
#[derive(Drop)]
pub struct Bell {
    state: AtomicU64,
}

impl Bell {
    /// One that nobody waits for.
    pub fn new() -> Self {
        Bell {
            state: AtomicU64::new(AWAKE),
        }
    }

    /// The receiver found its queues empty. The first time it is to look again, since an item may have come before it
    /// said that it waits; then it sleeps until it is woken.
    pub fn wait<R: Wait>(&self, rt: &R) {
        if self.state.load(Ordering::SeqCst) == AWAKE {
            self.state.store(WAITS, Ordering::SeqCst);
            return;
        }
        self.state
            .park_timeout(rt, WAITS as u32, Duration::from_millis(LIMIT));
        self.state.store(AWAKE, Ordering::SeqCst);
    }

    /// A sender has pushed: the receiver wakes, if it sleeps.
    pub fn ring(&self) {
        if self.state.load(Ordering::SeqCst) == WAITS {
            self.state.store(AWAKE, Ordering::SeqCst);
            self.state.wake_one();
        }
    }
}
