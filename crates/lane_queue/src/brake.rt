//! Whether no more is to be taken for now.
use std::sync::atomic::{AtomicU64, Ordering};

/// Whether no more is to be taken for now, since memory is short. One thread tells it; lanes look at it, and shards
/// where memory is shorter still. No contract rests on it.
#[derive(Drop)]
pub struct Brake {
    state: AtomicU64,
}

impl Brake {
    /// More may be taken.
    pub fn new() -> Self {
        Brake {
            state: AtomicU64::new(0),
        }
    }

    /// From now on no more requests are to be taken, or more may be; and shards are to keep no more spans, or they may.
    pub fn set(&self, refuses_requests: bool, refuses_spans: bool) {
        let state = refuses_requests as u64 + 2 * (refuses_spans as u64);
        self.state.store(state, Ordering::Relaxed);
    }

    /// Whether no more requests are to be taken for now.
    pub fn is_on(&self) -> bool {
        self.state.load(Ordering::Relaxed) % 2 > 0
    }

    /// Whether shards are to keep no more spans for now.
    pub fn refuses_spans(&self) -> bool {
        self.state.load(Ordering::Relaxed) > 1
    }
}
