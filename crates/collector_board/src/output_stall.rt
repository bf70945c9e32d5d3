//! For how long the output has kept a write waiting.
ghost use Rattle.std.specs.Prelude.{◌≡◌};
ghost use Rattle.collector_board.specs.Stalls.{stalled_seconds};

use std::sync::OnceLock;
use std::sync::atomic::{AtomicU64, Ordering};
use std::time::{Clock, Instant};

/// Tells since when a write or a delivery has been under way. One thread writes, any may read.
#[derive(Drop)]
pub struct OutputStall {
    /// When it was first asked for the time.
    origin: OnceLock<Instant>,
    /// The millisecond since then, from 1 on, in which the write began that is under way; 0 where none is.
    began: AtomicU64,
}

impl OutputStall {
    /// No write is under way.
    pub fn new() -> Self {
        OutputStall {
            origin: OnceLock::new(),
            began: AtomicU64::new(0),
        }
    }

    /// A write begins now.
    pub fn begins<R: Clock>(&self, rt: &R) {
        let now = self.passed(rt);
        // From 1 on, since 0 says that none is under way.
        self.began.store(now.saturating_add(1), Ordering::Relaxed);
    }

    /// It is over.
    pub fn ends(&self) {
        self.began.store(0, Ordering::Relaxed);
    }

    /// Seconds since the write began that is under way, and 0 where none is.
    pub fn seconds<R: Clock>(&self, rt: &R) -> u64 {
        let began = self.began.load(Ordering::Relaxed);
        stalled_seconds(began, self.passed(rt))
    }

    /// Milliseconds since it was first asked for the time, and 0 where the clock can't be read.
    fn passed<R: Clock>(&self, rt: &R) -> u64 {
        let Ok(now) = Instant::now(rt) else {
            return 0;
        };
        // An `Err` says that it is set, or that another thread is setting it.
        let _ = self.origin.try_set(now);
        match self.origin.get() {
            Some(origin) => match now.checked_duration_since(*origin) {
                Some(passed) => u64::try_from(passed.as_millis()).unwrap_or(u64::MAX),
                None => 0,
            },
            None => 0,
        }
    }
}

/// Whole seconds from the millisecond, counted from 1 on, in which a write began, to this one, counted from 0 on; 0
/// where none is under way.
fn stalled_seconds(began: u64, now: u64) -> u64
    ensures { result ≡ stalled_seconds began now }
{
    if began == 0 {
        return 0;
    }
    now.saturating_sub(began - 1) / 1_000
}
