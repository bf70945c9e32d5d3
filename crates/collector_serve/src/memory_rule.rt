//! When requests are refused since the process takes too much memory.
ghost use Rattle.std.specs.Prelude.{◌≡◌};
ghost use Rattle.collector_serve.specs.Memory.{is_short, is_shorter, memory_after, release_of};

use std::marker::Model;

/// What is known of the memory that the process takes, in bytes.
#[derive(Drop)]
pub struct MemoryRule {
    limit: u64,
    /// The most that it took since it went beyond the limit.
    most: u64,
    /// The most spans that may wait when requests are taken again.
    release: u64,
}

impl Model for MemoryRule {
    ghost use Rattle.collector_serve.specs.Memory.{MemoryState};

    ghost Value = { MemoryState };

    ghost view = { λ r. record { limit = r.limit; most = r.most; release = r.release } };
}

impl MemoryRule {
    /// For a process that may take at most `limit` bytes.
    pub fn new(limit: u64) -> Self
        ensures { result ≡ record { limit = limit; most = limit; release = 0 } }
    {
        MemoryRule {
            limit,
            most: limit,
            release: 0,
        }
    }

    /// Whether requests are refused, now that the process takes `taken` bytes and `waiting` spans wait. Once it went
    /// beyond its limit that is so until fewer spans wait, since what is freed is used again before the process grows.
    pub fn is_short(&mut self, taken: u64, waiting: u64) -> bool
        ensures state { self.new ≡ memory_after self.old taken waiting }
        ensures short { result ≡ is_short self.new taken waiting }
    {
        if taken <= self.limit {
            self.most = self.limit;
            self.release = 0;
        } else if taken > self.most {
            self.most = taken;
            self.release = release_of(self.limit, taken, waiting);
        }
        // What is freed goes back to the allocator and not to the system, so the spans that wait are looked at (D-173).
        self.limit < taken && self.release < waiting
    }

    /// Whether no more spans are to be kept where requests are refused, now that the process takes `taken` bytes and
    /// `waiting` spans wait: it is more than an eighth beyond its limit, and as many wait as when it grew so far.
    pub fn is_shorter(&self, taken: u64, waiting: u64) -> bool
        ensures { result ≡ is_shorter self.now taken waiting }
    {
        self.limit.saturating_add(self.limit / 8) < taken && self.release <= waiting / 2
    }
}

/// The most spans that may wait again, where `waiting` did when the process grew to this size.
fn release_of(limit: u64, taken: u64, waiting: u64) -> u64
    ensures { result ≡ release_of limit taken waiting }
{
    if taken <= limit.saturating_add(limit / 8) {
        return waiting - waiting / 8;
    }
    waiting / 2
}
