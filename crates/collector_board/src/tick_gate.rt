//! Where ticks and requests meet: with a record, lanes stand between two rounds while a tick goes to the shards.
use std::sync::Wait;
use std::sync::atomic::{AtomicBool, AtomicU64, Ordering};
use std::thread;
use std::time::{Clock, Duration};

/// How long is slept between two looks, in microseconds.
const NAP: u64 = 50;

/// How many looks are taken before a tick goes on though shards take nothing: a tenth of a second (D-527).
const LOOKS: u64 = 2_000;

/// How many looks are taken before a tick goes on though a lane or a shard is still behind: a second.
const MOST_LOOKS: u64 = 20_000;

/// Lets lanes take requests, or the ticker tell the shards a tick, so that each request lies before or behind each tick.
#[derive(Drop)]
pub struct TickGate {
    is_shut: AtomicBool,
    /// How many lanes are within a round.
    inside: AtomicU64,
    /// How many items shards have taken.
    taken: AtomicU64,
    /// How many ticks were told, each to every shard.
    ticks: AtomicU64,
}

impl TickGate {
    /// No lane is within a round, and nothing was taken.
    pub fn new() -> Self {
        TickGate {
            is_shut: AtomicBool::new(false),
            inside: AtomicU64::new(0),
            taken: AtomicU64::new(0),
            ticks: AtomicU64::new(0),
        }
    }

    /// A lane begins a round; it waits while a tick goes to the shards.
    pub fn enter<R: Wait + Clock>(&self, rt: &R) {
        for _ in rt.forever() {
            self.inside.fetch_add(1, Ordering::SeqCst);
            if !self.is_shut.load(Ordering::SeqCst) {
                return;
            }
            self.inside.fetch_sub(1, Ordering::SeqCst);
            thread::sleep(rt, Duration::from_micros(NAP));
        }
    }

    /// A lane ends its round: it has pushed and told all of it.
    pub fn leave(&self) {
        self.inside.fetch_sub(1, Ordering::SeqCst);
    }

    /// From now on no lane begins a round, and none is within one.
    pub fn shut<R: Wait + Clock>(&self, rt: &R) {
        self.is_shut.store(true, Ordering::SeqCst);
        for _ in 0..MOST_LOOKS {
            if self.inside.load(Ordering::SeqCst) == 0 {
                return;
            }
            thread::sleep(rt, Duration::from_micros(NAP));
        }
    }

    /// Lanes may begin rounds.
    pub fn open(&self) {
        self.is_shut.store(false, Ordering::SeqCst);
    }

    /// A shard has taken an item.
    pub fn takes(&self) {
        self.taken.fetch_add(1, Ordering::SeqCst);
    }

    /// A tick was told to every shard.
    pub fn ticks(&self) {
        self.ticks.fetch_add(1, Ordering::SeqCst);
    }

    /// Waits until this number of shards has taken all ticks that were told, and so many spans.
    pub fn wait_for<R: Wait + Clock>(&self, rt: &R, shards: u64, spans: u64) {
        let ticks = self.ticks.load(Ordering::SeqCst);
        let items = spans.saturating_add(ticks.saturating_mul(shards));
        let (mut seen, mut left) = (0, LOOKS);
        for _ in 0..MOST_LOOKS {
            let taken = self.taken.load(Ordering::SeqCst);
            // Shards that take nothing wait for the output, which isn't to hold up lanes.
            if taken >= items || left == 0 {
                return;
            }
            left = if taken == seen { left - 1 } else { LOOKS };
            seen = taken;
            thread::sleep(rt, Duration::from_micros(NAP));
        }
    }
}
