//! Barriers that hold one thread until another has reached a place, and give up after so many turns.
ghost use Rattle.std.specs.Prelude.{⊤};

use decision_line::{DecidedTrace, EvictedTrace, LateSpans, Said};
use span_ids::Moment;
use std::sync::Wait;
use std::sync::atomic::{AtomicBool, Ordering};
use std::thread;
use thread_watch::{Barrier, ThreadPlace, Watcher};

/// So many turns a thread is held at most: some seconds.
const TURNS: u32 = 100_000;

/// How often a turn lets other threads run.
const YIELDS: u32 = 32;

/// Lets other threads run.
fn turn() {
    for _ in 0..YIELDS {
        thread::yield_now();
    }
}

/// Whether each of two threads has reached a place.
#[derive(Drop)]
struct Two {
    first: AtomicBool,
    second: AtomicBool,
}

impl Two {
    /// Neither has.
    fn new() -> Self {
        Two {
            first: AtomicBool::new(false),
            second: AtomicBool::new(false),
        }
    }

    /// The mark of one thread, and then the other's.
    fn marks(&self, is_first: bool) -> (&AtomicBool, &AtomicBool) {
        if is_first {
            (&self.first, &self.second)
        } else {
            (&self.second, &self.first)
        }
    }
}

/// Which places were reached, and whether a thread was held for too long.
#[derive(Drop)]
pub struct Places {
    /// The lanes, at their first connections.
    first: Two,
    /// The lanes, at their second connections.
    second: Two,
    /// The shards, behind their first items.
    taken: Two,
    gave_up: AtomicBool,
}

impl Places {
    /// No place was reached.
    pub fn new() -> Self {
        Places {
            first: Two::new(),
            second: Two::new(),
            taken: Two::new(),
            gave_up: AtomicBool::new(false),
        }
    }

    /// Whether a thread was held for too long.
    pub fn gave_up(&self) -> bool {
        self.gave_up.load(Ordering::SeqCst)
    }

    /// Holds this thread until one of two places was reached.
    fn hold(&self, one: &AtomicBool, other: &AtomicBool) {
        for _ in 0..TURNS {
            if one.load(Ordering::SeqCst) || other.load(Ordering::SeqCst) {
                return;
            }
            turn();
        }
        self.gave_up.store(true, Ordering::SeqCst);
    }

    /// Says that a thread has reached its place, and holds it until the other one has reached its own.
    fn meet(&self, place: &Two, is_first: bool) {
        let (own, other) = place.marks(is_first);
        own.store(true, Ordering::SeqCst);
        self.hold(other, other);
    }
}

/// Holds each lane at its first two connections until the other lane has reached the same one.
#[derive(Drop)]
pub struct LanesMeet<'p>(pub &'p Places);

impl<'p> Watcher for LanesMeet<'p> {
    ghost unheard = { λ _ _ _. ⊤ };

    ghost told_decided = { λ _ _ _. ⊤ };

    ghost told_evicted = { λ _ _. ⊤ };

    ghost told_late = { λ _ _. ⊤ };

    fn hears_decisions(&self, _shard: u16, _moment: Moment) -> bool {
        false
    }

    fn trace_decided<R: Wait>(&self, _rt: &R, _decision: &DecidedTrace, _said: &[Said]) {}

    fn trace_evicted<R: Wait>(&self, _rt: &R, _evicted: &EvictedTrace) {}

    fn spans_late<R: Wait>(&self, _rt: &R, _late: &LateSpans) {}
}

impl<'p> Barrier for LanesMeet<'p> {
    fn reach(&self, place: ThreadPlace) {
        if let ThreadPlace::Connected { lane, ordinal } = place {
            if lane < 2 && ordinal == 0 {
                self.0.meet(&self.0.first, lane == 0);
            } else if lane < 2 && ordinal == 1 {
                self.0.meet(&self.0.second, lane == 0);
            }
        }
    }
}

/// Holds lane 0 behind its first connection until a shard has taken its first item.
#[derive(Drop)]
pub struct ShardsBeginEarly<'p>(pub &'p Places);

impl<'p> Watcher for ShardsBeginEarly<'p> {
    ghost unheard = { λ _ _ _. ⊤ };

    ghost told_decided = { λ _ _ _. ⊤ };

    ghost told_evicted = { λ _ _. ⊤ };

    ghost told_late = { λ _ _. ⊤ };

    fn hears_decisions(&self, _shard: u16, _moment: Moment) -> bool {
        false
    }

    fn trace_decided<R: Wait>(&self, _rt: &R, _decision: &DecidedTrace, _said: &[Said]) {}

    fn trace_evicted<R: Wait>(&self, _rt: &R, _evicted: &EvictedTrace) {}

    fn spans_late<R: Wait>(&self, _rt: &R, _late: &LateSpans) {}
}

impl<'p> Barrier for ShardsBeginEarly<'p> {
    fn reach(&self, place: ThreadPlace) {
        match place {
            ThreadPlace::Taken { shard } => {
                let (own, _) = self.0.taken.marks(shard == 0);
                own.store(true, Ordering::SeqCst);
            }
            ThreadPlace::Served { lane, ordinal } => {
                if lane == 0 && ordinal == 0 {
                    self.0.hold(&self.0.taken.first, &self.0.taken.second);
                }
            }
            ThreadPlace::Connected { .. } => {}
        }
    }
}

/// Holds each of two shards behind its first item until the other has taken its own.
#[derive(Drop)]
pub struct ShardsMeet<'p>(pub &'p Places);

impl<'p> Watcher for ShardsMeet<'p> {
    ghost unheard = { λ _ _ _. ⊤ };

    ghost told_decided = { λ _ _ _. ⊤ };

    ghost told_evicted = { λ _ _. ⊤ };

    ghost told_late = { λ _ _. ⊤ };

    fn hears_decisions(&self, _shard: u16, _moment: Moment) -> bool {
        false
    }

    fn trace_decided<R: Wait>(&self, _rt: &R, _decision: &DecidedTrace, _said: &[Said]) {}

    fn trace_evicted<R: Wait>(&self, _rt: &R, _evicted: &EvictedTrace) {}

    fn spans_late<R: Wait>(&self, _rt: &R, _late: &LateSpans) {}
}

impl<'p> Barrier for ShardsMeet<'p> {
    fn reach(&self, place: ThreadPlace) {
        if let ThreadPlace::Taken { shard } = place {
            if shard < 2 {
                self.0.meet(&self.0.taken, shard == 0);
            }
        }
    }
}
