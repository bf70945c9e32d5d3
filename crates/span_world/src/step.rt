//! The steps of the core, and why one is refused.
use otlp_types::Record;
use span_ids::{Moment, Reason};
use std::alloc::AllocError;

/// A step of the core. Lanes, shards and senders are named by their numbers from 0, and moments are milliseconds.
#[derive(Drop)]
pub enum Step {
    /// The lane's connection of this ordinal receives the spans of a request.
    Receive {
        lane: u16,
        ordinal: u64,
        moment: Moment,
        records: Vec<Record>,
    },
    /// The lane's first unrouted span for the shard goes to the shard's queue.
    Route {
        lane: u16,
        shard: usize,
    },
    /// The same span finds the shard's queue full.
    Refuse {
        lane: u16,
        shard: usize,
    },
    /// The shard takes the first span of its queue. Memory was refused to the span, or to the put of an evicted
    /// decision.
    Take {
        shard: usize,
        refused: bool,
        lost: bool,
    },
    /// The shard takes a tick.
    Tick {
        shard: usize,
        moment: Moment,
    },
    /// The lane receives no more.
    Close {
        lane: u16,
    },
    /// The shard takes the sender's End. The senders are the lanes by their numbers, then the ticker.
    End {
        shard: usize,
        sender: u16,
    },
    /// The shard decides its oldest due episode, where the limiter gives these answers to the decision's askings, in
    /// the order in which the policies ask. Another number of answers isn't enabled.
    Decide {
        shard: usize,
        answers: Vec<bool>,
    },
    /// The shard's first unshipped span goes to the exporter.
    Ship {
        shard: usize,
    },
    /// The exporter's first span goes to the open batch.
    Pull,
    /// The open batch is handed over.
    Hand,
    /// The sink fails, and stays down.
    Fail,
    /// The open batch is given up.
    DropBatch {
        reason: Reason,
    },
}

/// Why a step was not made. The world is as before.
#[derive(Clone, Copy, Debug, PartialEq, Eq)]
pub enum StepRefusal {
    /// The step isn't enabled.
    NotEnabled,
    /// Memory was refused.
    NoMemory,
}

impl From<AllocError> for StepRefusal {
    ghost use Rattle.std.specs.Prelude.{◌≡◌};
    ghost use Rattle.span_world.specs.declared.step.StepRefusal.TheVariants.{NoMemory};

    ghost from_gives = { λ _ e. e ≡ NoMemory };

    fn from(_error: AllocError) -> StepRefusal {
        StepRefusal::NoMemory
    }
}
