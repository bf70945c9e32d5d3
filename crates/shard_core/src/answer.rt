//! What a shard answers.
ghost use Rattle.std.specs.Prelude.{◌≡◌};
ghost use Rattle.shard_core.specs.Taking.{answer_to_late};

use arrayvec::ArrayVec;
use decision_cache::Remembered;
use decision_line::DueCause;
use otlp_types::Arrival;
use policy_eval::{Answer, MOST_POLICIES};
use span_ids::{Moment, Reason, TraceId, Verdict};
use trace_buffer::Evicted;

/// What a shard did with an item.
#[derive(Drop)]
pub enum Taken {
    /// The span waits for its trace's decision.
    Kept {
        /// The episode that left a full buffer when this span opened one. Where it was undecided, its spans are counted
        /// under `Evicted`.
        evicted: Option<Evicted>,
        /// What became of the verdict of the episode that left, if it was decided.
        cache: Option<Remembered>,
    },
    /// The span is late, and its trace was decided as sampled: it goes on at once.
    Late(Arrival),
    /// The span is counted under this reason: `LateNotSampled` where its trace was decided as not sampled,
    /// `NoMemory` where memory was refused to keep it.
    Dropped(Reason),
    /// The tick moved the clock; traces may be due.
    Ticked,
    /// A sender ended, or had ended before.
    Ended,
    /// The last sender ended: every trace is due, and the shard takes no more.
    Finished,
}

/// What a shard did with the trace that was due.
#[derive(Drop)]
pub enum Decided {
    /// It is sampled: its spans, in order of arrival.
    Release(Vec<Arrival>),
    /// It is not sampled: the number of its spans, which are counted under `NotSampled`.
    Dropped(u64),
    /// No trace is due.
    Nothing,
}

/// What a shard did with the trace that was due, and what the policies said of it.
#[derive(Drop)]
pub struct Decision {
    pub decided: Decided,
    /// The place of the policy that decided, from 0 on, if one did.
    pub decider: Option<usize>,
    /// What each policy answered, in order: nothing where none was asked.
    pub answers: ArrayVec<Answer, MOST_POLICIES>,
}

/// A trace that is due.
#[derive(Clone, Copy, PartialEq, Eq)]
pub struct DueTrace {
    pub trace: TraceId,
    /// When its first span came, in milliseconds: the shard's clock then.
    pub opened: Moment,
    /// The shard's clock now, in milliseconds.
    pub moment: Moment,
    /// How many spans it has.
    pub spans: u64,
    pub cause: DueCause,
}

/// What is answered to a late span, by the verdict of its trace.
pub(crate) fn late(arrival: Arrival, verdict: Verdict) -> Taken
    ensures { result ≡ answer_to_late arrival verdict }
{
    match verdict {
        Verdict::Sampled => Taken::Late(arrival),
        Verdict::NotSampled => Taken::Dropped(Reason::LateNotSampled),
    }
}
