//! What threads count and hold, told while they run.
ghost use Rattle.std.specs.Prelude.{◌≡◌, ℕ, List, false, ⊤};
ghost use Rattle.decision_line.specs.declared.decision.DecidedTrace.{DecidedTrace as DecidedTraceOf};
ghost use Rattle.decision_line.specs.declared.decision.EvictedTrace.{EvictedTrace as EvictedTraceOf};
ghost use Rattle.decision_line.specs.declared.decision.LateSpans.{LateSpans as LateSpansOf};
ghost use Rattle.decision_line.specs.declared.decision.Said.{Said as SaidOf};

use crate::barrier::Barrier;
use decision_line::{DecidedTrace, EvictedTrace, LateSpans, Said, TraceHeld};
use span_ids::{Moment, SpanId, TraceId};
use std::sync::Wait;

/// At most so many traces are asked for at the same time.
pub const MOST_ASKED: usize = 8;

/// What a shard holds.
#[derive(Clone, Copy, PartialEq, Eq)]
pub struct ShardLoad {
    /// When it is told, in milliseconds: the tick that was taken last.
    pub now: u64,
    /// Items that wait in its queues.
    pub queued: u64,
    /// Traces that wait for their decision.
    pub traces: u64,
    /// Spans of these traces.
    pub spans: u64,
    /// For how long the oldest of these traces has waited, in milliseconds, or 0.
    pub waited: u64,
}

/// What is told of the numbers of all threads while they grow. It changes nothing of what they do.
pub trait Watcher {
    /// A thread has counted so many spans, in the count that has this place in a report.
    fn counted(&self, _place: usize, _spans: u64) {}

    /// A shard holds so much.
    fn holds(&self, _shard: u16, _load: ShardLoad) {}

    /// A shard takes a span of which attributes were left out, by its sender or as they hold a double.
    fn takes_incomplete(&self) {}

    /// A shard has decided a trace, as sampled or not, by the policy at this place, from 0 on, if one decided.
    fn decided(&self, _decider: Option<usize>, _is_sampled: bool) {}

    /// This shard was answered, at this moment of its clock, that what becomes of traces isn't to be told.
    ghost unheard: { Self → (shard moment : ℕ) → Type 0 };

    /// It was told that this trace was decided, and that the policies said this of it.
    ghost told_decided: { Self → DecidedTraceOf → List SaidOf → Type 0 };

    /// It was told that this trace left the full buffer undecided.
    ghost told_evicted: { Self → EvictedTraceOf → Type 0 };

    /// It was told of these late spans.
    ghost told_late: { Self → LateSpansOf → Type 0 };

    /// Whether each decided and each evicted trace, and late spans, are to be told: what this shard asks at this moment
    /// of its clock.
    fn hears_decisions(&self, shard: u16, moment: Moment) -> bool
        ensures { result ≡ false → unheard self.now shard moment };

    /// A shard has decided a trace, of which the policies said this, in order, as far as they were asked.
    fn trace_decided<R: Wait>(&self, rt: &R, decision: &DecidedTrace, said: &[Said])
        ensures { told_decided self.now decision.now said.now };

    /// A trace has left the full buffer undecided.
    fn trace_evicted<R: Wait>(&self, rt: &R, evicted: &EvictedTrace)
        ensures { told_evicted self.now evicted.now };

    /// A shard has taken late spans.
    fn spans_late<R: Wait>(&self, rt: &R, late: &LateSpans)
        ensures { told_late self.now late.now };

    /// Whether somebody asks what shards hold of a trace.
    fn asks_for_traces(&self) -> bool {
        false
    }

    /// The trace that is asked for at this place, below `MOST_ASKED`, if one is.
    fn asked_trace<R: Wait>(&self, _rt: &R, _place: usize) -> Option<TraceId> {
        None
    }

    /// A shard holds this of a trace that is asked for.
    fn trace_held<R: Wait>(&self, _rt: &R, _shard: u16, _trace: TraceId, _held: TraceHeld) {}

    /// A shard hands over a span whose trace was decided before.
    fn handed_late(&self) {}

    /// The exporter has taken this span of those that shards released.
    fn pulled<R: Wait>(&self, _rt: &R, _trace: TraceId, _span: SpanId) {}

    /// So many spans that the exporter had taken, the oldest of them, were handed over, or given up and counted.
    fn settled(&self, _spans: u64) {}
}

/// What holds no thread, and is told nothing.
#[derive(Clone, Copy, PartialEq, Eq)]
pub struct Unwatched;

impl Barrier for Unwatched {}

impl Watcher for Unwatched {
    ghost unheard = { λ _ _ _. ⊤ };

    ghost told_decided = { λ _ _ _. ⊤ };

    ghost told_evicted = { λ _ _. ⊤ };

    ghost told_late = { λ _ _. ⊤ };

    fn hears_decisions(&self, _shard: u16, _moment: Moment) -> bool {
        false
    }

    fn trace_decided<R: Wait>(&self, _rt: &R, _decision: &DecidedTrace, _said: &[Said]) {}

    fn trace_evicted<R: Wait>(&self, _rt: &R, _evicted: &EvictedTrace) {}

    fn spans_late<R: Wait>(&self, _rt: &R, _late: &LateSpans) {}
}
