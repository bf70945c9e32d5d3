//! What the threads of a run tell the board.
ghost use Rattle.std.specs.Prelude.{⊤};

use crate::board::Board;
use decision_line::{DecidedTrace, EvictedTrace, LateSpans, Said, TraceHeld};
use span_ids::{Moment, SpanId, TraceId};
use std::sync::Wait;
use std::sync::atomic::Ordering;
use thread_watch::{Barrier, ShardLoad, ThreadPlace, Watcher};

impl Barrier for Board {
    fn reach(&self, place: ThreadPlace) {
        if let (Some(gate), ThreadPlace::Taken { .. }) = (self.gate(), place) {
            gate.takes();
        }
    }
}

impl Watcher for Board {
    fn counted(&self, place: usize, spans: u64) {
        // The thread has it in its own report already, which is the one that is printed (D-195).
        self.cell(place).fetch_add(spans, Ordering::Relaxed);
    }

    fn takes_incomplete(&self) {
        self.incomplete.fetch_add(1, Ordering::Relaxed);
    }

    fn holds(&self, shard: u16, load: ShardLoad) {
        if let Some(cells) = self.shards.get(shard as usize) {
            cells.queued.store(load.queued, Ordering::Relaxed);
            cells.traces.store(load.traces, Ordering::Relaxed);
            cells.spans.store(load.spans, Ordering::Relaxed);
            cells.waited.store(load.waited, Ordering::Relaxed);
        }
        self.ledger.holds(shard, &load);
    }

    fn decided(&self, decider: Option<usize>, is_sampled: bool) {
        let place = match decider {
            Some(place) => place.saturating_add(1),
            None => 0,
        };
        let Some(cells) = self.policies.get(place) else {
            return;
        };
        if is_sampled {
            cells.sampled.fetch_add(1, Ordering::Relaxed);
        } else {
            cells.not_sampled.fetch_add(1, Ordering::Relaxed);
        }
    }

    ghost unheard = { λ _ _ _. ⊤ };

    ghost told_decided = { λ _ _ _. ⊤ };

    ghost told_evicted = { λ _ _. ⊤ };

    ghost told_late = { λ _ _. ⊤ };

    fn hears_decisions(&self, _shard: u16, _moment: Moment) -> bool {
        self.listeners.hears() || self.ledger.ledger().is_some()
    }

    fn trace_decided<R: Wait>(&self, rt: &R, trace: &DecidedTrace, said: &[Said]) {
        self.ledger.decided(rt, trace);
        if self.listeners.hears() {
            self.listeners.decided(rt, trace, said);
        }
    }

    fn trace_evicted<R: Wait>(&self, rt: &R, trace: &EvictedTrace) {
        self.ledger.evicted(rt, trace);
        if self.listeners.hears() {
            self.listeners.evicted(rt, trace);
        }
    }

    fn spans_late<R: Wait>(&self, rt: &R, late: &LateSpans) {
        self.ledger.late(rt, late);
        self.listeners.late(rt, late);
    }

    fn asks_for_traces(&self) -> bool {
        self.questions.is_asked()
    }

    fn asked_trace<R: Wait>(&self, rt: &R, place: usize) -> Option<TraceId> {
        self.questions.trace_at(rt, place)
    }

    fn trace_held<R: Wait>(&self, rt: &R, shard: u16, trace: TraceId, held: TraceHeld) {
        self.questions.answer(rt, shard, trace, held);
    }

    fn handed_late(&self) {
        self.late_sampled.fetch_add(1, Ordering::Relaxed);
    }

    fn pulled<R: Wait>(&self, rt: &R, trace: TraceId, span: SpanId) {
        self.ledger.pulled(rt, trace, span);
    }

    fn settled(&self, spans: u64) {
        self.ledger.settled(spans);
    }
}
