//! What a shard tells those who look at it while it runs: of each decision, of traces that leave undecided and of late
//! spans just what its journal has of them; how much it holds by no contract.
ghost use Rattle.std.specs.Prelude.{◌≡◌, ◌⊎◌, ℕ, drop, map, IfSome};
ghost use Rattle.decision_line.specs.declared.decision.DecidedTrace.{DecidedTrace as DecidedTraceOf};
ghost use Rattle.journal_theory.specs.Journal.{Journal, due_now};
ghost use Rattle.shard_core.specs.Held.{StandsFor, settings};
ghost use Rattle.shard_core.specs.Telling.{next_told, said_by, told_decision};
ghost use Rattle.shard_core.specs.declared.answer.DueTrace.{DueTrace as DueTraceOf};
ghost use Rattle.shard_worker.specs.News.{AreTold, IsTold, answer_news, evicted_news, late_news, trace_of};

use decision_line::{EvictedTrace, LateSpans};
use lane_queue::{Brake, Receiver, Room};
use otlp_types::{Item, Span};
use shard_core::{
    Decided, Decision, DueTrace, Shard, Taken, told_answers, told_decision, told_evicted,
    verdict_of_late,
};
use span_ids::{Moment, TraceId, Verdict};
use std::sync::Wait;
use thread_watch::{MOST_ASKED, ShardLoad, Watcher};

/// The least time between two tellings of what a shard holds, in milliseconds.
const PAUSE: u64 = 500;

/// Whether a shard may take memory for spans.
pub fn has_memory(brake: Option<&Brake>) -> bool {
    match brake {
        Some(brake) => !brake.refuses_spans(),
        None => true,
    }
}

/// Tells of a span of which attributes were left out: its own, or of its events or links.
pub fn tell_item<W: Watcher>(watcher: &W, item: &Item) {
    if let Item::Span(arrival) = item {
        if is_incomplete(arrival.rec.span.get()) {
            watcher.takes_incomplete();
        }
    }
}

/// Whether attributes of a span, or of its events or links, were left out.
fn is_incomplete(span: &Span) -> bool {
    span.dropped_attributes_count > 0
        || span
            .events
            .as_slice()
            .iter()
            .any(|event| event.dropped_attributes_count > 0)
        || span
            .links
            .as_slice()
            .iter()
            .any(|link| link.dropped_attributes_count > 0)
}

/// Tells of a span that is handed over late.
pub fn tell_taken<W: Watcher>(watcher: &W, taken: &Taken) {
    if let Taken::Late(_) = taken {
        watcher.handed_late();
    }
}

/// The trace of an item, if it is a span.
pub fn trace_of(item: &Item) -> Option<TraceId>
    ensures { result ≡ trace_of item.now }
{
    let Item::Span(arrival) = item else {
        return None;
    };
    match arrival.rec.span.get().ids {
        Some(ids) => Some(ids.trace),
        None => None,
    }
}

/// Tells of a trace that left the full buffer undecided, at this moment of the clock of this shard, and of a span of this
/// trace that came late.
pub fn tell_fates<W: Watcher, R: Wait>(
    rt: &R,
    watcher: &W,
    shard: u16,
    trace: Option<TraceId>,
    taken: &Taken,
    moment: Moment,
)
    ensures { AreTold (IsTold W.unheard W.told_decided W.told_evicted W.told_late watcher.now shard) (answer_news trace moment taken.now) }
{
    let Some(trace) = trace else {
        return;
    };
    tell_evicted(rt, watcher, shard, told_evicted(taken, moment));
    tell_late(rt, watcher, shard, trace, moment, verdict_of_late(taken));
}

/// Tells of a trace that left the full buffer undecided, if one did and it is to be told.
fn tell_evicted<W: Watcher, R: Wait>(rt: &R, watcher: &W, shard: u16, evicted: Option<EvictedTrace>)
    ensures { AreTold (IsTold W.unheard W.told_decided W.told_evicted W.told_late watcher.now shard) (evicted_news evicted) }
{
    // Asked only here: so nobody is asked of the many items by which no trace leaves.
    let Some(evicted) = evicted else {
        return;
    };
    if watcher.hears_decisions(shard, evicted.moment) {
        watcher.trace_evicted(rt, &evicted);
    }
}

/// Tells of a span of this trace that came late, if it did, by the verdict that it met, and is to be told.
fn tell_late<W: Watcher, R: Wait>(
    rt: &R,
    watcher: &W,
    shard: u16,
    trace: TraceId,
    moment: Moment,
    verdict: Option<Verdict>,
)
    ensures { AreTold (IsTold W.unheard W.told_decided W.told_evicted W.told_late watcher.now shard) (late_news trace moment verdict) }
{
    let Some(verdict) = verdict else {
        return;
    };
    if watcher.hears_decisions(shard, moment) {
        let late = LateSpans {
            trace,
            moment,
            verdict,
            spans: 1,
        };
        watcher.spans_late(rt, &late);
    }
}

/// The trace that is decided next, if one is due and decisions are to be told.
pub fn next_told<W: Watcher>(watcher: &W, number: u16, shard: &mut Shard) -> Option<DueTrace>
    ensures same { shard.new ≡ shard.old }
    ensures told { W.unheard watcher.now number shard.old.standing.clock
        ⊎ ((past : Journal) (dealt : ℕ) → StandsFor shard.old past dealt → result ≡ next_told (settings shard.old) past (drop dealt (due_now (settings shard.old) past))) }
{
    if watcher.hears_decisions(number, shard.clock()) {
        shard.next_due()
    } else {
        None
    }
}

/// Tells of a decision, and of the policy that decided; and of the trace and what each policy said of it, where that is
/// to be told.
pub fn tell_decided<W: Watcher, R: Wait>(
    rt: &R,
    watcher: &W,
    decision: &Decision,
    due: Option<DueTrace>,
)
    ensures { IfSome due (λ (d : DueTraceOf). IfSome (told_decision decision.now.decided decision.now.decider d) (λ (t : DecidedTraceOf). W.told_decided watcher.now t (map said_by decision.now.answers.items))) }
{
    let is_sampled = match &decision.decided {
        Decided::Release(_) => true,
        Decided::Dropped(_) => false,
        Decided::Nothing => return,
    };
    watcher.decided(decision.decider, is_sampled);
    let Some(due) = due else {
        return;
    };
    if let Some(told) = told_decision(decision, due) {
        watcher.trace_decided(rt, &told, told_answers(&decision.answers).as_slice());
    }
}

/// When a tick tells that what the shard holds is to be told again, by the moment at which it was told last.
pub fn next_telling(item: &Item, told: Option<Moment>) -> Option<Moment> {
    let Item::Tick(moment) = item else {
        return None;
    };
    match told {
        Some(before) if *moment < before.saturating_add(PAUSE) => None,
        _ => Some(*moment),
    }
}

/// Tells what the shard of this number holds, and what of traces that somebody asks for, if it is to be told now, and
/// answers when it was told last.
pub fn tell_load<C: Room, W: Watcher, R: Wait>(
    rt: &R,
    watcher: &W,
    number: u16,
    shard: &Shard,
    receiver: &Receiver<Item, C>,
    told: Option<Moment>,
    telling: Option<Moment>,
) -> Option<Moment> {
    let Some(now) = telling else {
        return told;
    };
    // A walk over all traces that wait: for that there is a pause between two.
    let (traces, spans) = shard.waiting();
    let waited = match shard.oldest_waiting() {
        Some(opened) => now.saturating_sub(opened),
        None => 0,
    };
    watcher.holds(
        number,
        ShardLoad {
            now,
            queued: receiver.len(),
            traces,
            spans,
            waited,
        },
    );
    tell_traces(rt, watcher, number, shard);
    telling
}

/// Tells what the shard of this number holds of each trace that somebody asks for.
fn tell_traces<W: Watcher, R: Wait>(rt: &R, watcher: &W, number: u16, shard: &Shard) {
    if !watcher.asks_for_traces() {
        return;
    }
    for place in 0..MOST_ASKED {
        if let Some(trace) = watcher.asked_trace(rt, place) {
            watcher.trace_held(rt, number, trace, shard.held_of(trace));
        }
    }
}
