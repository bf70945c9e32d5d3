//! What is told of traces while a script is run.
ghost use Rattle.std.specs.Prelude.{◌≡◌, ◌⊎◌, ◌<◌, ℕ, true, false};
ghost use Rattle.rate_budget.specs.Budget.{AsksBudgets, has_node};
ghost use Rattle.journal_theory.specs.Journal.{Journal};
ghost use Rattle.journal_theory.specs.Fate.{effect, effect_dealt};
ghost use Rattle.shard_core.specs.Held.{StandsFor, has_due, is_finished, settings};
ghost use Rattle.shard_core.specs.Taking.{Decides, waiting};
ghost use Rattle.script_session.specs.Pulling.{has_nodes_of};

use decision_line::{DecidedTrace, EvictedTrace, Said};
use otlp_types::Arrival;
use rate_budget::Budgets;
use shard_core::{
    Decided, Decision, DueTrace, Shard, Taken, told_answers, told_decision, told_evicted,
};
use span_ids::Moment;

/// What is told of the traces of a script, shard by shard, in the order in which it happens. Nothing that a run does
/// rests on it.
pub trait Listener {
    /// Whether it hears at all: else nothing is made for it.
    fn hears(&self) -> bool {
        false
    }

    /// A trace was decided: the policies said this, in order, as far as they were asked, and these spans are handed over.
    fn decided(&mut self, _decision: &DecidedTrace, _said: &[Said], _released: &[Arrival]) {}

    /// A trace left the full buffer undecided.
    fn evicted(&mut self, _evicted: &EvictedTrace) {}

    /// A span is handed over late, at this moment of its shard's clock.
    fn kept_late(&mut self, _moment: Moment, _span: &Arrival) {}
}

/// What hears nothing.
#[derive(Clone, Copy, PartialEq, Eq)]
pub struct Unheard;

impl Listener for Unheard {}

/// Tells of a trace that left the full buffer undecided, and of a span that is handed over late.
pub fn tell_taken<L: Listener>(listener: &mut L, taken: &Taken, moment: Moment) {
    if !listener.hears() {
        return;
    }
    if let Taken::Late(span) = taken {
        listener.kept_late(moment, span);
    }
    if let Some(evicted) = told_evicted(taken, moment) {
        listener.evicted(&evicted);
    }
}

/// Decides the due trace that was opened first, as [`Shard::decide`] does, and tells of it.
pub fn decide_told<L: Listener>(
    shard: &mut Shard,
    limiter: &mut Budgets,
    listener: &mut L,
) -> Decided
    requires nodes { has_nodes_of limiter.old shard.old ≡ true }
    ensures decides { Decides AsksBudgets shard.old shard.new result limiter.old limiter.new }
    ensures unchanged { result ≡ Decided.Nothing → (shard.new ≡ shard.old) × (limiter.new ≡ limiter.old) }
    ensures keeps { (node : ℕ) → has_node limiter.new node ≡ has_node limiter.old node }
    ensures all_dealt { result ≡ Decided.Nothing → (past : Journal) (dealt : ℕ) → StandsFor shard.old past dealt → effect_dealt (settings shard.old) past dealt ≡ effect (settings shard.old) past }
    ensures nothing { result ≡ Decided.Nothing → has_due shard.new ≡ false }
    ensures fewer { (result ≡ Decided.Nothing) ⊎ (waiting shard.new < waiting shard.old) }
    ensures finished { is_finished shard.new ≡ is_finished shard.old }
    ensures ends { shard.new.standing.ends ≡ shard.old.standing.ends }
    ensures settings { settings shard.new ≡ settings shard.old }
{
    let due = next_told(shard, listener);
    let decision = shard.decide_with_answers(limiter);
    if let Some(due) = due {
        tell_decision(listener, &decision, due);
    }
    decision.decided
}

/// The trace that is decided next, if one is due and is to be told.
fn next_told<L: Listener>(shard: &mut Shard, listener: &L) -> Option<DueTrace>
    ensures { shard.new ≡ shard.old }
{
    if listener.hears() {
        shard.next_due()
    } else {
        None
    }
}

/// Tells of a decision.
fn tell_decision<L: Listener>(listener: &mut L, decision: &Decision, due: DueTrace) {
    let Some(told) = told_decision(decision, due) else {
        return;
    };
    let said = told_answers(&decision.answers);
    let released = match &decision.decided {
        Decided::Release(spans) => spans.as_slice(),
        _ => &[],
    };
    listener.decided(&told, said.as_slice(), released);
}
