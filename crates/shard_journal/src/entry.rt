//! An item of a journal, and what it does at once.
ghost use Rattle.std.specs.Coded.{codes};
ghost use Rattle.journal_theory.specs.Journal.{Entry as EntryData};
ghost use Rattle.journal_theory.specs.Fate.{DroppedSpan as DroppedSpanData, Effect as EffectData};
ghost use Rattle.otlp_types.specs.contracts.value.AnyValue as any_value;

use otlp_types::{Arrival, Item, List};
use span_ids::{ArrivalKey, Reason};
use std::marker::Model;

/// An item that a shard took, with its marks, and the limiter's answers to the decisions at it.
#[derive(Drop)]
pub struct Entry {
    pub item: Item,
    /// Memory was refused to the span itself.
    pub refused: bool,
    /// Memory was refused to the put of the decision that its opening evicted.
    pub lost: bool,
    /// For each decision at the item, in order, the answers to its askings, in the order in which the policies ask.
    pub answers: Vec<List<bool>>,
}

impl Model for Entry {
    ghost Value = { EntryData };

    ghost coded = { Prim.hlevel (codes, any_value.the_row.coded) };

    ghost view = { λ e. record { item = e.item; refused = e.refused; lost = e.lost; answers = e.answers.items } };
}

/// A span counted under a reason, by its key.
#[derive(Clone, Copy)]
pub struct DroppedSpan {
    pub reason: Reason,
    pub key: ArrivalKey,
}

impl Model for DroppedSpan {
    ghost Value = { DroppedSpanData };

    ghost view = { λ d. record { reason = d.reason; key = d.key } };

    ghost inverse = { λ d. record { reason = d.reason; key = d.key } };
}

/// What an item or a decision does at once.
#[derive(Drop)]
pub struct Effect {
    /// The spans that are released, in order.
    pub released: Vec<Arrival>,
    /// The spans that are counted.
    pub counted: Vec<DroppedSpan>,
}

impl Model for Effect {
    ghost Value = { EffectData };

    ghost coded = { Prim.hlevel (codes, any_value.the_row.coded) };

    ghost view = { λ e. record { released = e.released.items; counted = e.counted.items } };
}
