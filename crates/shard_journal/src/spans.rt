//! The spans of an episode, looked up in a journal.
ghost use Rattle.std.specs.Prelude.{◌≡◌, ◌++◌, ◌&&◌, nat_le, reverse, IfOk, OnOk};
ghost use Rattle.journal_theory.specs.Journal.{is_of_trace, item_spans, spans_since};

use crate::entry::Entry;
use crate::noted::Opening;
use otlp_types::{Arrival, Item, TryClone};
use span_ids::TraceId;
use std::alloc::{AllocError, Global};

/// The spans of the opening's trace, not refused, from the opening on, in order of arrival.
#[tactic(auto, using(crate::proofs::Newest::spans_more))]
pub fn spans_since(
    alloc: Global,
    journal: &[Entry],
    opening: &Opening,
) -> Result<Vec<Arrival>, AllocError>
    ensures { IfOk result (λ spans. spans.items ≡ spans_since (reverse journal.now) opening.now) }
{
    let mut spans = Vec::new(alloc);
    for at in 0..journal.len() {
        push_item_spans(alloc, opening, at, &journal[at], &mut spans)?;
    }
    Ok(spans)
}

fn push_item_spans(
    alloc: Global,
    opening: &Opening,
    at: usize,
    entry: &Entry,
    spans: &mut Vec<Arrival>,
) -> Result<(), AllocError>
    ensures { OnOk result (spans.new.items ≡ spans.old.items ++ item_spans opening.now at entry.now.refused entry.now.item) }
{
    match &entry.item {
        Item::Span(arrival) => {
            if is_span_of(opening, at, arrival) && !entry.refused {
                spans.push(arrival.try_clone(alloc)?)?;
            }
            Ok(())
        }
        Item::Tick(_) => Ok(()),
        Item::End(_) => Ok(()),
    }
}

/// Whether the span at this position is of the opening's trace, and not before the opening.
pub fn is_span_of(opening: &Opening, at: usize, arrival: &Arrival) -> bool
    ensures { result ≡ (nat_le opening.now.at at && is_of_trace opening.now.trace arrival.now) }
{
    opening.at() <= at && is_of_trace(opening.trace(), arrival)
}

fn is_of_trace(trace: TraceId, arrival: &Arrival) -> bool
    ensures { result ≡ is_of_trace trace arrival.now }
{
    match arrival.rec.span.get().ids {
        None => false,
        Some(ids) => trace == ids.trace,
    }
}
