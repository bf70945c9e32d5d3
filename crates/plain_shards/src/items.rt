//! What a shard takes.
ghost use Rattle.std.specs.Prelude.{◌≡◌, IfOk, true};
ghost use Rattle.journal_theory.specs.Journal.{has_ids};

use otlp_types::{Ids, Item};
use plain_spans::{numbered_ids, plain_record, received};
use std::alloc::{AllocError, Global};

/// What a shard takes, in a row of a test: a span by the number of its trace (from 1 to 6), its own number, its moment
/// and its status code; a tick by its moment; the End of a sender.
#[derive(Clone, Copy)]
pub enum Event {
    Span(u8, u64, u64, i32),
    Tick(u64),
    End(u16),
}

/// A span of lane 0 with these ids, by its number, its moment, its status code and its end in nanoseconds.
pub fn span_item(
    alloc: Global,
    ids: Ids,
    number: u64,
    moment: u64,
    code: i32,
    end: u64,
) -> Result<Item, AllocError>
    ensures { IfOk result (λ item. has_ids item ≡ true) }
{
    let rec = plain_record(alloc, Some(ids), code, 0, end)?;
    Ok(Item::Span(received(0, number, moment, rec)))
}

/// The item of an event. `AllocError` where there is no trace of that number, too.
pub fn event_item(alloc: Global, event: Event) -> Result<Item, AllocError>
    ensures { IfOk result (λ item. has_ids item ≡ true) }
{
    match event {
        Event::Tick(moment) => Ok(Item::Tick(moment)),
        Event::End(sender) => Ok(Item::End(sender)),
        Event::Span(trace, number, moment, code) => {
            let ids = numbered_ids(trace, true).ok_or(AllocError)?;
            let _span = ids.span; // (so that the borrow checker knows of its type)
            span_item(alloc, ids, number, moment, code, 0)
        }
    }
}
