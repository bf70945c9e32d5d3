//! The spans of a run in one list, each with the place where it is. What moves goes to the end of the list, so that the
//! spans of each place stand in the order in which they came there.
use otlp_types::Arrival;
use shard_journal::DroppedSpan;
use span_ids::{ArrivalKey, Reason};

/// Where a span is: not received, or of a lane for a shard, in a shard's queue, in its trace's episode, released by a
/// shard, with the exporter, in the open batch, in a batch of this number that was handed over, or counted.
#[derive(Clone, Copy, PartialEq, Eq)]
pub enum Place {
    Nowhere,
    Unrouted(u16, usize),
    Queued(usize),
    Waiting(u8),
    Unshipped(usize),
    Exported,
    Batched,
    Handed(usize),
    Counted(Reason),
}

/// A span. Its trace is the last byte of the trace's id, and 0 where its ids are invalid.
#[derive(Clone, Copy)]
pub struct Kept {
    pub key: ArrivalKey,
    pub moment: u64,
    pub trace: u8,
    pub error: bool,
    pub root: bool,
    pub place: Place,
}

/// Moves the first span of a place. False where there is none.
pub fn move_first(spans: &mut [Kept], from: Place, to: Place) -> bool {
    match spans.iter().position(|span| span.place == from) {
        Some(index) if index < spans.len() => {
            spans[index].place = to;
            spans[index..].rotate_left(1);
            true
        }
        _ => false,
    }
}

/// Moves each span of a place. False where there is none.
pub fn move_all(spans: &mut [Kept], from: Place, to: Place) -> bool {
    let is_moved = move_first(spans, from, to);
    for _ in 0..spans.len() {
        if !move_first(spans, from, to) {
            return is_moved;
        }
    }
    is_moved
}

/// How many spans are at a place.
pub fn count(spans: &[Kept], place: Place) -> usize {
    spans.iter().filter(|span| span.place == place).count()
}

/// Whether a span is like one that was received.
fn is_like(kept: &Kept, span: &Arrival) -> bool {
    kept.key == span.key
        && kept.moment == span.moment
        && kept.error == (span.rec.span.get().status.code == 2)
}

/// Whether these are the spans of a place, in order.
pub fn are_at(spans: &[Kept], place: Place, wanted: &[Arrival]) -> bool {
    let mut rest = wanted;
    for span in spans {
        if span.place == place {
            match rest.split_first() {
                Some((next, others)) if is_like(span, next) => rest = others,
                _ => return false,
            }
        }
    }
    rest.is_empty()
}

/// Whether these are the spans that were counted, in order, and under their reasons.
pub fn are_counted(spans: &[Kept], wanted: &[DroppedSpan]) -> bool {
    let mut rest = wanted.iter();
    for span in spans {
        if let Place::Counted(reason) = span.place {
            if !rest
                .next()
                .is_some_and(|next| next.key == span.key && next.reason == reason)
            {
                return false;
            }
        }
    }
    rest.next().is_none()
}
