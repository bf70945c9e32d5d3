//! Notes of what has ended, and of what was received again.
ghost use Rattle.std.specs.Prelude.{◌≡◌, ◌++◌, ◌≤◌, length, Some, OnOk, OnErr, vec_len, vec_capacity};
ghost use Rattle.request_ledger.specs.Format.{Fits, record_of, IsRefused};
ghost use Rattle.request_ledger.specs.Entries.{note_bytes, note_in, told_trace, told_counted, told_handed, told_again, IsNote};
ghost use Rattle.request_ledger.specs.declared.notes.LedgerNote.{LedgerNote as NoteOf};

use crate::numbers::{number_at, short_number_at};
use crate::writing::put_fields;
use span_ids::{Moment, SpanId, TraceId};
use std::alloc::AllocError;

/// A note.
#[derive(Clone, Copy, PartialEq, Eq)]
pub enum LedgerNote {
    /// So many spans of the trace, of those that came up to this moment, were counted as dropped.
    Counted {
        trace: TraceId,
        moment: Moment,
        spans: u64,
    },
    /// A span was handed over, or given up and counted.
    Handed {
        trace: TraceId,
        span: SpanId,
    },
    /// The request at this place, in bytes, of a lane's file of a segment was received again.
    Again {
        segment: u64,
        lane: u16,
        place: u64,
    },
}

/// Appends the record of a note.
pub fn put_note(out: &mut Vec<u8>, note: &LedgerNote) -> Result<(), AllocError>
    ensures ok { OnOk result (out.new.items ≡ out.old.items ++ record_of (note_bytes note.now)) }
    ensures fits { OnOk result (Fits (note_bytes note.now)) }
    // nothing has changed, and it had to be so
    ensures err { OnErr result (out.new.items ≡ out.old.items) }
    ensures refused { OnErr result (IsRefused (vec_capacity out.old) (vec_len out.old) (note_bytes note.now)) }
{
    match note {
        LedgerNote::Counted {
            trace,
            moment,
            spans,
        } => {
            let spans = spans.to_le_bytes();
            put_fields(out, 3, &trace.bytes(), &moment.to_le_bytes(), &spans, &[])
        }
        LedgerNote::Handed { trace, span } => {
            put_fields(out, 4, &trace.bytes(), &span.bytes(), &[], &[])
        }
        LedgerNote::Again {
            segment,
            lane,
            place,
        } => {
            let place = place.to_le_bytes();
            put_fields(
                out,
                5,
                &segment.to_le_bytes(),
                &lane.to_le_bytes(),
                &place,
                &[],
            )
        }
    }
}

/// The note that a payload is. A payload that `put_note` wrote is just that note.
pub fn note_in(payload: &[u8]) -> Option<LedgerNote>
    ensures exact { result ≡ note_in payload.now }
    ensures back { (n : NoteOf) → IsNote n → payload.now ≡ note_bytes n → result ≡ Some n }
{
    match (payload.len(), payload.first()) {
        (33, Some(3)) => told_counted(payload),
        (25, Some(4)) => told_handed(payload),
        (19, Some(5)) => Some(told_again(payload)),
        _ => None,
    }
}

fn told_counted(payload: &[u8]) -> Option<LedgerNote>
    requires { length payload.now ≡ 33 }
    ensures { result ≡ told_counted payload.now }
{
    let trace = told_trace(payload)?;
    let moment = number_at(payload, 17);
    let spans = number_at(payload, 25);
    Some(LedgerNote::Counted {
        trace,
        moment,
        spans,
    })
}

fn told_handed(payload: &[u8]) -> Option<LedgerNote>
    requires { length payload.now ≡ 25 }
    ensures { result ≡ told_handed payload.now }
{
    let trace = told_trace(payload)?;
    let span = SpanId::from_bytes(&payload[17..])?;
    Some(LedgerNote::Handed { trace, span })
}

fn told_again(payload: &[u8]) -> LedgerNote
    requires { length payload.now ≡ 19 }
    ensures { result ≡ told_again payload.now }
{
    LedgerNote::Again {
        segment: number_at(payload, 1),
        lane: short_number_at(payload, 9),
        place: number_at(payload, 11),
    }
}

fn told_trace(payload: &[u8]) -> Option<TraceId>
    requires { 17 ≤ length payload.now }
    ensures { result ≡ told_trace payload.now }
{
    TraceId::from_bytes(&payload[1..17])
}
