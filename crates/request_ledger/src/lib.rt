//! The ledger of requests as plain values: the bytes of its records, what a payload says, which spans of a trace are
//! pending, when a segment may go, and whether there is room for more.
//!
//! ```
//! put_request(&mut out, moment, connection, Encoding::Protobuf, body)?;
//! put_note(&mut out, &LedgerNote::Handed { trace, span })?;
//! let payload = record_at(&out, 0).unwrap();
//! let request = request_in(payload).unwrap();
//! let ended = ended_of(alloc, &spans, &ends)?;
//! ```
#![tactic(auto)]

mod entries;
mod laws;
mod notes;
mod numbers;
mod pending;
mod records;
mod removal;
mod sums;
mod writing;

pub use entries::{RequestEntry, put_request, request_in};
pub use laws::{
    counted_is_over, ended_stay_ended, ends_all_or_none, handed_is_over, nothing_ends_twice,
    over_is_told, pending_comes_again, records_read_back, turned_byte_is_found,
};
pub use notes::{LedgerNote, note_in, put_note};
pub use pending::{LedgerEnd, LedgerSpan, ended_of, is_over};
pub use records::{HEAD_LEN, put_record, record_at};
pub use removal::{ShardStanding, ends_at, has_room, is_settled, may_go};
