//! The text of `GET /status.json` at the address for those in charge: what became of the spans so far, what waits
//! for the backend, and what had become of the spans at moments before, as JSON (RFC 8259). The page at `GET /` draws it.
//!
//! [`status_text`] is the whole of it; its bytes are those of `specs/Text`. [`is_row_due`] says when a row is added to
//! the history that it tells.
//!
//! ```
//! if is_row_due(last, now) {
//!     rows.push(HistoryRow { at: now, report })?;
//! }
//! let text = status_text(alloc, &Status { now, report, waiting, backlog }, &rows)?;
//! ```
#![tactic(auto)]

mod due;
mod numbers;
mod text;

pub use due::{HISTORY_PACE, HISTORY_ROWS, is_row_due};
pub use numbers::{Backlog, HistoryRow, Status};
pub use text::status_text;
