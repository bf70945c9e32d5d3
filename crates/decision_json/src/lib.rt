//! The texts of `GET /decisions.json` and `GET /trace/ID.json` at the address for those in charge: what became of the
//! traces of which the collector was told while somebody looked, and what its shards hold of one, as JSON (RFC 8259). The
//! page at `GET /` shows them.
//!
//! [`decisions_text`] and [`trace_text`] are the whole of it; their bytes are those of `specs/Value`.
//!
//! ```
//! let news = TraceNews::decided(trace, &said);
//! let text = decisions_text(alloc, now, 1000, &names, &[news])?;
//! let text = trace_text(alloc, &names, id, &[news], held)?;
//! ```
#![tactic(auto)]

mod held;
mod news;
mod putting;
mod text;
mod words;

pub use news::{MOST_SAID, TraceNews};
pub use text::{decisions_text, trace_text};
