//! The line of JSON (RFC 8259) that is written for each decided trace, for each evicted trace, and for late spans.
//!
//! [`put_decided`], [`put_evicted`] and [`put_late`] append it; its bytes are those of `specs/Line`.
//!
//! ```
//! put_decided(&mut line, &names, &said, &DecidedTrace { trace, moment, opened, spans, verdict, cause, decider })?;
//! put_evicted(&mut line, &EvictedTrace { trace, moment, spans })?;
//! put_late(&mut line, &LateSpans { trace, moment, verdict, spans })?;
//! ```
#![tactic(auto)]

mod decision;
mod held;
mod line;
mod members;
mod putting;

pub use decision::{DecidedTrace, DueCause, EvictedTrace, LateSpans, Said};
pub use held::TraceHeld;
pub use line::{put_decided, put_evicted, put_late};
