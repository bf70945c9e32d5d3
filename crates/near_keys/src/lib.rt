//! What is told of a key that a table of a configuration doesn't have: which key it has that is nearly the same, or what
//! becomes here of a key of the Collector.
//!
//! ```
//! let hint = hint_of(TableKind::Config, "decision_wait");
//! // Hint::Key("decision_wait_ms")
//! ```
#![tactic(auto)]

mod hints;
mod near_names;

pub use hints::{Hint, hint_of};
