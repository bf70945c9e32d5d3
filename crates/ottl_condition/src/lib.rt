//! What conditions on one span, or on one event of a span, mean (the Collector contrib's `pkg/ottl`, README, "Comparison Rules"; `LANGUAGE.md`): each
//! is true of it, or false, or an error by name.
//!
//! What is said of them is read in this order: `specs/Subjects` (what a condition is asked of), `Values`, `Paths`
//! (what a span and an event have), `Comparing`, `Arithmetic`, `Conversions`, `Functions`, `Made`, `Meaning`, `Workrooms`, `Laws`.
//!
//! ```
//! let condition = ottl_text::parse(alloc, Context::Span, b"attributes[\"http.status_code\"] >= 500")?;
//! let mut workroom = ottl_condition::workroom_for(alloc, &condition)?;
//! let holds = ottl_condition::evaluate(&condition, Subject::Span(&record), &mut workroom)?;
//! ```
#![tactic(auto)]

mod arithmetic;
mod comparing;
mod conversions;
mod eval_error;
mod evaluating;
mod functions;
mod laws;
mod literal_comparing;
mod making;
mod paths;
mod searching;
mod subject;
mod value;
mod workroom;

pub use eval_error::EvalError;
pub use evaluating::evaluate;
pub use laws::{connectives_are_of_their_parts, not_goes_inside};
pub use searching::put_patterns;
pub use subject::Subject;
pub use workroom::{Workroom, workroom_for};
