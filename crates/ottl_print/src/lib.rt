//! The text of a condition's tree.
#![tactic(auto)]

mod laws;
mod names;
mod sizes;
mod texts;
mod tree_text;

pub use laws::{is_not_deep, prints_as_itself};
pub use tree_text::print;
