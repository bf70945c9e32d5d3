//! Lines of what waits, on their way to a writer: entries are taken one after the other, a line is made of each, and the
//! lines are written as they were made.
//!
//! What is proved of it: what a writer took, and then what is left, are the bytes that were left before and then the lines
//! of the entries that were taken, in this order, but for those that are counted as lost ([`write_turn`], and over many
//! turns [`turns_write_all`]). So a write that took a part of a line tears none: the rest is left, and stands first.
//!
//! ```
//! let mut lines = LinesToWrite::new(alloc);
//! let turn = write_turn(&rt, &mut lines, &mut source, &maker, &mut output);
//! ```
#![tactic(auto)]

mod entry_source;
mod filling;
mod law;
mod line_maker;
mod lines_to_write;
mod rest;
mod turn;

pub use entry_source::EntrySource;
pub use filling::{Filled, fill};
pub use law::turns_write_all;
pub use line_maker::LineMaker;
pub use lines_to_write::LinesToWrite;
pub use rest::take_rest;
pub use turn::{Turn, write_turn};
