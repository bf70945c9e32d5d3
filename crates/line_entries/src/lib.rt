//! What gets a line in a file that a collector writes beside its output, and that line: what came in the record, and what
//! became of traces among the decisions. A thread takes entries and writes their lines (`line_writing`).
//!
//! ```
//! let lines = RecordLines::new(alloc);
//! let turn = write_turn(&rt, &mut waiting, &mut source, &lines, &mut output);
//! ```
#![tactic(auto)]

mod came;
mod decision_lines;
mod line_news;
mod record_lines;

pub use came::{Came, TakenRequest};
pub use decision_lines::DecisionLines;
pub use line_news::LineNews;
pub use record_lines::RecordLines;
