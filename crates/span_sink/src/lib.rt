//! Where the program's lines go: a [`Destination`], which takes a line whole, refuses it, or is down for good. One is
//! [`LineSink`], over a sink of bytes, which writes nothing more once a write has failed.
//!
//! What is proved of it: the bytes that the sink took are the lines whose `hand` answered `Ok`, joined, and then at most
//! a part of one line ([`takes_handed_lines`]); `hand` answers `Failed` only where one write failed in that call, and
//! `Down` from then on. What no contract can say of a writer, and `parts_tests` shows: how often an interrupted write is
//! tried again, and that another error isn't.
//!
//! ```
//! let mut lines = LineSink::new(WriteSink::new(writer));
//! if lines.hand(line).is_err() {
//!     // No later line is written.
//! }
//! let writer = lines.end().end();
//! ```
#![tactic(auto)]

mod destination;
mod law;
mod line_sink;
mod sink;
mod write_sink;

pub use destination::Destination;
pub use law::takes_handed_lines;
pub use line_sink::{LineSink, write_whole};
pub use sink::{Sink, SinkFault};
pub use write_sink::WriteSink;
