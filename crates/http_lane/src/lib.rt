//! One connection of a lane: requests are read by RFC 9112 and answered in order, over any reader and writer.
//!
//! An [`Exchange`] is a connection among many, which has its turns: so the program serves. [`serve`] takes one by
//! itself to its end: so tests do. The bytes that are written, the bodies that go to the lane, the counts and the end
//! are those of a transcript (`specs/Connection`, `specs/Turns`), in whatever pieces the bytes came.
//!
//! ```
//! let lent = Lent { alloc, stop: &mark, clock: &clock, answers: &answers };
//! let mut reader = Reads { reader: stream, allowed };
//! let end = serve(&lent, &mut lane, &mut report, &mut reader, &mut writer);
//! ```
#![tactic(auto)]

mod answer;
mod answers;
mod engine;
mod input;
mod laws;
mod lent;
mod parts;
mod reads;
mod requests;
mod serving;
mod stage;
mod told;
mod turns;

pub use answer::{QUIET_LIMIT, READ_LIMIT, REQUEST_LIMIT, ReadTurn, SLOW_LIMIT, ServeEnd};
pub use answers::Answers;
pub use laws::{
    doors_do_not_matter, in_any_pieces, pieces_do_not_matter, replies_are_determined,
    turns_do_not_matter, turns_in_any_pieces, whole_connections,
};
pub use lent::{Clock, HasStopMark, Lent};
pub use reads::{PIECE_LIMIT, Reads, Source};
pub use requests::Requests;
pub use serving::serve;
pub use told::RequestsTold;
pub use turns::{Arrived, Exchange, IDLE_LIMIT};
