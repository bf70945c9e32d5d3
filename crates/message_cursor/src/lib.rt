//! A message of Protocol Buffers, gone through once from the front, where it is asked for its fields in the order of their
//! numbers (the guide "Encoding").
//!
//! ```
//! let mut cursor = Cursor::of(message);
//! let name = cursor.bytes(5);
//! let kind = cursor.number(6);
//! ```
#![tactic(auto)]

mod cursor;
mod front;
mod number;
mod value;

pub use cursor::Cursor;
