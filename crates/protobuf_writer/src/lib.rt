//! Messages of Protocol Buffers, written: fields appended to bytes, one after another (the guide "Encoding").
//!
//! ```
//! let mut out = Vec::new(alloc);
//! write_varint(&mut out, 1, 150)?;
//! let at = begin_message(&mut out, 2)?;
//! write_bytes(&mut out, 1, b"testing")?;
//! end_message(&mut out, at)?;
//! ```
#![tactic(auto)]

mod defaults;
mod fields;
mod laws;
mod messages;
mod number;

pub use defaults::{
    write_fixed32_unless_zero, write_fixed64_unless_zero, write_text, write_varint_unless_zero,
};
pub use fields::{write_bytes, write_fixed32, write_fixed64, write_varint};
pub use laws::{fields_are_read, numbers_are_read};
pub use messages::{begin_message, end_message};
