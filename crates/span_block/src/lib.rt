//! A span as one block of bytes: the canonical protobuf encoding of `Span` (OTLP 1.x, `trace.proto` v1).
//!
//! A contract sees a block as the span that it holds.
//!
//! ```
//! let block = SpanBlock::pack(alloc, &span)?;
//! assert!(block.status_code() == span.status.code);
//! let again = block.unpack(alloc)?;
//! ```
#![tactic(auto)]

mod attribute;
mod attributes;
mod block;
mod find;
mod kinds;
mod messages;
mod pack_error;
mod packed;
mod shown;
mod span;
mod unpack;
mod value;
mod walks;

pub use attribute::{Attribute, Scalar};
pub use attributes::Attributes;
pub use block::SpanBlock;
pub use find::{bytes_at, fixed32_at, fixed64_at, number_at};
pub use messages::next_message;
pub use pack_error::PackError;
