//! The bytes of each answer on a connection: status line, fields and body (RFC 9112), in either encoding of OTLP 1.x.
//!
//! ```
//! let text = text_of(alloc, Encoding::Protobuf, &Response::Replied { reply, closes: false })?;
//! ```
#![tactic(auto)]

mod response;
mod texts;

pub use response::Response;
pub use texts::{status_of, stopping_text, text_of};
