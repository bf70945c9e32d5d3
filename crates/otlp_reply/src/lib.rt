//! What requests are answered in either encoding: statuses, and bodies (OTLP 1.x, "OTLP/HTTP Response").
//!
//! ```
//! let status = status(&reply);
//! let body = reply_body(alloc, Encoding::Protobuf, &reply)?;
//! let refused = message_body(alloc, Encoding::Json, 404, "not found")?;
//! ```
#![tactic(auto)]

mod bodies;
mod putting;

pub use bodies::{message_body, reply_body};
pub use putting::{MAX_BODY_LEN, put, put_json_body, status};
