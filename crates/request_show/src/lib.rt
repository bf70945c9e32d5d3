//! What `tsc show` prints of a request in protobuf: its canonical JSON line, or why it is none and where in the body
//! that was met.
//!
//! ```
//! let Shown::Line(line) = show(alloc, b"\x0a\x05\x1a\x03a/b")? else { return };
//! assert!(line.as_slice() == b"{\"resourceSpans\":[{\"schemaUrl\":\"a/b\"}]}\n");
//! ```
#![tactic(auto)]

mod body;
mod front;
mod messages;
mod showing;
mod walk;

pub use body::{BodyFault, MAX_BODY_LEN, read_body};
pub use messages::MessageKind;
pub use showing::{Shown, show};
pub use walk::{Met, first_fault};
