//! The parts of an HTTP/1.1 request (RFC 9112): where a head, a chunk line and a trailer end, and what they say.
//!
//! `httparse` reads each of them; what is asked of a request beyond its grammar, and in which order, stands in
//! `specs/Head` and `specs/Fields`. Nothing here reads or writes: `http_lane` does.
//!
//! ```
//! let allowed = Allowed { gzip: true, protobuf: false, close: false, body_limit: 4_194_304 };
//! match cut_on(stream, search) {
//!     Cutting::Whole(length) => match judge(&stream[..length], allowed) {
//!         HeadVerdict::Post(post) => read_body(post.framing),
//!         HeadVerdict::Close => close(),
//!         HeadVerdict::Refused { refusal, is_head } => refuse(refusal, is_head),
//!     },
//!     Cutting::Waits(search) => read_on(search),
//!     Cutting::TooLong => refuse(RequestRefusal::HeadTooLarge, false),
//! }
//! ```
#![tactic(auto)]

mod allowed;
mod body;
mod fields;
mod head;
mod host;
mod lines;
mod request;
mod search;

pub use allowed::Allowed;
pub use body::{is_trailer, read_size};
pub use fields::is_foreign;
pub use head::{judge, read_head};
pub use lines::PART_LIMIT;
pub use request::{FIELD_LIMIT, Framing, HeadVerdict, Post, RequestRefusal};
pub use search::{Cutting, PartSearch, SearchPlace, cut_on};
