//! One request at the address for those in charge of a collector, over any reader and writer (RFC 9112).
//!
//! [`serve`] is the whole of it: it reads a head, answers it once, and ends. What a head asks for stands in
//! `specs/Asked`, the bytes of each answer in `specs/Texts`, and what a connection does in `specs/Serving`.
//!
//! ```
//! match serve(alloc, Access::Full, &mut reader, &mut writer, &mut admin) {
//!     AdminEnd::Heard(asked, portion) => note(asked, portion),
//!     AdminEnd::Unheard(silence) => note_silence(silence),
//! }
//! ```
#![tactic(auto)]

mod admin;
mod asked;
mod ends;
mod head;
mod law;
mod serving;
mod texts;

pub use admin::Admin;
pub use asked::{Access, AdminRequest, Method, Route};
pub use ends::{AdminEnd, PIECE_LIMIT, Portion, QUIET_LIMIT, READ_LIMIT, Silence};
pub use head::heard;
pub use law::{head_is_get_without_body, heard_in_any_pieces};
pub use serving::serve;
pub use texts::{Told, answer};
