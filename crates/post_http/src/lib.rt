//! One request with a body of JSON, and the reading of its answer, over any stream (RFC 9112).
//!
//! What is sent and what is read are those of the kit's `http1`: [`post`] writes a request and reads one answer,
//! [`found`] says what the bytes hold that came so far. `specs/Answers` has what an answer is, `specs/Requests` what a
//! request is, and `specs/Exchanges` what [`post`] does with a stream.
//!
//! ```
//! let head = head_of(alloc, b"/v1/traces", &fields, body.len())?;
//! match post(alloc, &mut reader, &mut writer, &patience, &head, body) {
//!     Posted::Answered(response) => judge(response.status, response.retry_after),
//!     Posted::Unsent | Posted::Unanswered => connect_again(),
//! }
//! ```
#![tactic(auto)]

mod answer;
mod endpoint;
mod law;
mod posting;
mod reading;
mod request;
mod wait;

pub use answer::{BackendResponse, FoundResponse, Posted};
pub use endpoint::{Endpoint, endpoint_of};
pub use law::answers_agree;
pub use posting::{ANSWER_LIMIT, Patience, post};
pub use reading::{FIELD_LIMIT, INTERIM_LIMIT, found};
pub use request::head_of;
