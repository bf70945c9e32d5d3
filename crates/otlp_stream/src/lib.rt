//! Requests to take traces, read from JSON in one pass, with no tree between (OTLP 1.x, JSON encoding).
//!
//! [`plain_request`] takes what clients send. It declines all that is odd (a fault, a key of a value that comes twice,
//! a null item, a number that `serde_json` would refuse), and then a caller reads with care: so its one promise is that
//! what it answers is the request. A body that declines more meets every contract here (`rt plant` finds such bodies
//! and no others): reading is then slower, and no answer changes. How much is declined `tests/readings/compare.sh`
//! prints.
//!
//! ```
//! match plain_request(alloc, false, body)? {
//!     Some(request) => request,
//!     None => otlp_reading::decode(alloc, false, body)?,
//! }
//! ```
#![tactic(auto)]

mod attributes;
mod requests;
mod spans;
mod stream;
mod take;
mod values;

pub use requests::plain_request;
