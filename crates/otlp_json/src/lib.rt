//! Requests to take traces, read from JSON and written as JSON (OTLP 1.x, JSON encoding).
//!
//! What is proved: [`decode`] answers a request only where the bytes' JSON value reads as that request, field by
//! field, and refuses them only where there is no such value or no such request; [`encode`] writes the canonical
//! text, which reads as the request again. No contract says that they succeed where there is memory enough: the tests
//! call both so.
//!
//! ```
//! let request = decode(alloc, true, br#"{"resourceSpans":[]}"#)?;
//! let text = encode(alloc, &request)?;
//! assert!(text.as_slice() == b"{}");
//! ```
#![tactic(auto)]

ghost use Rattle.std.specs.Prelude.{◌≡◌, ◌≤◌, true, false, IfOk, IsErrOf, Some};
ghost use Rattle.serde_json.specs.Data.{depth};
ghost use Rattle.otlp_reading.specs.Reading.{request_of};
ghost use Rattle.otlp_reading.specs.Decoding.{IsJson, IsRequest, IsNoJson, IsNoRequest};
ghost use Rattle.otlp_json.specs.Writing.{data_of, canonical_text};
ghost use Rattle.otlp_json.specs.Discarding.{without_doubles, HasNoDoubles};

mod laws;
mod request;
mod span;
mod writing;

use json::Writer;
pub use laws::{doubles_are_left_out, levels_suffice};
pub use otlp_reading::DecodeError;
use otlp_stream::plain_request;
use otlp_types::Request;
use std::alloc::{AllocError, Global};
use writing::Written;
pub use writing::{double_name, is_set};

/// The room that a text takes at first, in bytes.
const ROOM: usize = 4096;

/// The request that the bytes write: JSON in UTF-8, nesting at most 127 deep, read as the JSON encoding of OTLP 1.x
/// says. Doubles are kept, or an attribute that holds one is discarded and counted.
///
/// `Json` where the bytes are no such text, `Shape` where some field of the value has another shape than its kind.
pub fn decode(alloc: Global, keeps_doubles: bool, bytes: &[u8]) -> Result<Request, DecodeError>
    ensures ok { IfOk result (IsRequest keeps_doubles bytes.now) }
    ensures json { IsErrOf result DecodeError.Json → IsNoJson bytes.now }
    ensures shape { IsErrOf result DecodeError.Shape → IsNoRequest keeps_doubles bytes.now }
{
    match plain_request(alloc, keeps_doubles, bytes)? {
        Some(request) => Ok(request),
        None => otlp_reading::decode(alloc, keeps_doubles, bytes),
    }
}

/// The canonical text of a request: no white space, the names of each object in order, and no field that has its
/// default. `Err` only where memory was refused.
///
/// A request that nests at most 127 deep as JSON is read again from its text where doubles are kept. Where they are
/// discarded it is read without the attributes that hold one: one without doubles is read again there, too.
pub fn encode(alloc: Global, request: &Request) -> Result<Vec<u8>, AllocError>
    ensures text { IfOk result (λ bytes. bytes.items ≡ canonical_text request.now) }
    ensures back { IfOk result (λ bytes. depth (data_of request.now) ≤ 127
        → IsJson bytes.items (data_of request.now)
        × (request_of true (data_of request.now) ≡ Some request.now)) }
    ensures without { IfOk result (λ bytes. depth (data_of request.now) ≤ 127
        → request_of false (data_of request.now) ≡ Some (without_doubles request.now)) }
    ensures back_discarding { IfOk result (λ bytes. depth (data_of request.now) ≤ 127 → HasNoDoubles request.now
        → request_of false (data_of request.now) ≡ Some request.now) }
{
    let mut out = Writer::new(Vec::with_capacity(alloc, ROOM)?);
    request.write(alloc, &mut out)?;
    Ok(out.into_inner())
}
