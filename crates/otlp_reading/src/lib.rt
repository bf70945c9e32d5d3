//! What the JSON encoding of OTLP 1.x says a text reads as, and reading with care: over the tree that `serde_json`
//! makes of it.
//!
//! The definition stands in `specs/`: `Kinds` (fields and their kinds), `Reading` (the messages), `Decoding` (the value
//! that bytes write, and the request). [`decode`] answers it in full; `otlp_json` puts a faster way before it.
#![tactic(auto)]

ghost use Rattle.std.specs.Prelude.{IfOk, IsErrOf};
ghost use Rattle.otlp_reading.specs.Decoding.{IsRequest, IsNoJson, IsNoRequest};

mod decode_error;
mod double;
mod kinds;
mod message;
mod request;
mod span;
mod value;

pub use decode_error::DecodeError;
pub use double::{double_of_number, double_of_text, kept_double};
pub use kinds::{first_byte, i64_text, u64_text};
use message::Message;
use otlp_types::Request;
use serde_json::Value;
pub use span::{dropped, parent_of};
use std::alloc::Global;
pub use value::ValueKey;

/// The request that the bytes write: JSON in UTF-8, nesting at most 127 deep, read as the JSON encoding of OTLP 1.x
/// says. Doubles are kept, or an attribute that holds one is discarded and counted.
///
/// `Json` where the bytes are no such text, `Shape` where some field of the value has another shape than its kind.
pub fn decode(alloc: Global, keeps_doubles: bool, bytes: &[u8]) -> Result<Request, DecodeError>
    ensures ok { IfOk result (IsRequest keeps_doubles bytes.now) }
    ensures json { IsErrOf result DecodeError.Json → IsNoJson bytes.now }
    ensures shape { IsErrOf result DecodeError.Shape → IsNoRequest keeps_doubles bytes.now }
{
    match Value::from_slice(alloc, bytes) {
        Ok(value) => Request::read(alloc, keeps_doubles, kinds::object(&value)?),
        Err(e) => if e.is_memory() {
            Err(DecodeError::NoMemory)
        } else {
            Err(DecodeError::Json)
        },
    }
}
