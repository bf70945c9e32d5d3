//! Requests to take traces, written as the protobuf encoding of OTLP 1.x has them (`ExportTraceServiceRequest`).
//!
//! ```
//! let bytes = encode(alloc, &request)?;
//! ```
#![tactic(auto)]

ghost use Rattle.std.specs.Prelude.{◌≡◌, true, None, IfOk, OnOk, IfErr};
ghost use Rattle.otlp_protobuf.specs.Values.{most_levels};
ghost use Rattle.otlp_protobuf.specs.Nesting.{RequestNests};
ghost use Rattle.otlp_protobuf.specs.Reading.{request_of};
ghost use Rattle.otlp_protobuf_encode.specs.Writing.{request_bytes};
ghost use Rattle.otlp_protobuf_encode.specs.Faults.{request_fault, Tells};
ghost use Rattle.otlp_protobuf_encode.specs.ReadsBack.{IdsAreRead};

mod encode_error;
mod kinds;
mod request;
mod span;
mod value;
mod writing;

pub use encode_error::EncodeError;
use otlp_types::Request;
use std::alloc::Global;
use writing::Written;

/// The room that the bytes take at first.
const ROOM: usize = 4096;

/// The canonical bytes of a request: the fields of each message in order of their numbers, none that has its default.
///
/// `NotBase64` and `NotHex` where a text stands for bytes and isn't theirs, the first in that order.
pub fn encode(alloc: Global, request: &Request) -> Result<Vec<u8>, EncodeError>
    ensures bytes { IfOk result (λ bytes. bytes.items ≡ request_bytes request.now) }
    ensures back { IfOk result (λ bytes. RequestNests most_levels request.now → IdsAreRead request.now
        → request_of true bytes.items ≡ Ok request.now) }
    ensures writable { OnOk result (request_fault request.now ≡ None) }
    ensures fault { IfErr result (Tells (request_fault request.now)) }
{
    let mut out = Vec::with_capacity(alloc, ROOM)?;
    request.write(alloc, &mut out)?;
    Ok(out)
}
