//! Bodies of OTLP/HTTP requests in either encoding: the request that a body is, or the cause for which it is none.
//!
//! Nothing above this crate names what a body is written in: `specs/Reads` has it.
//!
//! ```
//! match decode(alloc, Encoding::Json, true, body) {
//!     Ok(request) => take(request),
//!     Err(DecodeError::Bad(cause)) => refuse(cause),
//!     Err(DecodeError::NoMemory) => refuse_for_now(),
//! }
//! ```
#![tactic(auto)]

ghost use Rattle.otlp_request.specs.Gives.{Gives};

mod bad_data;
mod laws;

pub use bad_data::{BadData, DecodeError};
pub use laws::{has_one_cause, is_one_request, is_request_or_none};
use otlp_encoding::Encoding;
use otlp_types::Request;
use std::alloc::Global;

/// The request that a body is in an encoding (OTLP 1.x, `ExportTraceServiceRequest`). Doubles are kept, or an attribute
/// that holds one is discarded and counted.
pub fn decode(
    alloc: Global,
    encoding: Encoding,
    keeps_doubles: bool,
    body: &[u8],
) -> Result<Request, DecodeError>
    ensures { Gives encoding keeps_doubles body.now result }
{
    match encoding {
        Encoding::Json => decode_json(alloc, keeps_doubles, body),
        Encoding::Protobuf => decode_protobuf(alloc, keeps_doubles, body),
    }
}

/// The same, of a body in JSON.
fn decode_json(alloc: Global, keeps_doubles: bool, body: &[u8]) -> Result<Request, DecodeError>
    ensures { Gives Encoding.Json keeps_doubles body.now result }
{
    match otlp_json::decode(alloc, keeps_doubles, body) {
        Ok(request) => Ok(request),
        Err(otlp_json::DecodeError::Json) => Err(DecodeError::Bad(BadData::Json)),
        Err(otlp_json::DecodeError::Shape) => Err(DecodeError::Bad(BadData::Shape)),
        Err(otlp_json::DecodeError::NoMemory) => Err(DecodeError::NoMemory),
    }
}

/// The same, of a body in protobuf.
fn decode_protobuf(alloc: Global, keeps_doubles: bool, body: &[u8]) -> Result<Request, DecodeError>
    ensures { Gives Encoding.Protobuf keeps_doubles body.now result }
{
    match otlp_protobuf::decode(alloc, keeps_doubles, body) {
        Ok(request) => Ok(request),
        Err(otlp_protobuf::DecodeError::NoMemory) => Err(DecodeError::NoMemory),
        Err(otlp_protobuf::DecodeError::Refused(fault)) => {
            Err(DecodeError::Bad(BadData::Protobuf(fault)))
        }
    }
}
