//! What the protobuf encoding of OTLP 1.x says bytes read as: the fields of `protobuf_wire`, one after another, without a
//! tree between them and the request.
//!
//! The definition stands in `specs/`: `Kinds` (values of fields by their kinds, and messages), `Values` (of attributes),
//! `Reading` (the messages, and the request); `Nesting` says how deep values nest.
#![tactic(auto)]

ghost use Rattle.std.specs.Prelude.{IfOk};
ghost use Rattle.otlp_protobuf.specs.Values.{most_levels};
ghost use Rattle.otlp_protobuf.specs.Reading.{request_of};
ghost use Rattle.otlp_protobuf.specs.Nesting.{RequestNests};
ghost use Rattle.otlp_protobuf.specs.Gives.{Gives};

mod attributes;
mod decode_error;
mod kinds;
mod laws;
mod message;
mod protobuf_fault;
mod request;
mod span;
mod value;

pub use decode_error::DecodeError;
pub use laws::{merged_is_fold, merging_turns_suffice, requests_concatenate};
use message::{Building, merge};
use otlp_types::Request;
pub use protobuf_fault::ProtobufFault;
use std::alloc::Global;

/// The request that the bytes are, read as the protobuf encoding of OTLP 1.x says (`ExportTraceServiceRequest`). Doubles
/// are kept, or an attribute that holds one is discarded and counted.
///
/// What is refused is named exactly: by the first fault that is met in the bytes. No value of what is read nests more than
/// 29 levels deep.
pub fn decode(alloc: Global, keeps_doubles: bool, bytes: &[u8]) -> Result<Request, DecodeError>
    ensures request { Gives result (request_of keeps_doubles bytes.now) }
    ensures nesting { IfOk result (RequestNests most_levels) }
{
    let mut request = Request::start(alloc);
    merge(alloc, keeps_doubles, bytes, &mut request)?;
    Ok(request)
}
