//! The bodies of requests in protobuf.
ghost use Rattle.std.specs.Prelude.{◌≡◌, ◌⊎◌, IfOk, IsErrOf, IsSome, true};
ghost use Rattle.otlp_types.specs.declared.request.Request.{Request};
ghost use Rattle.otlp_reading.specs.Decoding.{IsNoJson, IsNoRequest, IsRequest};
ghost use Rattle.otlp_protobuf_encode.specs.Faults.{request_fault};
ghost use Rattle.otlp_protobuf_encode.specs.Writing.{request_bytes};

use otlp_json::DecodeError;
use otlp_protobuf_encode::EncodeError;
use std::alloc::Global;

/// Why a batch has no body in protobuf, so that it can go as JSON alone.
#[derive(Clone, Copy, PartialEq, Eq, Drop)]
pub enum NoBody {
    /// Memory was refused.
    NoMemory,
    /// Its line is no request.
    NoRequest,
    /// A text of it that stands for bytes isn't theirs: the id of a link, or a value of bytes.
    NoBytes,
}

/// The body in protobuf of a batch: that of the request which its line writes.
pub fn protobuf_body(alloc: Global, line: &[u8]) -> Result<Vec<u8>, NoBody>
    ensures body { IfOk result (λ body. (request : Request) × IsRequest true line.now request × (body.items ≡ request_bytes request)) }
    ensures no_request { IsErrOf result NoBody.NoRequest → IsNoJson line.now ⊎ IsNoRequest true line.now }
    ensures no_bytes { IsErrOf result NoBody.NoBytes → (request : Request) × IsRequest true line.now request × IsSome (request_fault request) }
{
    // The line is what is counted and printed, so it is written from that; doubles to discard are gone already (D-117).
    let request = match otlp_json::decode(alloc, true, line) {
        Ok(request) => request,
        Err(DecodeError::NoMemory) => return Err(NoBody::NoMemory),
        Err(_) => return Err(NoBody::NoRequest),
    };
    match otlp_protobuf_encode::encode(alloc, &request) {
        Ok(body) => Ok(body),
        Err(EncodeError::NoMemory) => Err(NoBody::NoMemory),
        Err(_) => Err(NoBody::NoBytes),
    }
}
