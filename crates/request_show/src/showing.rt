//! What is shown of a body.
ghost use Rattle.std.specs.Prelude.{◌≡◌, IfOk, string_bytes};
ghost use Rattle.otlp_json.specs.Writing.{canonical_text};
ghost use Rattle.request_show.specs.FirstFault.{fault_in};
ghost use Rattle.request_show.specs.Showing as spec;

use crate::messages::MessageKind;
use crate::walk::{Met, first_fault};
use otlp_json::encode;
use otlp_protobuf::{DecodeError, ProtobufFault, decode};
use otlp_types::Request;
use std::alloc::{AllocError, Global};

/// How deep values may nest.
const MOST_LEVELS: usize = 29;

/// What is shown of a body.
#[derive(Drop)]
pub enum Shown {
    /// It is a request: its canonical line of JSON, and a line feed.
    Line(Vec<u8>),
    /// It is none: a line that says why, and where in the body that was met.
    Refused(String),
}

/// What is shown of a body: the line of the request that it is, read as the protobuf encoding of OTLP 1.x says
/// (`ExportTraceServiceRequest`), with its doubles; or the fault that is met first in it, and where. `Err` only where
/// memory was refused.
pub fn show(alloc: Global, body: &[u8]) -> Result<Shown, AllocError>
    ensures { IfOk result (spec.Shows body.now) }
{
    match decode(alloc, true, body) {
        Ok(request) => Ok(Shown::Line(line_of(alloc, &request)?)),
        Err(DecodeError::Refused(fault)) => {
            Ok(Shown::Refused(refusal_of(alloc, fault, place_in(body))?))
        }
        Err(DecodeError::NoMemory) => Err(AllocError),
    }
}

/// The canonical line of a request, and a line feed.
fn line_of(alloc: Global, request: &Request) -> Result<Vec<u8>, AllocError>
    ensures { IfOk result (λ line. line.items ≡ spec.line_of request.now) }
{
    let mut line = encode(alloc, request)?;
    line.push(b'\n')?;
    Ok(line)
}

/// The first fault that is met in a body.
fn place_in(body: &[u8]) -> Option<Met>
    ensures { result ≡ fault_in body.now }
{
    first_fault(body.len(), MessageKind::Request, MOST_LEVELS, 0, body)
}

/// The line that says why a body is no request.
fn refusal_of(alloc: Global, fault: ProtobufFault, place: Option<Met>) -> Result<String, AllocError>
    ensures { IfOk result (λ said. string_bytes said ≡ spec.refusal_of fault place) }
{
    match place {
        Some(met) => {
            let at = met.at;
            format!(in alloc; "tsc: body refused: {fault}, in the field at byte {at}\n")
        }
        None => format!(in alloc; "tsc: body refused: {fault}\n"),
    }
}
