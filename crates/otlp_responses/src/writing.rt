//! Messages of a number and a text, written.
ghost use Rattle.std.specs.Prelude.{◌≡◌, IfOk};
ghost use Rattle.otlp_responses.specs.Writing as spec;

use protobuf_writer::{write_bytes, write_varint};
use std::alloc::{AllocError, Global};

/// A message of a number and a text.
fn number_and_text(alloc: Global, number: u64, text: &str) -> Result<Vec<u8>, AllocError>
    ensures { IfOk result (λ out. out.items ≡ spec.number_and_text number text.now) }
{
    let mut out = Vec::new(alloc);
    write_varint(&mut out, 1, number)?;
    write_bytes(&mut out, 2, text.as_bytes())?;
    Ok(out)
}

/// The answer to a request of which so many spans were rejected (`ExportTraceServiceResponse`, `partial_success`).
pub fn partial_success(alloc: Global, rejected: u64, message: &str) -> Result<Vec<u8>, AllocError>
    ensures { IfOk result (λ out. out.items ≡ spec.partial_success rejected message.now) }
{
    let held = number_and_text(alloc, rejected, message)?;
    let mut out = Vec::new(alloc);
    write_bytes(&mut out, 1, held.as_slice())?;
    Ok(out)
}

/// What an error says (`google.rpc.Status`): a code, 3 where the argument is invalid, 14 where the service is
/// unavailable, and a text.
pub fn status(alloc: Global, code: u64, message: &str) -> Result<Vec<u8>, AllocError>
    ensures { IfOk result (λ out. out.items ≡ spec.number_and_text code message.now) }
{
    number_and_text(alloc, code, message)
}
