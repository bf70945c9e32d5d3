//! Bodies of answers.
ghost use Rattle.std.specs.Prelude.{◌≡◌, ◌++◌, ◌+◌, IfOk, codes, decimal, string_bytes};
ghost use Rattle.otlp_reply.specs.Bodies.{code_of, message_body, cause_in_full, rejected_text, rejected, body_of, json_body, protobuf_body};

use crate::putting::{MAX_BODY_LEN, put_json_body};
use lane_seq::Reply;
use otlp_encoding::Encoding;
use otlp_request::BadData;
use std::alloc::{AllocError, Global};

/// The most that `int64` has (`ExportTracePartialSuccess`, `rejected_spans`).
const MOST_REJECTED: u64 = 0x7fff_ffff_ffff_ffff;

/// The code of gRPC that goes with a status of HTTP (`google.rpc.Code`).
fn code_of(status: u16) -> u64
    ensures { result ≡ code_of status }
{
    match status {
        503 => 14,
        408 => 4,
        413 => 8,
        _ => 3,
    }
}

/// The body of an answer that says why a request wasn't taken: in JSON an object with a message, in protobuf a
/// `google.rpc.Status`. The message stands in JSON as it is: it has nothing to be escaped.
pub fn message_body(
    alloc: Global,
    encoding: Encoding,
    status: u16,
    message: &str,
) -> Result<Vec<u8>, AllocError>
    ensures { IfOk result (λ body. body.items ≡ message_body encoding status message.now) }
{
    match encoding {
        Encoding::Json => {
            let text = format!(in alloc; "{{\"message\":\"{message}\"}}")?;
            Ok(text.into_bytes())
        }
        Encoding::Protobuf => otlp_responses::status(alloc, code_of(status), message),
    }
}

/// Why a body is no request, with the fault that was met.
fn cause_in_full(alloc: Global, cause: BadData) -> Result<String, AllocError>
    ensures { IfOk result (λ text. string_bytes text ≡ cause_in_full cause) }
{
    match cause {
        BadData::Json => format!(in alloc; "not JSON"),
        BadData::Shape => format!(in alloc; "wrong shape"),
        BadData::Protobuf(fault) => format!(in alloc; "not protobuf: {fault}"),
    }
}

/// Which spans were not taken.
fn rejected_text(alloc: Global, invalid: u64, full: u64) -> Result<String, AllocError>
    ensures { IfOk result (λ text. string_bytes text ≡ rejected_text invalid full) }
{
    format!(in alloc; "invalid id: {invalid}, queue full: {full}")
}

/// How many spans were not taken, as far as `int64` has them.
fn rejected(invalid: u64, full: u64) -> u64
    ensures { result ≡ rejected invalid full }
{
    invalid.saturating_add(full).min(MOST_REJECTED)
}

/// The body of a reply in JSON.
fn json_body(alloc: Global, reply: &Reply) -> Result<Vec<u8>, AllocError>
    ensures { IfOk result (λ body. body.items ≡ json_body reply.now) }
{
    let mut body = Vec::with_capacity(alloc, MAX_BODY_LEN)?;
    put_json_body(&mut body, reply)?;
    Ok(body)
}

/// The body of a reply in protobuf.
fn protobuf_body(alloc: Global, reply: &Reply) -> Result<Vec<u8>, AllocError>
    ensures { IfOk result (λ body. body.items ≡ protobuf_body reply.now) }
{
    match reply {
        Reply::Done { .. } => Ok(Vec::new(alloc)),
        Reply::Partial { invalid, full, .. } => {
            let text = rejected_text(alloc, *invalid, *full)?;
            otlp_responses::partial_success(alloc, rejected(*invalid, *full), &text)
        }
        Reply::BadData(cause) => {
            let text = cause_in_full(alloc, *cause)?;
            message_body(alloc, Encoding::Protobuf, 400, &text)
        }
        Reply::Busy => message_body(alloc, Encoding::Protobuf, 503, "busy"),
    }
}

/// The body of a reply: of a whole success an empty `ExportTraceServiceResponse`, of a partial one one that says how many
/// spans were not taken, and why.
pub fn reply_body(alloc: Global, encoding: Encoding, reply: &Reply) -> Result<Vec<u8>, AllocError>
    ensures { IfOk result (λ body. body.items ≡ body_of encoding reply.now) }
{
    match encoding {
        Encoding::Json => json_body(alloc, reply),
        Encoding::Protobuf => protobuf_body(alloc, reply),
    }
}
