//! The bytes of answers.
ghost use Rattle.std.specs.Prelude.{◌≡◌, ℕ, List, true, false, IfOk, length, string_bytes};
ghost use Rattle.otlp_encoding.specs.MediaTypes.{media_type};
ghost use Rattle.http_answer.specs.Answer.{text_of_answer, status_of_answer, answer_text, head_text, row_naming, told_row, told_row_naming, refusal_row, reply_row, reason_of, closing_row, own_field, optional, joined_text, continue_text};

use crate::response::Response;
use http_text::RequestRefusal;
use lane_seq::Reply;
use otlp_encoding::Encoding;
use otlp_reply::{message_body, reply_body, status};
use std::alloc::{AllocError, Global};

/// The text, or nothing.
fn optional(present: bool, text: &str) -> &str
    ensures { result.now ≡ optional present text.now }
{
    if present { text } else { "" }
}

/// The field that tells a client what to do otherwise.
fn own_field(status: u16, accept: &str) -> &str
    ensures { result.now ≡ own_field status accept.now }
{
    match status {
        405 => "Allow: POST\r\n",
        503 => "Retry-After: 1\r\n",
        _ => accept,
    }
}

/// The head of an answer in JSON, from its parts, and what is behind it.
fn json_head(
    alloc: Global,
    status: u16,
    reason: &str,
    len: usize,
    own: &str,
    close: &str,
    sent: &str,
) -> Result<String, AllocError>
    ensures { IfOk result (λ text. string_bytes text ≡ joined_text status reason.now (media_type Encoding.Json) len own.now close.now sent.now) }
{
    format!(in alloc;
        "HTTP/1.1 {status} {reason}\r\nContent-Type: application/json\r\nContent-Length: {len}\r\n{own}{close}\r\n{sent}"
    )
}

/// The same in protobuf.
fn protobuf_head(
    alloc: Global,
    status: u16,
    reason: &str,
    len: usize,
    own: &str,
    close: &str,
    sent: &str,
) -> Result<String, AllocError>
    ensures { IfOk result (λ text. string_bytes text ≡ joined_text status reason.now (media_type Encoding.Protobuf) len own.now close.now sent.now) }
{
    format!(in alloc;
        "HTTP/1.1 {status} {reason}\r\nContent-Type: application/x-protobuf\r\nContent-Length: {len}\r\n{own}{close}\r\n{sent}"
    )
}

/// The head of an answer with a body of so many bytes.
fn head_text(
    alloc: Global,
    encoding: Encoding,
    status: u16,
    reason: &str,
    accept: &str,
    len: usize,
    closes: bool,
) -> Result<String, AllocError>
    ensures { (body : List ℕ) → length body ≡ len → IfOk result (λ text. string_bytes text ≡ head_text (row_naming accept.now encoding status reason.now body) closes) }
{
    let own = own_field(status, accept);
    let close = optional(closes, "Connection: close\r\n");
    match encoding {
        Encoding::Json => json_head(alloc, status, reason, len, own, close, ""),
        Encoding::Protobuf => protobuf_head(alloc, status, reason, len, own, close, ""),
    }
}

/// The whole answer. Without the body it is the answer to `HEAD`.
fn answer_text(
    alloc: Global,
    encoding: Encoding,
    status: u16,
    reason: &str,
    accept: &str,
    body: &[u8],
    closes: bool,
    is_head: bool,
) -> Result<Vec<u8>, AllocError>
    ensures { IfOk result (λ text. text.items ≡ answer_text (row_naming accept.now encoding status reason.now body.now) closes is_head) }
{
    let head = head_text(alloc, encoding, status, reason, accept, body.len(), closes)?;
    let mut text = head.into_bytes();
    if is_head {
        return Ok(text);
    }
    text.extend_from_slice(body)?;
    Ok(text)
}

/// An answer that says why a request wasn't taken, and closes the connection.
fn told_text(
    alloc: Global,
    encoding: Encoding,
    status: u16,
    reason: &str,
    accept: &str,
    message: &str,
    is_head: bool,
) -> Result<Vec<u8>, AllocError>
    ensures { IfOk result (λ text. text.items ≡ answer_text (told_row_naming accept.now encoding status reason.now message.now) true is_head) }
{
    let body = message_body(alloc, encoding, status, message)?;
    answer_text(
        alloc,
        encoding,
        status,
        reason,
        accept,
        body.as_slice(),
        true,
        is_head,
    )
}

/// The status of a refusal, its reason phrase, the field that names the codings that are taken, where another was the
/// cause, and what its answer says.
fn refusal_row(refusal: RequestRefusal) -> (u16, &'static str, &'static str, &'static str)
    ensures { (encoding : Encoding) → told_row_naming result.2.now encoding result.0 result.1.now result.3.now ≡ refusal_row encoding refusal }
{
    match refusal {
        RequestRefusal::HeadTooLarge => (
            431,
            "Request Header Fields Too Large",
            "",
            "head too large",
        ),
        RequestRefusal::BadRequest => (400, "Bad Request", "", "bad request"),
        RequestRefusal::NotGzip => (400, "Bad Request", "", "not gzip"),
        RequestRefusal::NotFound => (404, "Not Found", "", "not found"),
        RequestRefusal::MethodNotAllowed => (405, "Method Not Allowed", "", "method not allowed"),
        RequestRefusal::Forbidden => (403, "Forbidden", "", "forbidden"),
        RequestRefusal::UnsupportedMediaType => (
            415,
            "Unsupported Media Type",
            "",
            "unsupported media type: application/json is wanted",
        ),
        RequestRefusal::NeitherMediaType => (
            415,
            "Unsupported Media Type",
            "",
            "unsupported media type: application/json or application/x-protobuf is wanted",
        ),
        RequestRefusal::GzipIsOff => (
            415,
            "Unsupported Media Type",
            "Accept-Encoding: identity\r\n",
            "unsupported content encoding: gzip is off (accept_gzip)",
        ),
        RequestRefusal::UnsupportedCoding => (
            415,
            "Unsupported Media Type",
            "Accept-Encoding: identity\r\n",
            "unsupported content encoding: identity is wanted, or gzip with accept_gzip",
        ),
        RequestRefusal::NeitherCoding => (
            415,
            "Unsupported Media Type",
            "Accept-Encoding: gzip, identity\r\n",
            "unsupported content encoding: identity is wanted, or gzip with accept_gzip",
        ),
        RequestRefusal::BodyTooLarge => (413, "Content Too Large", "", "body too large"),
    }
}

/// The answer to a request that is refused.
fn refusal_text(
    alloc: Global,
    encoding: Encoding,
    refusal: RequestRefusal,
    is_head: bool,
) -> Result<Vec<u8>, AllocError>
    ensures { IfOk result (λ text. text.items ≡ answer_text (refusal_row encoding refusal) true is_head) }
{
    let (status, reason, accept, message) = refusal_row(refusal);
    told_text(alloc, encoding, status, reason, accept, message, is_head)
}

/// The reason phrase of a reply's status.
fn reason_of(reply: &Reply) -> &'static str
    ensures { result.now ≡ reason_of reply.now }
{
    match reply {
        Reply::Done { .. } | Reply::Partial { .. } => "OK",
        Reply::BadData(_) => "Bad Request",
        Reply::Busy => "Service Unavailable",
    }
}

/// The answer to a request that was submitted.
fn reply_text(
    alloc: Global,
    encoding: Encoding,
    reply: &Reply,
    closes: bool,
) -> Result<Vec<u8>, AllocError>
    ensures { IfOk result (λ text. text.items ≡ answer_text (reply_row encoding reply.now) closes false) }
{
    let body = reply_body(alloc, encoding, reply)?;
    answer_text(
        alloc,
        encoding,
        status(reply),
        reason_of(reply),
        "",
        body.as_slice(),
        closes,
        false,
    )
}

/// The answer of a collector that is closing, on a connection of which no request is read.
pub fn stopping_text(alloc: Global) -> Result<Vec<u8>, AllocError>
    ensures { IfOk result (λ text. text.items ≡ answer_text (closing_row Encoding.Json) true false) }
{
    text_of(alloc, Encoding::Json, &Response::Stopping)
}

/// An answer that closes the connection, and is none to `HEAD`.
fn closing_text(
    alloc: Global,
    encoding: Encoding,
    status: u16,
    reason: &str,
    message: &str,
) -> Result<Vec<u8>, AllocError>
    ensures { IfOk result (λ text. text.items ≡ answer_text (told_row encoding status reason.now message.now) true false) }
{
    told_text(alloc, encoding, status, reason, "", message, false)
}

/// The bytes of an answer in an encoding, or of the interim line.
pub fn text_of(alloc: Global, encoding: Encoding, answer: &Response) -> Result<Vec<u8>, AllocError>
    ensures { IfOk result (λ text. text.items ≡ text_of_answer encoding answer.now) }
{
    match answer {
        Response::Continue => interim_line(alloc),
        Response::Refused { refusal, is_head } => {
            refusal_text(alloc, encoding, *refusal, *is_head)
        }
        Response::CloseAsked => answer_text(
            alloc,
            Encoding::Json,
            200,
            "OK",
            "",
            b"{}",
            true,
            false,
        ),
        Response::Starved => closing_text(alloc, encoding, 503, "Service Unavailable", "busy"),
        Response::Stopping => closing_text(alloc, encoding, 503, "Service Unavailable", "closing"),
        Response::TimedOut => {
            closing_text(alloc, encoding, 408, "Request Timeout", "request timeout")
        }
        Response::Replied { reply, closes } => reply_text(alloc, encoding, reply, *closes),
    }
}

/// The status of an answer, or of the interim line (RFC 9110, section 15).
pub fn status_of(answer: &Response) -> u16
    ensures { result ≡ status_of_answer answer.now }
{
    match answer {
        Response::Continue => 100,
        Response::Refused { refusal, .. } => refusal_row(*refusal).0,
        Response::CloseAsked => 200,
        Response::Starved | Response::Stopping => 503,
        Response::TimedOut => 408,
        Response::Replied { reply, .. } => status(reply),
    }
}

/// The interim line.
fn interim_line(alloc: Global) -> Result<Vec<u8>, AllocError>
    ensures { IfOk result (λ text. text.items ≡ continue_text) }
{
    let line = format!(in alloc; "HTTP/1.1 100 Continue\r\n\r\n")?;
    Ok(line.into_bytes())
}
