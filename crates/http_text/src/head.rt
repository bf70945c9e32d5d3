//! What the head of a request comes to (RFC 9112, sections 2 to 6).
ghost use Rattle.std.specs.Prelude.{◌≡◌, ℕ, ◌+◌, ◌-◌, ◌<◌, ◌≤◌, List, [], length, map, take, drop, All, IfSome, IfNone, count_by, ◌==◌};
ghost use Rattle.httparse.specs.Ascii.{line_feed};
ghost use Rattle.httparse.specs.Grammar.{RequestHead};
ghost use Rattle.httparse.specs.Spans.{IsHeaderWithin, IsRequestWithin, header_bytes};
ghost use Rattle.http_text.specs.Lines.{blank_len};
ghost use Rattle.http_text.specs.Head.{IsHead, IsVerdict, field_lines, verdict_by, refused, routed, posted, posted_in, type_refusal, coding_refusal, closing};
ghost use Rattle.http_text.specs.Spans.{IsHeadAt};

use crate::allowed::Allowed;
use crate::fields::{
    encoding_of, expects_continue, framing, is_foreign, is_packed, is_taken, says_close,
};
use crate::host::has_host;
use crate::lines::blank_len;
use crate::request::{FIELD_LIMIT, Framing, HeadVerdict, Post, RequestRefusal};
use httparse::Status;
use httparse::spans::{EMPTY_HEADER_SPAN, HeaderSpan, RequestSpans, parse_request};
use otlp_encoding::Encoding;

/// Where the parts of a head are, if the whole text is one (RFC 9112, section 2.1).
pub fn read_head(text: &[u8], headers: &mut [HeaderSpan]) -> Option<RequestSpans>
    requires { length headers.old ≡ FIELD_LIMIT }
    ensures head { IfSome result (λ r. (h : RequestHead) × IsHeadAt text.now headers.new r h) }
    ensures within { IfSome result (IsRequestWithin text.now headers.new) }
    ensures none { IfNone result ((h : RequestHead) → ¬ (IsHead text.now h)) }
{
    match parse_request(text, headers) {
        Ok(Status::Complete(head)) if head.len == text.len() => Some(head),
        _ => None,
    }
}

/// How many lines stand between the request line and the end.
fn field_lines(text: &[u8]) -> usize
    ensures { result ≡ field_lines text.now }
{
    let lines = text[blank_len(text)..]
        .iter()
        .filter(|b| **b == b'\n')
        .count();
    lines.saturating_sub(2)
}

/// What the text of a head comes to, by what is allowed.
pub fn judge(text: &[u8], allowed: Allowed) -> HeadVerdict
    ensures { IsVerdict allowed text.now result }
{
    if field_lines(text) > FIELD_LIMIT {
        return HeadVerdict::Refused {
            refusal: RequestRefusal::HeadTooLarge,
            is_head: false,
        };
    }
    let mut headers = [EMPTY_HEADER_SPAN; FIELD_LIMIT];
    match read_head(text, &mut headers) {
        Some(head) => {
            let fields = &headers[..head.headers];
            verdict_by(
                allowed,
                head.method.of(text),
                head.path.of(text),
                head.version,
                text,
                fields,
            )
        }
        None => HeadVerdict::Refused {
            refusal: RequestRefusal::BadRequest,
            is_head: false,
        },
    }
}

/// A refusal.
fn refused(method: &[u8], refusal: RequestRefusal) -> HeadVerdict
    ensures { result ≡ refused method.now refusal }
{
    HeadVerdict::Refused {
        refusal,
        is_head: method == b"HEAD".as_slice(),
    }
}

/// What a head's parts come to, by the table.
fn verdict_by(
    allowed: Allowed,
    method: &[u8],
    target: &[u8],
    minor: u8,
    text: &[u8],
    headers: &[HeaderSpan],
) -> HeadVerdict
    requires { All (IsHeaderWithin (length text.now)) headers.now }
    ensures { result ≡ verdict_by allowed method.now target.now minor (map (header_bytes text.now) headers.now) }
{
    if minor != 1 || !has_host(text, headers) {
        return refused(method, RequestRefusal::BadRequest);
    }
    match framing(allowed.body_limit, text, headers) {
        None => refused(method, RequestRefusal::BadRequest),
        Some(framed) => routed(allowed, method, target, text, headers, framed),
    }
}

/// What a request whose body is framed comes to, by its target and method.
fn routed(
    allowed: Allowed,
    method: &[u8],
    target: &[u8],
    text: &[u8],
    headers: &[HeaderSpan],
    framed: Framing,
) -> HeadVerdict
    requires { All (IsHeaderWithin (length text.now)) headers.now }
    ensures { result ≡ routed allowed method.now target.now (map (header_bytes text.now) headers.now) framed }
{
    let is_post = method == b"POST".as_slice();
    let is_close = allowed.close && target == b"/close".as_slice();
    if is_close && is_post {
        return closing(method, text, headers);
    }
    if !(is_close || target == b"/v1/traces".as_slice()) {
        return refused(method, RequestRefusal::NotFound);
    }
    if !is_post {
        return refused(method, RequestRefusal::MethodNotAllowed);
    }
    posted(allowed, method, text, headers, framed)
}

/// What a request to close comes to, by its fields.
fn closing(method: &[u8], text: &[u8], headers: &[HeaderSpan]) -> HeadVerdict
    requires { All (IsHeaderWithin (length text.now)) headers.now }
    ensures { result ≡ closing method.now (map (header_bytes text.now) headers.now) }
{
    if is_foreign(text, headers) {
        return refused(method, RequestRefusal::Forbidden);
    }
    HeadVerdict::Close
}

/// Why a coding isn't taken.
fn coding_refusal(takes_gzip: bool, is_packed: bool) -> RequestRefusal
    ensures { result ≡ coding_refusal takes_gzip is_packed }
{
    if takes_gzip {
        RequestRefusal::NeitherCoding
    } else if is_packed {
        RequestRefusal::GzipIsOff
    } else {
        RequestRefusal::UnsupportedCoding
    }
}

/// Why a media type isn't taken.
fn type_refusal(takes_protobuf: bool) -> RequestRefusal
    ensures { result ≡ type_refusal takes_protobuf }
{
    if takes_protobuf {
        RequestRefusal::NeitherMediaType
    } else {
        RequestRefusal::UnsupportedMediaType
    }
}

/// What a request for traces comes to, by its other fields.
fn posted(
    allowed: Allowed,
    method: &[u8],
    text: &[u8],
    headers: &[HeaderSpan],
    framed: Framing,
) -> HeadVerdict
    requires { All (IsHeaderWithin (length text.now)) headers.now }
    ensures { result ≡ posted allowed method.now (map (header_bytes text.now) headers.now) framed }
{
    match encoding_of(allowed, text, headers) {
        Some(encoding) => posted_in(encoding, allowed, method, text, headers, framed),
        None => refused(method, type_refusal(allowed.protobuf)),
    }
}

/// The same, where the body is written in this.
fn posted_in(
    encoding: Encoding,
    allowed: Allowed,
    method: &[u8],
    text: &[u8],
    headers: &[HeaderSpan],
    framed: Framing,
) -> HeadVerdict
    requires { All (IsHeaderWithin (length text.now)) headers.now }
    ensures { result ≡ posted_in encoding allowed method.now (map (header_bytes text.now) headers.now) framed }
{
    if !is_taken(allowed, text, headers) {
        let refusal = coding_refusal(allowed.gzip, is_packed(text, headers));
        return refused(method, refusal);
    }
    if matches!(framed, Framing::Length(len) if len > allowed.body_limit as usize) {
        return refused(method, RequestRefusal::BodyTooLarge);
    }
    HeadVerdict::Post(Post {
        framing: framed,
        encoding,
        expects_continue: expects_continue(text, headers),
        is_packed: is_packed(text, headers),
        says_close: says_close(text, headers),
    })
}
