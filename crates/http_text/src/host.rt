//! What a `Host` may be (RFC 9110, section 7.2; RFC 3986, section 3.2.2).
ghost use Rattle.std.specs.Prelude.{◌≡◌, ◌<◌, ◌==◌, length, map, All, IfSome, codes, position};
ghost use Rattle.std.specs.List.{list_any, list_all};
ghost use Rattle.std.specs.Char.{is_ascii_digit};
ghost use Rattle.httparse.specs.Spans.{IsHeaderWithin, header_bytes};
ghost use Rattle.http_text.specs.Host.{is_name_byte, begins_hex, may_stand, is_name, is_port, is_named, is_literal_byte, is_literal, is_host, has_host};

use crate::fields::{NamedFields, colon_at, find_named, is_bracketed};
use httparse::spans::HeaderSpan;

/// The text has this byte.
fn has_byte(text: &[u8], b: u8) -> bool
    ensures { result ≡ list_any (λ c. c == b) text.now }
{
    text.iter().any(|c| *c == b)
}

/// A byte of a name, but no `%`.
fn is_name_byte(b: u8) -> bool
    ensures { result ≡ is_name_byte b }
{
    b.is_ascii_alphanumeric() || has_byte(b"-._~!$&'()*+,;=", b)
}

/// Two hexadecimal digits stand in front.
fn begins_hex(text: &[u8]) -> bool
    ensures { result ≡ begins_hex text.now }
{
    match text {
        [a, b, ..] => a.is_ascii_hexdigit() && b.is_ascii_hexdigit(),
        _ => false,
    }
}

/// Whether the byte may stand in a name before these.
fn may_stand(b: u8, behind: &[u8]) -> bool
    ensures { result ≡ may_stand b behind.now }
{
    if b == b'%' {
        begins_hex(behind)
    } else {
        is_name_byte(b)
    }
}

/// A name or an address of version 4.
fn is_name(mut text: &[u8]) -> bool
    ensures { result ≡ is_name text.now }
{
    while let [first, rest @ ..] = text {
        if !may_stand(*first, rest) {
            return false;
        }
        text = rest;
    }
    true
}

/// The text is digits alone.
fn are_digits(text: &[u8]) -> bool
    ensures { result ≡ list_all is_ascii_digit text.now }
{
    text.iter().all(|b| b.is_ascii_digit())
}

/// Nothing, or a port.
fn is_port(text: &[u8]) -> bool
    ensures { result ≡ is_port text.now }
{
    match text {
        [] => true,
        [first, rest @ ..] => *first == b':' && are_digits(rest),
    }
}

/// A name and a port.
fn is_named(host: &[u8]) -> bool
    ensures { result ≡ is_named (position (λ b. b == 58) host.now) host.now }
{
    match colon_at(host) {
        Some(at) => is_name(&host[..at]) && is_port(&host[at..]),
        None => is_name(host),
    }
}

/// The place of the first `]`.
fn bracket_at(host: &[u8]) -> Option<usize>
    ensures value { result ≡ position (λ b. b == 93) host.now }
    ensures within { IfSome result (λ at. at < length host.now) }
{
    host.iter().position(|b| *b == b']')
}

/// A byte of an address in brackets.
fn is_literal_byte(b: u8) -> bool
    ensures { result ≡ is_literal_byte b }
{
    is_name_byte(b) || b == b':'
}

/// All bytes of an address in brackets.
fn are_literal(text: &[u8]) -> bool
    ensures { result ≡ list_all is_literal_byte text.now }
{
    text.iter().all(|b| is_literal_byte(*b))
}

/// An address in brackets, whose `]` stands at this place, and a port.
fn is_literal_to(host: &[u8], end: usize) -> bool
    requires { end < length host.now }
    ensures { result ≡ is_literal (Some end) host.now }
{
    if end <= 1 {
        return false;
    }
    let literal = &host[..end];
    are_literal(&literal[1..]) && is_port(&host[end + 1..])
}

/// Whether it may be a `Host`.
fn is_host(host: &[u8]) -> bool
    ensures { result ≡ is_host host.now }
{
    if !is_bracketed(host) {
        return is_named(host);
    }
    match bracket_at(host) {
        Some(end) => is_literal_to(host, end),
        None => false,
    }
}

/// Exactly one `Host`, and that may be one.
pub fn has_host(text: &[u8], spans: &[HeaderSpan]) -> bool
    requires { All (IsHeaderWithin (length text.now)) spans.now }
    ensures { result ≡ has_host (map (header_bytes text.now) spans.now) }
{
    match find_named(text, spans, b"host") {
        NamedFields::One(host) => is_host(host),
        NamedFields::Absent | NamedFields::Many => false,
    }
}
