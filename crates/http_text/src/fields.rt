//! What the fields of a head say (RFC 9110, section 5; RFC 9112, section 6). Names and words are compared without
//! regard to ASCII case.
ghost use Rattle.std.specs.Prelude.{◌≡◌, ℕ, ◌+◌, ◌<◌, ◌≤◌, ◌==◌, List, [], length, map, All, IfSome, IfNone, codes, is_some, option_copied, Some, None, if◌then◌else◌, nat_le, nat_lt, Option, IsTrue, reverse, ◌^◌, min, suc, position, not, ◌&&◌, ◌||◌, ◌++◌, ◌∷◌, filter};
ghost use Rattle.std.specs.List.{before_first, list_any, list_all};
ghost use Rattle.std.specs.Char.{is_ascii_digit};
ghost use Rattle.std.specs.Str.{str_eq_ignore_ascii_case};
ghost use Rattle.std.specs.Str.Parse.{digits_value};
ghost use Rattle.httparse.specs.Ascii.{comma, semicolon};
ghost use Rattle.httparse.specs.Grammar.{skip_ows, trim_ows};
ghost use Rattle.httparse.specs.Spans.{IsHeaderWithin, header_bytes};
ghost use Rattle.http_text.specs.Fields.{values_named, is_number, framing, media_type, is_of, encoding_of, elements, coding_of, is_coded, is_plain, codings, is_gzip, is_packed, is_taken, has, has_word, says_close, expects_continue, host_name, is_bracketed, is_own_host, is_own_origin, is_own_site, is_foreign_field, is_foreign};
ghost use Rattle.http_text.specs.Named.{Seen};

use crate::allowed::Allowed;
use crate::request::Framing;
use httparse::is_space_or_tab;
use httparse::spans::HeaderSpan;
use otlp_encoding::Encoding;

/// The value of the fields with one name.
#[derive(Clone, Copy)]
pub enum NamedFields<'b> {
    /// No field has the name.
    Absent,
    /// One field has it, with this value.
    One(&'b [u8]),
    /// More than one have it.
    Many,
}

/// The same text but for the case of ASCII letters.
pub fn eq_ignore_case(a: &[u8], b: &[u8]) -> bool
    ensures { result ≡ str_eq_ignore_ascii_case a.now b.now }
{
    a.eq_ignore_ascii_case(b)
}

/// The value of the fields with this name.
pub fn find_named<'b>(text: &'b [u8], spans: &[HeaderSpan], name: &[u8]) -> NamedFields<'b>
    requires { All (IsHeaderWithin (length text.now)) spans.now }
    ensures { Seen result (values_named name.now (map (header_bytes text.now) spans.now)) }
{
    let mut found = NamedFields::Absent;
    for span in spans {
        if eq_ignore_case(span.name.of(text), name) {
            found = match found {
                NamedFields::Absent => NamedFields::One(span.value.of(text)),
                _ => NamedFields::Many,
            };
        }
    }
    found
}

/// The length that the text gives, where one above the limit stands for all above it.
fn body_len(limit: u32, text: &[u8]) -> Option<Framing>
    ensures { result ≡ (if is_number text.now then Some (Framing.Length (min (digits_value 10 text.now) (suc limit))) else None) }
{
    if text.is_empty() {
        return None;
    }
    let mut len: usize = 0;
    for digit in text {
        if !digit.is_ascii_digit() {
            return None;
        }
        len = (len * 10 + (*digit - b'0') as usize).min(limit as usize + 1);
    }
    Some(Framing::Length(len))
}

/// The text without spaces and tabs in front.
fn trim_start(mut text: &[u8]) -> &[u8]
    ensures { result.now ≡ skip_ows text.now }
{
    while let [first, rest @ ..] = text
        && is_space_or_tab(*first)
    {
        text = rest;
    }
    text
}

/// The text without spaces and tabs behind.
fn trim_end(mut text: &[u8]) -> &[u8]
    ensures { result.now ≡ reverse (skip_ows (reverse text.now)) }
{
    while let [rest @ .., last] = text
        && is_space_or_tab(*last)
    {
        text = rest;
    }
    text
}

/// The text without spaces and tabs at its ends.
fn trim_ows(text: &[u8]) -> &[u8]
    ensures { result.now ≡ trim_ows text.now }
{
    trim_end(trim_start(text))
}

/// The place of the first `;`.
fn semicolon_at(value: &[u8]) -> Option<usize>
    ensures value { result ≡ position (λ b. b == semicolon) value.now }
    ensures within { IfSome result (λ at. at < length value.now) }
{
    value.iter().position(|b| *b == b';')
}

/// The value before any `;`.
fn media_type(value: &[u8]) -> &[u8]
    ensures { result.now ≡ media_type value.now }
{
    match semicolon_at(value) {
        Some(at) => trim_ows(&value[..at]),
        None => trim_ows(value),
    }
}

/// One `Content-Type`, of this media type.
fn is_of(media: &[u8], text: &[u8], spans: &[HeaderSpan]) -> bool
    requires { All (IsHeaderWithin (length text.now)) spans.now }
    ensures { result ≡ is_of media.now (map (header_bytes text.now) spans.now) }
{
    match find_named(text, spans, b"content-type") {
        NamedFields::One(value) => eq_ignore_case(media_type(value), media),
        _ => false,
    }
}

/// What the body is written in, if that is taken.
pub fn encoding_of(allowed: Allowed, text: &[u8], spans: &[HeaderSpan]) -> Option<Encoding>
    requires { All (IsHeaderWithin (length text.now)) spans.now }
    ensures { result ≡ encoding_of allowed (map (header_bytes text.now) spans.now) }
{
    if is_of(Encoding::Json.media_type().as_bytes(), text, spans) {
        return Some(Encoding::Json);
    }
    if allowed.protobuf && is_of(Encoding::Protobuf.media_type().as_bytes(), text, spans) {
        return Some(Encoding::Protobuf);
    }
    None
}

/// The elements that were found, and one more unless it is empty.
fn with_element<'b>(found: NamedFields<'b>, element: &'b [u8]) -> NamedFields<'b>
    ensures { (seen : List (List ℕ)) → Seen found.entry seen → Seen result (seen ++ filter (λ w. nat_lt 0 (length w)) (element.now ∷ [])) }
{
    if element.is_empty() {
        return found;
    }
    match found {
        NamedFields::Absent => NamedFields::One(element),
        _ => NamedFields::Many,
    }
}

/// The elements of a comma list, where empty ones are passed over.
fn find_elements<'b>(value: &'b [u8]) -> NamedFields<'b>
    ensures { Seen result (elements value.now) }
{
    let mut rest = value;
    let mut found = NamedFields::Absent;
    'elements: loop {
        match comma_at(rest) {
            Some(at) => {
                found = with_element(found, trim_ows(&rest[..at]));
                rest = &rest[at + 1..];
            }
            None => return with_element(found, trim_ows(rest)),
        }
    }
}

/// The coding that a field says.
fn coding_of<'b>(value: &'b [u8]) -> &'b [u8]
    ensures { result.now ≡ coding_of value.now }
{
    match find_elements(value) {
        NamedFields::One(coding) => coding,
        _ => value,
    }
}

/// No `Content-Encoding` but `identity`.
fn is_plain(text: &[u8], spans: &[HeaderSpan]) -> bool
    requires { All (IsHeaderWithin (length text.now)) spans.now }
    ensures { result ≡ is_plain (map (header_bytes text.now) spans.now) }
{
    let mut is_coded = false;
    for span in spans {
        is_coded |= is_coding(span.name.of(text), span.value.of(text));
    }
    !is_coded
}

/// The coding of the content that isn't `identity`.
fn find_coding<'b>(text: &'b [u8], spans: &[HeaderSpan]) -> NamedFields<'b>
    requires { All (IsHeaderWithin (length text.now)) spans.now }
    ensures { Seen result (codings (map (header_bytes text.now) spans.now)) }
{
    let mut found = NamedFields::Absent;
    for span in spans {
        if is_coding(span.name.of(text), span.value.of(text)) {
            found = match found {
                NamedFields::Absent => NamedFields::One(coding_of(span.value.of(text))),
                _ => NamedFields::Many,
            };
        }
    }
    found
}

/// The field says a coding that isn't `identity`.
fn is_coding(name: &[u8], value: &[u8]) -> bool
    ensures { result ≡ has (codes "content-encoding") is_coded (name.now, value.now) }
{
    eq_ignore_case(name, b"content-encoding") && !eq_ignore_case(coding_of(value), b"identity")
}

/// `gzip` or `x-gzip`.
fn is_gzip(coding: &[u8]) -> bool
    ensures { result ≡ is_gzip coding.now }
{
    eq_ignore_case(coding, b"gzip") || eq_ignore_case(coding, b"x-gzip")
}

/// The one coding of the content is gzip.
pub fn is_packed(text: &[u8], spans: &[HeaderSpan]) -> bool
    requires { All (IsHeaderWithin (length text.now)) spans.now }
    ensures { result ≡ is_packed (map (header_bytes text.now) spans.now) }
{
    match find_coding(text, spans) {
        NamedFields::One(coding) => is_gzip(coding),
        _ => false,
    }
}

/// No coding, or gzip where it is taken.
pub fn is_taken(allowed: Allowed, text: &[u8], spans: &[HeaderSpan]) -> bool
    requires { All (IsHeaderWithin (length text.now)) spans.now }
    ensures { result ≡ is_taken allowed (map (header_bytes text.now) spans.now) }
{
    is_plain(text, spans) || (allowed.gzip && is_packed(text, spans))
}

/// The place of the first `:`.
pub(crate) fn colon_at(host: &[u8]) -> Option<usize>
    ensures value { result ≡ position (λ b. b == 58) host.now }
    ensures within { IfSome result (λ at. at < length host.now) }
{
    host.iter().position(|b| *b == b':')
}

/// The name or the address of a `Host`, before any port.
fn host_name(host: &[u8]) -> &[u8]
    ensures { result.now ≡ host_name host.now }
{
    match colon_at(host) {
        Some(at) => &host[..at],
        None => host,
    }
}

/// An address literal of version 6, in brackets.
pub(crate) fn is_bracketed(host: &[u8]) -> bool
    ensures { result ≡ is_bracketed host.now }
{
    matches!(host, [b'[', ..])
}

/// The text has a dot.
fn has_dot(text: &[u8]) -> bool
    ensures { result ≡ list_any (λ b. b == 46) text.now }
{
    text.iter().any(|b| *b == b'.')
}

/// The text is digits and dots alone.
fn is_dotted(text: &[u8]) -> bool
    ensures { result ≡ list_all (λ b. is_ascii_digit b || (b == 46)) text.now }
{
    text.iter().all(|b| b.is_ascii_digit() || *b == b'.')
}

/// A host that no site of the internet can have: an address literal, or a name without a dot.
fn is_own_host(host: &[u8]) -> bool
    ensures { result ≡ is_own_host host.now }
{
    let name = host_name(host);
    is_bracketed(host) || !has_dot(name) || is_dotted(name)
}

/// An `Origin` of this host (RFC 6454, section 6.2).
fn is_own_origin(host: &[u8], value: &[u8]) -> bool
    ensures { result ≡ is_own_origin host.now value.now }
{
    let at = value.len().min(7);
    eq_ignore_case(&value[..at], b"http://") && eq_ignore_case(&value[at..], host)
}

/// `Sec-Fetch-Site` says that a page of the same origin sent the request, or the user.
fn is_own_site(value: &[u8]) -> bool
    ensures { result ≡ is_own_site value.now }
{
    eq_ignore_case(value, b"same-origin") || eq_ignore_case(value, b"none")
}

/// The field says that a page of another site sent the request.
fn is_foreign_field(host: &[u8], name: &[u8], value: &[u8]) -> bool
    ensures { result ≡ is_foreign_field host.now (name.now, value.now) }
{
    (eq_ignore_case(name, b"origin") && !is_own_origin(host, value))
        || (eq_ignore_case(name, b"sec-fetch-site") && !is_own_site(value))
}

/// A field says that a page of another site sent the request.
fn has_foreign_field(host: &[u8], text: &[u8], spans: &[HeaderSpan]) -> bool
    requires { All (IsHeaderWithin (length text.now)) spans.now }
    ensures { result ≡ list_any (is_foreign_field host.now) (map (header_bytes text.now) spans.now) }
{
    let mut is_foreign = false;
    for span in spans {
        is_foreign |= is_foreign_field(host, span.name.of(text), span.value.of(text));
    }
    is_foreign
}

/// Whether a page of another site may have sent the request: it is asked of a name that such a site can have, or a field
/// says so.
pub fn is_foreign(text: &[u8], spans: &[HeaderSpan]) -> bool
    requires { All (IsHeaderWithin (length text.now)) spans.now }
    ensures { result ≡ is_foreign (map (header_bytes text.now) spans.now) }
{
    match find_named(text, spans, b"host") {
        NamedFields::One(host) => !is_own_host(host) || has_foreign_field(host, text, spans),
        _ => false,
    }
}

/// `Expect` says `100-continue`.
pub fn expects_continue(text: &[u8], spans: &[HeaderSpan]) -> bool
    requires { All (IsHeaderWithin (length text.now)) spans.now }
    ensures { result ≡ expects_continue (map (header_bytes text.now) spans.now) }
{
    let mut expects = false;
    for span in spans {
        expects |= eq_ignore_case(span.name.of(text), b"expect")
            && eq_ignore_case(span.value.of(text), b"100-continue");
    }
    expects
}

/// The place of the first comma.
fn comma_at(value: &[u8]) -> Option<usize>
    ensures value { result ≡ position (λ b. b == comma) value.now }
    ensures within { IfSome result (λ at. at < length value.now) }
{
    value.iter().position(|b| *b == b',')
}

/// Whether a comma list has this word.
fn has_word(value: &[u8], word: &[u8]) -> bool
    ensures { result ≡ has_word word.now value.now }
{
    let mut rest = value;
    let mut found = false;
    'words: loop {
        match comma_at(rest) {
            Some(at) => {
                found |= eq_ignore_case(trim_ows(&rest[..at]), word);
                rest = &rest[at + 1..];
            }
            None => {
                found |= eq_ignore_case(trim_ows(rest), word);
                return found;
            }
        }
    }
}

/// `Connection` lists `close`.
pub fn says_close(text: &[u8], spans: &[HeaderSpan]) -> bool
    requires { All (IsHeaderWithin (length text.now)) spans.now }
    ensures { result ≡ says_close (map (header_bytes text.now) spans.now) }
{
    let mut says = false;
    for span in spans {
        says |= eq_ignore_case(span.name.of(text), b"connection")
            && has_word(span.value.of(text), b"close");
    }
    says
}

/// How the body is framed, which may have so many bytes.
pub fn framing(limit: u32, text: &[u8], spans: &[HeaderSpan]) -> Option<Framing>
    requires { All (IsHeaderWithin (length text.now)) spans.now }
    ensures { result ≡ framing limit (map (header_bytes text.now) spans.now) }
{
    match (
        find_named(text, spans, b"content-length"),
        find_named(text, spans, b"transfer-encoding"),
    ) {
        (NamedFields::Absent, NamedFields::Absent) => Some(Framing::Length(0)),
        (NamedFields::One(len), NamedFields::Absent) => body_len(limit, len),
        (NamedFields::Absent, NamedFields::One(value))
            if eq_ignore_case(coding_of(value), b"chunked") => { Some(Framing::Chunked) }
        _ => None,
    }
}
