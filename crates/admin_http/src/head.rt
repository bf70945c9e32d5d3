//! What the head at the front of a stream asks for. A body behind it is not read.
ghost use Rattle.std.specs.Prelude.{map, ◌≡◌, ◌<◌, ◌≤◌, ℕ, List, length, IfSome, IfNone, true, false};
ghost use Rattle.httparse.specs.Grammar.{RequestHead};
ghost use Rattle.httparse.specs.Spans.{IsRequestWithin};
ghost use Rattle.http_text.specs.Head.{IsHead};
ghost use Rattle.http_text.specs.Spans.{IsHeadAt};
ghost use Rattle.std.specs.Option.{option_map};
ghost use Rattle.admin_http.specs.Asked.{IsAsked, IsHeard, asked_by, by_trace, digits_in, is_by, numbers_routed, only_by, refused_as, route_by, routed, trace_in};
ghost use Rattle.http_text.specs.Fields.{is_foreign};
ghost use Rattle.httparse.specs.Spans.{name_and_value};

use crate::asked::{Access, AdminRequest, Method, Route};
use hex::FromHex;
use http_text::{
    Allowed, Cutting, FIELD_LIMIT, HeadVerdict, PartSearch, RequestRefusal, SearchPlace, cut_on,
    is_foreign, judge, read_head,
};
use httparse::spans::EMPTY_HEADER_SPAN;

/// The bytes of the target of a trace: what stands in front of the id, its digits, and what stands behind.
const TRACE_TARGET: usize = 44;

/// Those in front of the id.
const FRONT: usize = 7;

/// So many bytes stand in the target of a trace before `.json`.
const BEHIND: usize = 39;

/// What is allowed makes no difference: a verdict only tells whether the text is a head.
const NOTHING: Allowed = Allowed {
    gzip: false,
    protobuf: false,
    close: false,
    body_limit: 0,
};

/// Whether a target is asked by this method, which may be `HEAD` where it is `GET`.
fn is_by(allowed: Method, method: &[u8]) -> bool
    ensures { result ≡ is_by allowed method.now }
{
    match allowed {
        Method::Get => method == b"GET".as_slice() || method == b"HEAD".as_slice(),
        Method::Post => method == b"POST".as_slice(),
    }
}

/// A target that is asked by one method.
fn only_by(allowed: Method, method: &[u8], route: Route) -> Route
    ensures { result ≡ only_by allowed method.now route }
{
    if is_by(allowed, method) {
        route
    } else {
        Route::WrongMethod(allowed)
    }
}

/// Where a request for numbers or health goes, by its method and its target.
fn numbers_routed(method: &[u8], target: &[u8]) -> Route
    ensures { result ≡ numbers_routed method.now target.now }
{
    if target == b"/metrics".as_slice() {
        return only_by(Method::Get, method, Route::Metrics);
    }
    if target == b"/healthz".as_slice() {
        return only_by(Method::Get, method, Route::Health);
    }
    Route::NotFound
}

/// The digits in the target of a trace: `/trace/`, 32 of them, and `.json`.
fn digits_in(target: &[u8]) -> Option<&[u8]>
    ensures { option_map (λ digits. digits.now) result ≡ digits_in target.now }
{
    if target.len() == TRACE_TARGET
        && &target[..FRONT] == b"/trace/".as_slice()
        && &target[BEHIND..] == b".json".as_slice()
    {
        Some(&target[FRONT..BEHIND])
    } else {
        None
    }
}

/// The bytes of the id in the target of a trace, whose digits are hex ones of either case.
fn trace_in(target: &[u8]) -> Option<[u8; 16]>
    ensures { result ≡ trace_in target.now }
{
    match digits_in(target) {
        Some(digits) => <[u8; 16]>::from_hex(digits).ok(),
        None => None,
    }
}

/// Where a request goes that is for a trace, where its target has an id, or for numbers or health.
fn by_trace(method: &[u8], target: &[u8]) -> Route
    ensures { result ≡ by_trace method.now target.now }
{
    match trace_in(target) {
        Some(id) => only_by(Method::Get, method, Route::Trace(id)),
        None => numbers_routed(method, target),
    }
}

/// Where one goes at an address at which everything may be asked for.
fn routed(method: &[u8], target: &[u8]) -> Route
    ensures { result ≡ routed method.now target.now }
{
    if target == b"/close".as_slice() {
        return only_by(Method::Post, method, Route::Close);
    }
    if target == b"/reopen".as_slice() {
        return only_by(Method::Post, method, Route::Reopen);
    }
    if target == b"/config".as_slice() {
        return only_by(Method::Get, method, Route::Config);
    }
    if target == b"/status.json".as_slice() {
        return only_by(Method::Get, method, Route::Status);
    }
    if target == b"/".as_slice() {
        return only_by(Method::Get, method, Route::Page);
    }
    if target == b"/decisions.json".as_slice() {
        return only_by(Method::Get, method, Route::Decisions);
    }
    by_trace(method, target)
}

/// Where a request goes; `foreign`: a page of another site may have sent it. What has power is asked by `POST`.
fn route_by(access: Access, method: &[u8], target: &[u8], foreign: bool) -> Route
    ensures { result ≡ route_by access method.now target.now foreign }
{
    if access == Access::Numbers {
        return numbers_routed(method, target);
    }
    if foreign && method == b"POST".as_slice() {
        Route::Forbidden
    } else {
        routed(method, target)
    }
}

/// What is asked for by a text that is a head.
fn asked_by_head(access: Access, text: &[u8]) -> AdminRequest
    requires { (h : RequestHead) × IsHead text.now h }
    ensures { (h : RequestHead) × IsHead text.now h × (result ≡ asked_by access h.method h.target (is_foreign (map name_and_value h.fields))) }
{
    let mut headers = [EMPTY_HEADER_SPAN; FIELD_LIMIT];
    match read_head(text, &mut headers) {
        Some(head) => {
            let foreign = is_foreign(text, &headers[..head.headers]);
            asked_by(access, head.method.of(text), head.path.of(text), foreign)
        }
        None => unreachable!(),
    }
}

/// What is asked for by a method and a target; `foreign`: a page of another site may have sent the request.
fn asked_by(access: Access, method: &[u8], target: &[u8], foreign: bool) -> AdminRequest
    ensures { result ≡ asked_by access method.now target.now foreign }
{
    AdminRequest {
        route: route_by(access, method, target, foreign),
        is_head: method == b"HEAD".as_slice(),
    }
}

/// What a text asks for that is no head, or too large a one.
fn refused_as(verdict: HeadVerdict) -> Option<AdminRequest>
    ensures { result ≡ refused_as verdict }
{
    match verdict {
        HeadVerdict::Refused {
            refusal: RequestRefusal::HeadTooLarge,
            is_head,
        } => Some(AdminRequest {
            route: Route::TooLarge,
            is_head,
        }),
        HeadVerdict::Refused {
            refusal: RequestRefusal::BadRequest,
            is_head,
        } => Some(AdminRequest {
            route: Route::Bad,
            is_head,
        }),
        _ => None,
    }
}

/// What the text of a head asks for.
fn asked_in(access: Access, text: &[u8]) -> AdminRequest
    ensures { IsAsked access text.now result }
{
    match refused_as(judge(text, NOTHING)) {
        Some(refused) => refused,
        None => asked_by_head(access, text),
    }
}

/// What the bytes ask for that were read so far, at an address at which this may be asked for; `None`: their head isn't
/// whole yet.
pub fn heard(access: Access, read: &[u8]) -> Option<AdminRequest>
    ensures { IsHeard access read.now result }
{
    let search = PartSearch {
        at: 0,
        place: SearchPlace::Blank,
    };
    match cut_on(read, search) {
        Cutting::Whole(n) => Some(asked_in(access, &read[..n])),
        Cutting::Waits(_) => None,
        Cutting::TooLong => Some(AdminRequest {
            route: Route::TooLarge,
            is_head: false,
        }),
    }
}
