//! The bytes of answers.
ghost use Rattle.std.specs.Prelude.{◌≡◌, ℕ, List, [], Bool, IfOk, length, string_bytes, if◌then◌else◌, codes};
ghost use Rattle.admin_http.specs.Texts.{AdminState, answer_of, health_page, joined, own_fields, page, page_of, page_text, sent_of, state};

use crate::asked::{AdminRequest, Method, Route};
use std::alloc::{AllocError, Global};

/// What is answered: a status, its reason phrase, the media type of the body, and the body.
#[derive(Clone, Copy)]
struct AdminPage<'a> {
    status: u16,
    reason: &'static str,
    media: &'static str,
    body: &'a str,
}

/// What an answer tells of.
#[derive(Clone, Copy)]
pub struct Told<'a> {
    /// The collector is closing.
    pub is_stopping: bool,
    /// The text of what it has counted, where that is asked for.
    pub counted: &'a str,
    /// The text of its configuration.
    pub config: &'a str,
    /// The page that shows it, in HTML.
    pub page: &'a str,
    /// The fields of a head that go with the page, each with its line end.
    pub page_fields: &'a str,
}

/// The answer to a request, from what it tells of.
pub fn answer(alloc: Global, asked: AdminRequest, told: Told<'_>) -> Result<String, AllocError>
    ensures { IfOk result (λ text. string_bytes text ≡ answer_of asked (state told.entry.is_stopping told.entry.counted.now told.entry.config.now told.entry.page.now told.entry.page_fields.now)) }
{
    let shown = page_of(asked.route, told);
    page_text(alloc, &shown, own_fields(asked.route, told), asked.is_head)
}

/// What a route is answered.
fn page_of<'a>(route: Route, told: Told<'a>) -> AdminPage<'a>
    ensures { page result.status result.reason.now result.media.now result.body.now ≡ page_of route (state told.entry.is_stopping told.entry.counted.now told.entry.config.now told.entry.page.now told.entry.page_fields.now) }
{
    match route {
        Route::Close | Route::Reopen => json(200, "OK", "{}"),
        Route::Metrics => AdminPage {
            status: 200,
            reason: "OK",
            media: "text/plain; version=0.0.4; charset=utf-8",
            body: told.counted,
        },
        Route::Health => health_page(told.is_stopping),
        Route::Config => AdminPage {
            status: 200,
            reason: "OK",
            media: "application/toml",
            body: told.config,
        },
        Route::Status | Route::Decisions | Route::Trace(_) => AdminPage {
            status: 200,
            reason: "OK",
            media: "application/json",
            body: told.counted,
        },
        Route::Page => AdminPage {
            status: 200,
            reason: "OK",
            media: "text/html; charset=utf-8",
            body: told.page,
        },
        Route::Forbidden => json(403, "Forbidden", "{\"message\":\"forbidden\"}"),
        Route::NotFound => json(404, "Not Found", "{\"message\":\"not found\"}"),
        Route::WrongMethod(_) => json(
            405,
            "Method Not Allowed",
            "{\"message\":\"method not allowed\"}",
        ),
        Route::Bad => json(400, "Bad Request", "{\"message\":\"bad request\"}"),
        Route::TooLarge => json(
            431,
            "Request Header Fields Too Large",
            "{\"message\":\"head too large\"}",
        ),
    }
}

/// A body of JSON.
fn json(status: u16, reason: &'static str, body: &'static str) -> AdminPage<'static>
    ensures { page result.status result.reason.now result.media.now result.body.now ≡ page status reason.now (codes "application/json") body.now }
{
    AdminPage {
        status,
        reason,
        media: "application/json",
        body,
    }
}

/// Whether the collector takes requests.
fn health_page(is_stopping: bool) -> AdminPage<'static>
    ensures { page result.status result.reason.now result.media.now result.body.now ≡ health_page is_stopping }
{
    if is_stopping {
        return AdminPage {
            status: 503,
            reason: "Service Unavailable",
            media: "text/plain",
            body: "closing\n",
        };
    }
    AdminPage {
        status: 200,
        reason: "OK",
        media: "text/plain",
        body: "ok\n",
    }
}

/// The fields that an answer has of its own.
fn own_fields<'a>(route: Route, told: Told<'a>) -> &'a str
    ensures { result.now ≡ own_fields route (state told.entry.is_stopping told.entry.counted.now told.entry.config.now told.entry.page.now told.entry.page_fields.now) }
{
    match route {
        Route::Page => told.page_fields,
        Route::WrongMethod(Method::Get) => "Allow: GET, HEAD\r\n",
        Route::WrongMethod(Method::Post) => "Allow: POST\r\n",
        _ => "",
    }
}

/// A page as an answer, without its body to `HEAD`.
fn page_text(
    alloc: Global,
    shown: &AdminPage<'_>,
    fields: &str,
    is_head: bool,
) -> Result<String, AllocError>
    ensures { IfOk result (λ text. string_bytes text ≡ page_text (page shown.now.status shown.now.reason.now shown.now.media.now shown.now.body.now) fields.now is_head) }
{
    let len = shown.body.len();
    let sent = sent_of(is_head, shown.body);
    joined(
        alloc,
        shown.status,
        shown.reason,
        shown.media,
        len,
        fields,
        sent,
    )
}

/// What is sent of a body.
fn sent_of(is_head: bool, body: &str) -> &str
    ensures { result.now ≡ sent_of is_head body.now }
{
    if is_head { "" } else { body }
}

/// An answer from its parts.
fn joined(
    alloc: Global,
    status: u16,
    reason: &str,
    media: &str,
    len: usize,
    fields: &str,
    sent: &str,
) -> Result<String, AllocError>
    ensures { IfOk result (λ text. string_bytes text ≡ joined status reason.now media.now len fields.now sent.now) }
{
    format!(in alloc;
        "HTTP/1.1 {status} {reason}\r\nContent-Type: {media}\r\nContent-Length: {len}\r\n{fields}Connection: close\r\n\r\n{sent}"
    )
}
