//! What the bytes hold that came behind a request.
ghost use Rattle.std.specs.Prelude.{◌≡◌, ◌≤◌, ◌-◌, IfOk, length, drop};
ghost use Rattle.http1.specs.Client.{new_client};
ghost use Rattle.post_http.specs.Answers.{limits, LeadsTo, HeadsIn, IsFoundIn, BodyIn};

use crate::answer::{BackendResponse, FoundResponse};
use crate::request::asked;
use crate::wait::wait_in;
use http1::{Client, Event, Progress, WriteError};
use httparse::spans::EMPTY_HEADER_SPAN;
use std::alloc::{AllocError, Global};

/// A head has so many fields at most.
pub const FIELD_LIMIT: usize = 64;

/// So many heads stand in front of a body at most, the interim ones among them.
pub const INTERIM_LIMIT: usize = 8;

/// A body has so many bytes at most.
const BODY_LIMIT: usize = 65_536;

/// A client behind the head of a final answer, which ends at this byte.
#[derive(Drop)]
pub struct Headed {
    pub client: Client,
    pub at: usize,
    pub status: u16,
    pub retry_after: Option<u64>,
}

/// What stands at the front of the bytes.
#[derive(Drop)]
pub enum Heads {
    /// The head of a final answer, perhaps behind interim ones.
    Final(Headed),
    /// Less than that.
    More,
    /// No head, whatever comes.
    Broken,
    /// As many interim heads as heads may be.
    TooMany,
}

/// What these bytes hold, that came behind a request, where the peer has closed its side or not.
pub fn found(alloc: Global, bytes: &[u8], is_ended: bool) -> Result<FoundResponse, AllocError>
    ensures { IfOk result (IsFoundIn bytes.now) }
{
    let client = match asked(alloc) {
        Ok(client) => client,
        Err(WriteError::OutOfMemory) => return Err(AllocError),
        Err(_) => return Ok(FoundResponse::Broken),
    };
    match heads_in(client, bytes) {
        Heads::Final(headed) => body_in(alloc, headed, bytes, is_ended),
        Heads::More => Ok(FoundResponse::More),
        Heads::Broken | Heads::TooMany => Ok(FoundResponse::Broken),
    }
}

/// The bytes from this one on.
fn behind(bytes: &[u8], at: usize) -> &[u8]
    requires { at ≤ length bytes.now }
    ensures rest { result.now ≡ drop at bytes.now }
    ensures len { length result.now ≡ length bytes.now - at }
{
    &bytes[at..]
}

/// Reads heads up to that of a final answer.
fn heads_in(client: Client, bytes: &[u8]) -> Heads
    requires { LeadsTo (new_client limits) client }
    ensures { HeadsIn bytes.now result }
{
    let mut client = client;
    let mut spans = [EMPTY_HEADER_SPAN; FIELD_LIMIT];
    let mut at = 0;
    for heads in 0..INTERIM_LIMIT {
        let rest = behind(bytes, at);
        let Ok(Progress { consumed, event }) = client.read(rest, &mut spans) else {
            return Heads::Broken;
        };
        match event {
            Event::Informational(_) => at += consumed,
            Event::Head(head) => {
                return Heads::Final(Headed {
                    client,
                    at: at + consumed,
                    status: head.code,
                    retry_after: wait_in(rest, &spans[..head.headers]),
                });
            }
            Event::NeedMore => return Heads::More,
            _ => return Heads::Broken,
        }
    }
    Heads::TooMany
}

/// Reads the body behind a head.
fn body_in(
    alloc: Global,
    headed: Headed,
    bytes: &[u8],
    is_ended: bool,
) -> Result<FoundResponse, AllocError>
    requires { headed.at ≤ length bytes.now }
    ensures { IfOk result (BodyIn headed bytes.now) }
{
    let Headed {
        client,
        at,
        status,
        retry_after,
    } = headed;
    let mut client = client;
    let mut body = Vec::new(alloc);
    let mut spans = [EMPTY_HEADER_SPAN; FIELD_LIMIT];
    let mut at = at;
    for _ in 0..=BODY_LIMIT {
        let rest = behind(bytes, at);
        let Ok(Progress { consumed, event }) = client.read(rest, &mut spans) else {
            return Ok(FoundResponse::Broken);
        };
        match event {
            Event::Data(piece) => {
                body.extend_from_slice(piece.of(rest))?;
                at += consumed;
            }
            Event::End(_) => {
                let keeps = client.is_idle() && consumed == rest.len();
                return Ok(FoundResponse::Whole(BackendResponse {
                    status,
                    retry_after,
                    body,
                    keeps,
                }));
            }
            Event::NeedMore => {
                if is_ended && matches!(client.read_eof(), Ok(Event::End(_))) {
                    return Ok(FoundResponse::Whole(BackendResponse {
                        status,
                        retry_after,
                        body,
                        keeps: false,
                    }));
                }
                return Ok(FoundResponse::More);
            }
            _ => return Ok(FoundResponse::Broken),
        }
    }
    Ok(FoundResponse::Broken)
}
