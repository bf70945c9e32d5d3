//! The requests that are pending, as a script.
ghost use Rattle.std.specs.Prelude.{◌≡◌, IfOk, if◌then◌else◌};
ghost use Rattle.ledger_text.specs.Scripts.{IsScript};
ghost use Rattle.ledger_text.specs.Putting.{Puts, PutsJson};

use line_entries::TakenRequest;
use otlp_encoding::Encoding;
use request_show::{Shown, show};
use script_line::{LineFault, put_receive};
use std::alloc::{AllocError, Global};

/// The lines of requests.
#[derive(Drop)]
pub struct Script {
    pub lines: Vec<u8>,
    /// How many requests have no line: it would be longer than a script's may be.
    pub left_out: usize,
}

/// The lines of requests, one behind the other. `Err` only where memory was refused.
pub fn script_of(alloc: Global, requests: &[TakenRequest]) -> Result<Script, AllocError>
    ensures { IfOk result (λ script. IsScript requests.now script.lines.items script.left_out) }
{
    let mut lines = Vec::new(alloc);
    let mut left_out = 0;
    for request in requests {
        let has_line = put_line(&mut lines, alloc, request)?;
        left_out += left_by(has_line);
    }
    Ok(Script { lines, left_out })
}

/// How many requests are left out by one that has a line, or has none.
fn left_by(has_line: bool) -> usize
    ensures { result ≡ if has_line then 0 else 1 }
{
    if has_line { 0 } else { 1 }
}

/// Appends the line of a request, and says whether it has one. `Err` only where memory was refused.
fn put_line(lines: &mut Vec<u8>, alloc: Global, request: &TakenRequest) -> Result<bool, AllocError>
    ensures { IfOk result (Puts request.now lines.old.items lines.new.items) }
{
    match request.encoding {
        Encoding::Json => put_body(lines, request, request.text.as_slice()),
        Encoding::Protobuf => put_protobuf(lines, alloc, request),
    }
}

/// Appends the line of a request whose body is this JSON, and says whether it isn't too long.
fn put_body(lines: &mut Vec<u8>, request: &TakenRequest, json: &[u8]) -> Result<bool, AllocError>
    ensures { IfOk result (PutsJson request.now json.now lines.old.items lines.new.items) }
{
    match put_receive(lines, request.connection, request.moment, json) {
        Ok(()) => Ok(true),
        Err(LineFault::TooLong) => Ok(false),
        Err(LineFault::NoMemory) => Err(AllocError),
    }
}

/// Appends the line of a request in protobuf, whose JSON is what `tsc show` prints of it, and says whether it has one.
fn put_protobuf(
    lines: &mut Vec<u8>,
    alloc: Global,
    request: &TakenRequest,
) -> Result<bool, AllocError>
    requires { request.now.encoding ≡ Encoding.Protobuf }
    ensures { IfOk result (Puts request.now lines.old.items lines.new.items) }
{
    match show(alloc, request.text.as_slice())? {
        Shown::Line(line) => {
            let end = line.len().saturating_sub(1);
            put_body(lines, request, &line[..end])
        }
        Shown::Refused(_) => Ok(false),
    }
}
