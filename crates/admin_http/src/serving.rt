//! One connection.
ghost use Rattle.std.specs.Prelude.{◌≡◌, ◌<◌, ◌≤◌, ℕ, List, Bool, true, false, IfOk, length, string_bytes};
ghost use Rattle.admin_http.specs.Serving.{Answers, Hears, IsMade, Puts, Responds, Served, Takes, asked_to_close, asked_to_reopen, closes, is_counted, quiet_after, reopens, was_harmless};
ghost use Rattle.admin_http.specs.declared.asked.Access.TheVariants.{Numbers};

use crate::admin::Admin;
use crate::asked::{Access, AdminRequest, Route};
use crate::ends::{AdminEnd, PIECE_LIMIT, PieceRead, Portion, QUIET_LIMIT, READ_LIMIT, Silence};
use crate::head::heard;
use crate::texts::{Told, answer};
use std::alloc::{AllocError, Global};
use std::io::{ErrorKind, Read, Write};

/// Writes the whole text, unless a write fails.
fn write_text<W: Write>(writer: &mut W, text: &[u8]) -> Portion
    ensures puts { Puts (W.contents writer.old) (W.contents writer.new) text.now result }
    ensures made { IsMade result }
{
    let mut at = 0;
    while at < text.len() {
        match writer.write(&text[at..]) {
            Ok(n) if n > 0 => at += n,
            _ => return Portion::Part,
        }
    }
    Portion::Whole
}

/// Whether a route asks the collector to close.
fn closes(route: Route) -> bool
    ensures { result ≡ closes route }
{
    matches!(route, Route::Close)
}

/// Whether a route asks the collector to open its output anew.
fn reopens(route: Route) -> bool
    ensures { result ≡ reopens route }
{
    matches!(route, Route::Reopen)
}

/// The text of what the collector has counted, where a route asks for that.
fn counted_text<A: Admin>(alloc: Global, admin: &A, route: Route) -> Result<String, AllocError>
    ensures { IfOk result (λ text. is_counted route ≡ true → A.tells admin.now route (string_bytes text)) }
{
    match route {
        Route::Metrics => admin.metrics(alloc),
        Route::Status => admin.status(alloc),
        Route::Decisions => admin.decisions(alloc),
        Route::Trace(id) => admin.trace(alloc, id),
        _ => Ok(String::new(alloc)),
    }
}

/// The answer to a request. To one that asks the collector to close, or to open its output anew, that it was asked to.
fn answer_from<A: Admin>(
    alloc: Global,
    admin: &A,
    asked: AdminRequest,
) -> Result<String, AllocError>
    requires closed { closes asked.route ≡ true → A.is_closed admin.now ≡ true }
    requires reopened { reopens asked.route ≡ true → A.is_reopened admin.now ≡ true }
    ensures { IfOk result (λ text. Answers (A.stops admin.now) (A.tells admin.now) (A.texts admin.now) asked (string_bytes text)) }
{
    let is_stopping = admin.is_stopping();
    let counted = counted_text(alloc, admin, asked.route)?;
    let told = Told {
        is_stopping,
        counted: counted.as_str(),
        config: admin.config(),
        page: admin.page(),
        page_fields: admin.page_fields(),
    };
    answer(alloc, asked, told)
}

/// Answers a request. Where it asks the collector to close, or to open its output anew, the collector is asked before any
/// byte of the answer is written.
fn respond<W: Write, A: Admin>(
    alloc: Global,
    writer: &mut W,
    admin: &mut A,
    asked: AdminRequest,
) -> Portion
    ensures responds { Responds (A.stops admin.new) (A.tells admin.new) (A.texts admin.new) (W.contents writer.old) (W.contents writer.new) asked result }
    ensures closed { closes asked.route ≡ true → A.is_closed admin.new ≡ true }
    ensures reopened { reopens asked.route ≡ true → A.is_reopened admin.new ≡ true }
    ensures kept { closes asked.route ≡ false → reopens asked.route ≡ false → admin.new ≡ admin.old }
{
    if closes(asked.route) {
        admin.close();
    } else if reopens(asked.route) {
        admin.reopen();
    }
    match answer_from(alloc, admin, asked) {
        Ok(text) => write_text(writer, text.as_bytes()),
        Err(_) => Portion::Nothing,
    }
}

/// Puts what a read gives behind what was read so far.
fn take_piece<R: Read>(reader: &mut R, read: &mut Vec<u8>) -> PieceRead
    ensures { Takes (R.remaining reader.old) (R.remaining reader.new) read.old.items read.new.items result }
{
    let mut piece = [0; PIECE_LIMIT];
    match reader.read(&mut piece) {
        Ok(0) => PieceRead::End,
        Ok(n) => {
            if read.extend_from_slice(&piece[..n]).is_ok() {
                PieceRead::More
            } else {
                PieceRead::NoRoom
            }
        }
        Err(error) => match error.kind() {
            ErrorKind::WouldBlock | ErrorKind::TimedOut => PieceRead::Nothing,
            ErrorKind::Interrupted => PieceRead::Interrupted,
            _ => PieceRead::Failed,
        },
    }
}

/// How many reads gave nothing for now, with one more behind these, or why that ends the connection.
fn quiet_after(quiet: u64, is_stopping: bool) -> Result<u64, Silence>
    ensures { result ≡ quiet_after quiet is_stopping }
{
    if is_stopping {
        return Err(Silence::Stopped);
    }
    let quiet = quiet.saturating_add(1);
    if quiet < QUIET_LIMIT {
        Ok(quiet)
    } else {
        Err(Silence::Quiet)
    }
}

/// Reads until a head is whole.
fn hear<R: Read, A: Admin>(
    alloc: Global,
    access: Access,
    reader: &mut R,
    admin: &A,
) -> Result<AdminRequest, Silence>
    ensures { Hears access (R.remaining reader.old) (R.remaining reader.new) result }
{
    let mut read = Vec::new(alloc);
    let mut quiet = 0;
    for _ in 0..READ_LIMIT {
        match take_piece(reader, &mut read) {
            PieceRead::More => {
                if let Some(asked) = heard(access, &read) {
                    return Ok(asked);
                }
            }
            PieceRead::Nothing => quiet = quiet_after(quiet, admin.is_stopping())?,
            PieceRead::Interrupted => {}
            PieceRead::Failed => return Err(Silence::ReadFault),
            PieceRead::End => return Err(Silence::Cut),
            PieceRead::NoRoom => return Err(Silence::NoMemory),
        }
    }
    Err(Silence::Reads)
}

/// Serves one connection: reads until the head of a request is whole, answers it once, by one write where the writer
/// takes it whole, and ends. Where no head gets whole nothing is written. What may be asked for, `access` says: any other
/// target isn't found. A request to close, or to open the output anew, is passed to `admin` before its answer is
/// written, and also where that can't be written.
pub fn serve<R: Read, W: Write, A: Admin>(
    alloc: Global,
    access: Access,
    reader: &mut R,
    writer: &mut W,
    admin: &mut A,
) -> AdminEnd
    ensures served { Served access (A.stops admin.new) (A.tells admin.new) (A.texts admin.new)
        (R.remaining reader.old) (R.remaining reader.new) (W.contents writer.old) (W.contents writer.new) result }
    ensures closed { asked_to_close result ≡ true → A.is_closed admin.new ≡ true }
    ensures reopened { asked_to_reopen result ≡ true → A.is_reopened admin.new ≡ true }
    ensures kept { asked_to_close result ≡ false → asked_to_reopen result ≡ false → admin.new ≡ admin.old }
    ensures numbers { access ≡ Numbers → was_harmless result ≡ true }
{
    match hear(alloc, access, reader, admin) {
        Ok(asked) => AdminEnd::Heard(asked, respond(alloc, writer, admin, asked)),
        Err(silence) => AdminEnd::Unheard(silence),
    }
}
