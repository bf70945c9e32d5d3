//! A request and its answer on a stream.
ghost use Rattle.std.specs.Prelude.{◌++◌};
ghost use Rattle.post_http.specs.Exchanges.{Posts, Puts, Takes, Answers};

use crate::answer::{BackendResponse, FoundResponse, Posted};
use crate::reading::found;
use std::alloc::Global;
use std::io::{ErrorKind, Read, Write};

/// A read gives so many bytes at most.
const PIECE_LIMIT: usize = 4096;

/// An answer takes so many bytes at most, its interim ones, its head and its body together.
pub const ANSWER_LIMIT: usize = 65_536;

/// Whether it was waited long enough.
pub trait Patience {
    /// Whether an answer that isn't whole is to be given up.
    fn is_over(&self) -> bool;
}

/// What a read brought.
#[derive(Clone, Copy, PartialEq, Eq)]
pub enum Piece {
    /// Some bytes.
    More,
    /// The input's end.
    End,
    /// Nothing: it was interrupted.
    Interrupted,
    /// It failed or timed out, or there was no memory for what it gave.
    Failed,
}

/// Writes a request whole, and reads its answer: an interim answer is passed over, and what comes in place of an
/// answer, is too long, or breaks off, is none. Where a write fails nothing is read.
pub fn post<R: Read, W: Write, P: Patience>(
    alloc: Global,
    reader: &mut R,
    writer: &mut W,
    patience: &P,
    head: &[u8],
    body: &[u8],
) -> Posted
    ensures { Posts (R.remaining reader.old) (R.remaining reader.new) (W.contents writer.old) (W.contents writer.new) head.now body.now result }
{
    if !write_both(writer, head, body) {
        return Posted::Unsent;
    }
    match answer_on(alloc, reader, patience) {
        Some(answer) => Posted::Answered(answer),
        None => Posted::Unanswered,
    }
}

/// Writes the whole text, unless a write fails or takes nothing.
fn write_text<W: Write>(writer: &mut W, text: &[u8]) -> bool
    ensures { Puts (W.contents writer.old) (W.contents writer.new) text.now result }
{
    let mut at = 0;
    while at < text.len() {
        match writer.write(&text[at..]) {
            Ok(n) if n > 0 => at += n,
            _ => return false,
        }
    }
    true
}

/// Writes two texts, one behind the other, unless a write fails or takes nothing.
fn write_both<W: Write>(writer: &mut W, first: &[u8], second: &[u8]) -> bool
    ensures { Puts (W.contents writer.old) (W.contents writer.new) (first.now ++ second.now) result }
{
    if !write_text(writer, first) {
        return false;
    }
    write_text(writer, second)
}

/// Reads until an answer is whole.
fn answer_on<R: Read, P: Patience>(
    alloc: Global,
    reader: &mut R,
    patience: &P,
) -> Option<BackendResponse>
    ensures { Answers (R.remaining reader.old) (R.remaining reader.new) result }
{
    let mut came = Vec::new(alloc);
    for _ in 0..ANSWER_LIMIT {
        let piece = take_piece(reader, &mut came);
        if piece == Piece::Interrupted {
            continue;
        }
        if piece == Piece::Failed || came.len() > ANSWER_LIMIT {
            return None;
        }
        match found(alloc, &came, piece == Piece::End) {
            Ok(FoundResponse::Whole(answer)) => return Some(answer),
            Ok(FoundResponse::More) if piece == Piece::More && !patience.is_over() => {}
            _ => return None,
        }
    }
    None
}

/// Puts what a read gives behind what came so far.
fn take_piece<R: Read>(reader: &mut R, came: &mut Vec<u8>) -> Piece
    ensures { Takes (R.remaining reader.old) (R.remaining reader.new) came.old.items came.new.items result }
{
    let mut piece = [0; PIECE_LIMIT];
    match reader.read(&mut piece) {
        Ok(0) => Piece::End,
        Ok(n) => {
            if came.extend_from_slice(&piece[..n]).is_ok() {
                Piece::More
            } else {
                Piece::Failed
            }
        }
        Err(error) if error.kind() == ErrorKind::Interrupted => Piece::Interrupted,
        Err(_) => Piece::Failed,
    }
}
