//! The lines of a script.
ghost use Rattle.std.specs.Prelude.{◌≡◌, ◌≢◌, ℕ, ◌+◌, ◌-◌, ◌^◌, ◌<◌, ◌≤◌, ◌++◌, ◌∷◌, List, [], length, take, drop, vec_len, vec_capacity, slice_index};
ghost use Rattle.std.specs.Io.KnownBytes.{IsAtEnd};
ghost use Rattle.tsc_script.specs.Reads.{SourceTurn, bytes_given, Gives};
ghost use Rattle.tsc_script.specs.ToRead.{BufferState, CountsReads, ReadsLine};
ghost use Rattle.tsc_script.specs.Lines.{HasNoLineFeed};

use crate::buffer::{ReadBuffer, Refill};
use crate::limits::MAX_LINE_BYTES;
use crate::reads::ScriptSource;
use memchr::memchr;
use std::alloc::Allocator;

/// How a line ended.
#[derive(Clone, Copy, PartialEq, Eq, Drop)]
pub(crate) enum LineEnd {
    /// A line feed stands behind it.
    LineFeed,
    /// The input ended.
    Input,
    /// It is too long.
    TooLong,
    /// The reader failed, or the last read that may be made has been made.
    Fault,
}

/// Reads the next line into a vector with room for it. Where the line is too long, its first part is used up.
pub(crate) fn read_line<R: ScriptSource, A: Allocator, B: Allocator>(
    reader: &mut R,
    buffer: &mut ReadBuffer<A>,
    line: &mut Vec<u8, B>,
) -> LineEnd
    requires { MAX_LINE_BYTES ≤ vec_capacity line.old }
    ensures room { MAX_LINE_BYTES ≤ vec_capacity line.new }
    ensures plain { HasNoLineFeed line.new.items × (vec_len line.new ≤ MAX_LINE_BYTES) }
    ensures turns { (turns : List SourceTurn) × Gives (R.given reader.old) (R.given reader.new) turns
        × CountsReads buffer.old.reads buffer.new.reads turns
        × ReadsLine result (buffer.old.bytes ++ bytes_given turns) line.new.items buffer.new.bytes buffer.new.reads turns }
    ensures end { result ≡ LineEnd.Input → IsAtEnd (R.given reader.new).left }
{
    line.clear();
    'line: loop {
        match take_part(buffer, line) {
            LinePart::Ended => return LineEnd::LineFeed,
            LinePart::TooLong => return LineEnd::TooLong,
            LinePart::Open => match buffer.refill(reader) {
                Refill::More => {}
                Refill::End => return LineEnd::Input,
                Refill::Fault => return LineEnd::Fault,
            },
        }
    }
}

/// What came of a line.
#[derive(Clone, Copy, PartialEq, Eq, Drop)]
enum LinePart {
    /// All of it, and its line feed.
    Ended,
    /// All that the buffer had, with no line feed.
    Open,
    /// More than a line may have.
    TooLong,
}

/// Moves bytes from the buffer to the end of the line.
fn take_part<A: Allocator, B: Allocator>(
    buffer: &mut ReadBuffer<A>,
    line: &mut Vec<u8, B>,
) -> LinePart
    requires room { MAX_LINE_BYTES ≤ vec_capacity line.old }
    requires short { vec_len line.old ≤ MAX_LINE_BYTES }
    ensures room { MAX_LINE_BYTES ≤ vec_capacity line.new }
    ensures short { vec_len line.new ≤ MAX_LINE_BYTES }
    ensures reads { buffer.new.reads ≡ buffer.old.reads }
    ensures ended { result ≡ LinePart.Ended → (part : List ℕ) × HasNoLineFeed part
        × (line.new.items ≡ line.old.items ++ part)
        × (buffer.old.bytes ≡ part ++ 10 ∷ buffer.new.bytes) }
    ensures open { result ≡ LinePart.Open → HasNoLineFeed buffer.old.bytes
        × (line.new.items ≡ line.old.items ++ buffer.old.bytes) × (buffer.new.bytes ≡ []) }
    ensures too_long { result ≡ LinePart.TooLong → (part : List ℕ) × HasNoLineFeed part
        × (MAX_LINE_BYTES < vec_len line.old + length part)
        × (line.new.items ≡ line.old.items) × (buffer.old.bytes ≡ part ++ buffer.new.bytes) }
{
    let bytes = buffer.bytes();
    let count = bytes.len();
    let length = length_of_line(bytes);
    // A line has room for all that it may have.
    if length > MAX_LINE_BYTES - line.len() || line.extend_from_slice(&bytes[..length]).is_err() {
        buffer.consume(length);
        return LinePart::TooLong;
    }
    if length < count {
        buffer.consume(length + 1);
        LinePart::Ended
    } else {
        buffer.consume(length);
        LinePart::Open
    }
}

/// How many bytes stand before the first line feed.
fn length_of_line(bytes: &[u8]) -> usize
    ensures within { result ≤ length bytes.now }
    ensures plain { HasNoLineFeed (take result bytes.now) }
    ensures line_feed { result < length bytes.now → slice_index bytes.now result ≡ 10 }
{
    match memchr(b'\n', bytes) {
        Some(at) => at,
        None => bytes.len(),
    }
}
