//! Lines that were made and wait to be written.
ghost use Rattle.std.specs.Prelude.{◌≡◌, ℕ, ◌≤◌, List, [], ◌++◌, length, take, nat_le, IfSome, IfNone};
ghost use Rattle.std.specs.Bool.{Decides, OnTrue, OnFalse};
ghost use Rattle.std.specs.Io.KnownBytes.{Appends};
ghost use Rattle.line_writing.specs.Waiting.{line_ends};

use crate::line_maker::LineMaker;
use std::alloc::Global;
use std::io::{ErrorKind, Write};
use std::marker::Model;

/// Once so many bytes of lines are made they are written before further ones are made.
const MOST_BYTES: usize = 262_144;

/// The most writes in a row.
const MOST_WRITES: u32 = 1_024;

/// Lines that were made, but for the bytes that were written.
#[derive(Drop)]
pub struct LinesToWrite {
    text: Vec<u8>,
}

impl Model for LinesToWrite {
    ghost use Rattle.std.specs.Prelude.{ℕ, List};

    ghost Value = { List ℕ };

    ghost view = { λ lines. lines.text.items };
}

impl LinesToWrite {
    /// No line.
    pub fn new(alloc: Global) -> Self
        ensures { result ≡ [] }
    {
        LinesToWrite {
            text: Vec::new(alloc),
        }
    }

    /// Whether there are enough to be written before further ones are made.
    pub fn is_full(&self) -> bool
        ensures { result ≡ nat_le 262144 (length self.now) }
    {
        self.text.len() >= MOST_BYTES
    }

    /// How many lines aren't written whole.
    pub fn left(&self) -> u64
        ensures { result ≡ line_ends self.now }
    {
        let mut lines: u64 = 0;
        for byte in &self.text {
            if *byte == b'\n' {
                lines += 1;
            }
        }
        lines
    }

    /// Puts the line of an entry behind what is left, and says whether it is put; where it isn't, nothing changed.
    pub fn put<T, L: LineMaker<T>>(&mut self, maker: &L, entry: &T) -> bool
        ensures put { OnTrue result ((line : List ℕ) × L.is_line maker.now entry.now line × (self.new ≡ self.old ++ line)) }
        ensures same { OnFalse result (self.new ≡ self.old) }
    {
        maker.put(&mut self.text, entry)
    }

    /// Writes what is left, and says whether the output took all of it: a rest is written later, so that no line is torn.
    pub fn write_to<W: Write>(&mut self, output: &mut W) -> bool
        ensures taken { (taken : List ℕ) × Appends (W.contents output.old) (W.contents output.new) taken × (self.old ≡ taken ++ self.new) }
        ensures whole { Decides result (self.new ≡ []) }
    {
        let written = write_some(output, self.text.as_slice());
        self.text.rotate_left(written);
        self.text.truncate(self.text.len() - written);
        self.text.is_empty()
    }
}

/// Writes until all of a text is taken, the output fails or takes nothing, or it was asked often enough, and answers how
/// many bytes were taken.
fn write_some<W: Write>(output: &mut W, text: &[u8]) -> usize
    ensures within { result ≤ length text.now }
    ensures taken { Appends (W.contents output.old) (W.contents output.new) (take result text.now) }
{
    let mut rest = text;
    for _ in 0..MOST_WRITES {
        if rest.is_empty() {
            break;
        }
        let Some(count) = write_once(output, rest) else {
            break;
        };
        rest = &rest[count..];
    }
    text.len() - rest.len()
}

/// Writes some of a text, and answers how many bytes were taken: none where the write was interrupted. `None`: the output
/// fails, or takes nothing.
fn write_once<W: Write>(output: &mut W, text: &[u8]) -> Option<usize>
    ensures within { IfSome result (λ count. count ≤ length text.now) }
    ensures taken { IfSome result (λ count. Appends (W.contents output.old) (W.contents output.new) (take count text.now)) }
    ensures none { IfNone result (Appends (W.contents output.old) (W.contents output.new) []) }
{
    match output.write(text) {
        Ok(0) => None,
        Ok(count) => Some(count),
        Err(error) if error.kind() == ErrorKind::Interrupted => Some(0),
        Err(_) => None,
    }
}
