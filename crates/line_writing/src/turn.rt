//! One turn of what writes lines.
ghost use Rattle.line_writing.specs.Turns.{WritesTurn};

use crate::entry_source::EntrySource;
use crate::filling::fill;
use crate::line_maker::LineMaker;
use crate::lines_to_write::LinesToWrite;
use std::io::Write;
use std::sync::Wait;

/// What a turn did.
#[derive(Clone, Copy, PartialEq, Eq)]
pub struct Turn {
    /// Whether all that was made is written, and more entries may wait.
    pub goes_on: bool,
    /// How many entries have no line.
    pub lost: u64,
}

/// Makes lines of what waits, until there are enough to be written or none waits, and writes them. What the output took,
/// and then what is left, are what was left before and then the lines of the entries that were taken.
pub fn write_turn<T: Drop, S: EntrySource<T>, L: LineMaker<T>, W: Write, R: Wait>(
    rt: &R,
    lines: &mut LinesToWrite,
    source: &mut S,
    maker: &L,
    output: &mut W,
) -> Turn
    ensures { WritesTurn S.gives (L.is_line maker.now)
        (record { source = source.old; left = lines.old; output = W.contents output.old })
        (record { source = source.new; left = lines.new; output = W.contents output.new }) result.goes_on result.lost }
{
    let filled = fill(rt, lines, source, maker);
    let is_written = lines.write_to(output);
    Turn {
        goes_on: is_written && filled.may_wait,
        lost: filled.lost,
    }
}
