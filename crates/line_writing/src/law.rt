//! The law that turns write all that was taken, in order.
ghost use Rattle.line_writing.specs.Turns.{TurnsWriteAll};

use crate::entry_source::EntrySource;
use crate::line_maker::LineMaker;

/// What an output took in any number of turns, and then what is left, are what was left before them and then the lines of
/// all entries that were taken, in order, but for those that were counted as lost.
pub fn turns_write_all<T, S: EntrySource<T>, L: LineMaker<T>>()
    ensures { (maker : L) → TurnsWriteAll S.gives (L.is_line maker) }
{}
