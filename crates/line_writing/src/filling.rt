//! Entries that wait become lines.
ghost use Rattle.line_writing.specs.Filling.{Fills};

use crate::entry_source::EntrySource;
use crate::line_maker::LineMaker;
use crate::lines_to_write::LinesToWrite;
use std::sync::Wait;

/// At most so many entries are taken before lines are written.
const MOST_ENTRIES: u64 = 65_536;

/// What became of entries that waited.
#[derive(Clone, Copy, PartialEq, Eq)]
pub struct Filled {
    /// Whether some may wait still.
    pub may_wait: bool,
    /// How many have no line.
    pub lost: u64,
}

/// Makes lines of what waits, until there are enough to be written or none waits. Of each entry that is taken the line
/// stands behind those of the ones that were taken before it, or it is counted as lost.
pub fn fill<T: Drop, S: EntrySource<T>, L: LineMaker<T>, R: Wait>(
    rt: &R,
    lines: &mut LinesToWrite,
    source: &mut S,
    maker: &L,
) -> Filled
    ensures { Fills S.gives (L.is_line maker.now) source.old source.new lines.old lines.new result.may_wait result.lost }
{
    let mut lost = 0;
    for _ in 0..MOST_ENTRIES {
        if lines.is_full() {
            break;
        }
        let Some(entry) = source.take(rt) else {
            return Filled {
                may_wait: false,
                lost,
            };
        };
        if !lines.put(maker, &entry) {
            lost += 1;
        }
    }
    Filled {
        may_wait: true,
        lost,
    }
}
