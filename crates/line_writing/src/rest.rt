//! What waits when nothing more is written.
ghost use Rattle.line_writing.specs.Turns.{TakesRest};

use crate::entry_source::EntrySource;
use std::sync::Wait;

/// Takes all that waits, and answers how many entries that were: none of them has a line.
pub fn take_rest<T: Drop, S: EntrySource<T>, R: Wait>(rt: &R, source: &mut S) -> u64
    ensures { TakesRest S.gives source.old source.new result }
{
    let mut lost: u64 = 0;
    for _ in rt.forever() {
        let Some(_entry) = source.take(rt) else {
            return lost;
        };
        lost = lost.saturating_add(1);
    }
    unreachable!()
}
