//! The limiter's answers at the front of bytes.
ghost use Rattle.std.specs.Prelude.{◌≡◌};
ghost use Rattle.journal_entry.specs.Reading.{decisions_at};
ghost use Rattle.journal_entry.specs.Seen.{SeenOrRefused};

use crate::error::EntryError;
use otlp_types::List;
use std::alloc::Global;
use std::mem;

/// The answers to each decision, in order, and the bytes behind them.
pub(crate) fn decisions_at(
    alloc: Global,
    bytes: &[u8],
) -> Result<(List<List<bool>>, &[u8]), EntryError>
    ensures { SeenOrRefused (λ x. (x.0, x.1.now)) result (decisions_at bytes.now) }
{
    let mut decisions = List::new(alloc);
    let mut answers = List::new(alloc);
    for i in 0..bytes.len() {
        match bytes[i] {
            0 => answers.push(false)?,
            1 => answers.push(true)?,
            2 => decisions.push(mem::replace(&mut answers, List::new(alloc)))?,
            3 => {
                if answers.is_empty() {
                    return Ok((decisions, &bytes[i + 1..]));
                }
                return Err(EntryError::Answer);
            }
            _ => return Err(EntryError::Answer),
        }
    }
    Err(EntryError::Short)
}
