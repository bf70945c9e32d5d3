//! Numbers at the front of bytes.
ghost use Rattle.std.specs.Prelude.{◌≡◌, ◌≤◌};
ghost use Rattle.journal_entry.specs.Reading.{byte_at, number_at, short_number_at, mark_at};
ghost use Rattle.journal_entry.specs.Seen.{SeenAs};

use crate::error::EntryError;

/// One byte, and those behind it.
pub(crate) fn byte_at(bytes: &[u8]) -> Result<(u8, &[u8]), EntryError>
    ensures { SeenAs (λ x. (x.0, x.1.now)) result (byte_at bytes.now) }
{
    match bytes {
        [] => Err(EntryError::Short),
        [byte, left @ ..] => Ok((*byte, left)),
    }
}

/// A number of 64 bits, and the bytes behind it.
pub(crate) fn number_at(bytes: &[u8]) -> Result<(u64, &[u8]), EntryError>
    ensures { SeenAs (λ x. (x.0, x.1.now)) result (number_at bytes.now) }
{
    if bytes.len() < 8 {
        return Err(EntryError::Short);
    }
    let number = u64::from_le_bytes([
        bytes[0], bytes[1], bytes[2], bytes[3], bytes[4], bytes[5], bytes[6], bytes[7],
    ]);
    Ok((number, &bytes[8..]))
}

/// A number of 16 bits, and the bytes behind it.
pub(crate) fn short_number_at(bytes: &[u8]) -> Result<(u16, &[u8]), EntryError>
    ensures { SeenAs (λ x. (x.0, x.1.now)) result (short_number_at bytes.now) }
{
    if bytes.len() < 2 {
        return Err(EntryError::Short);
    }
    Ok((u16::from_le_bytes([bytes[0], bytes[1]]), &bytes[2..]))
}

/// A mark, and the bytes behind it.
pub(crate) fn mark_at(bytes: &[u8]) -> Result<(bool, &[u8]), EntryError>
    ensures { SeenAs (λ x. (x.0, x.1.now)) result (mark_at bytes.now) }
{
    let (byte, left) = byte_at(bytes)?;
    if byte >= 2 {
        return Err(EntryError::Mark);
    }
    Ok((byte == 1, left))
}
