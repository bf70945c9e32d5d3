//! What a field holds, behind its tag.
ghost use Rattle.std.specs.Prelude.{◌≡◌, ◌<◌, length, IfOk};
ghost use Rattle.protobuf_wire.specs.Wire.{value_of, fixed, behind_count, counted};
ghost use Rattle.protobuf_wire.specs.Seen.{seen, SeenAs};

use crate::number::number;
use protobuf_wire::{WireFault, WireValue};

/// The first `count` bytes, and those behind them.
#[inline(always)]
fn counted(bytes: &[u8], count: u64) -> Result<(&[u8], &[u8]), WireFault>
    ensures { SeenAs (λ x. (x.0.now, x.1.now)) result (counted count bytes.now) }
{
    if count > bytes.len() as u64 {
        return Err(WireFault::Truncated);
    }
    Ok(bytes.split_at(count as usize))
}

/// Eight bytes, and those behind them.
#[inline(always)]
pub fn fixed64(bytes: &[u8]) -> Result<(u64, &[u8]), WireFault>
    ensures { SeenAs (λ x. (x.0, x.1.now)) result (fixed 8 bytes.now) }
{
    if bytes.len() < 8 {
        return Err(WireFault::Truncated);
    }
    let value = u64::from_le_bytes([
        bytes[0], bytes[1], bytes[2], bytes[3], bytes[4], bytes[5], bytes[6], bytes[7],
    ]);
    Ok((value, &bytes[8..]))
}

/// Four bytes, and those behind them.
#[inline(always)]
pub fn fixed32(bytes: &[u8]) -> Result<(u32, &[u8]), WireFault>
    ensures { SeenAs (λ x. (x.0, x.1.now)) result (fixed 4 bytes.now) }
{
    if bytes.len() < 4 {
        return Err(WireFault::Truncated);
    }
    let value = u32::from_le_bytes([bytes[0], bytes[1], bytes[2], bytes[3]]);
    Ok((value, &bytes[4..]))
}

/// Counted bytes, and those behind them.
#[inline(always)]
pub fn behind_count(bytes: &[u8]) -> Result<(&[u8], &[u8]), WireFault>
    ensures { SeenAs (λ x. (x.0.now, x.1.now)) result (behind_count bytes.now) }
{
    let (count, rest) = number(bytes)?;
    counted(rest, count)
}

/// The value of this wire type, and the bytes behind it.
#[tactic(auto, unfolding(protobuf_wire::specs::Wire::value_of))]
pub fn value_of(bytes: &[u8], kind: u64) -> Result<(WireValue<'_>, &[u8]), WireFault>
    ensures { SeenAs (λ x. (seen x.0, x.1.now)) result (value_of kind bytes.now) }
{
    match kind {
        0 => {
            let (value, rest) = number(bytes)?;
            Ok((WireValue::Varint(value), rest))
        }
        1 => {
            let (value, rest) = fixed64(bytes)?;
            Ok((WireValue::Fixed64(value), rest))
        }
        2 => {
            let (value, rest) = behind_count(bytes)?;
            Ok((WireValue::Bytes(value), rest))
        }
        5 => {
            let (value, rest) = fixed32(bytes)?;
            Ok((WireValue::Fixed32(value), rest))
        }
        3 | 4 => Err(WireFault::Group),
        _ => Err(WireFault::WireType),
    }
}
