//! Fields of a message.

ghost use Rattle.std.specs.Prelude.{◌≡◌, ◌<◌, ◌≤◌, ◌^◌, length, IfOk};
ghost use Rattle.protobuf_wire.specs.Wire.{value_of, field_of, next_field, fixed, behind_count, counted};
ghost use Rattle.protobuf_wire.specs.Seen.{seen, seen_field, SeenAs, Steps, TakesFirst};

use crate::fault::WireFault;
use crate::number::number;
use std::marker::Model;

/// What a field holds. The bytes of a text, of a message and the like stand where they were sent.
#[derive(Clone, Copy)]
pub enum WireValue<'a> {
    /// A number of at most 64 bits ("VARINT"): of an `int32`, `uint64`, `bool` or an enumeration.
    Varint(u64),
    /// Eight bytes, the first lowest ("I64"): of a `fixed64` or a `double`.
    Fixed64(u64),
    /// Bytes behind their count ("LEN"): of a `string`, of `bytes`, or of a message.
    Bytes(&'a [u8]),
    /// Four bytes, the first lowest ("I32"): of a `fixed32` or a `float`.
    Fixed32(u32),
}

/// A field of a message.
#[derive(Clone, Copy)]
pub struct WireField<'a> {
    /// From 1 to 2^29 - 1.
    pub number: u32,
    pub value: WireValue<'a>,
}

/// The first `count` bytes, and those behind them.
#[inline(always)]
fn counted(bytes: &[u8], count: u64) -> Result<(&[u8], &[u8]), WireFault>
    ensures { SeenAs (λ x. (x.0.now, x.1.now)) result (counted count bytes.now) }
{
    if count > bytes.len() as u64 {
        return Err(WireFault::Truncated);
    }
    Ok(bytes.split_at(count as usize))
}

/// Eight bytes, and those behind them.
#[inline(always)]
fn fixed64(bytes: &[u8]) -> Result<(u64, &[u8]), WireFault>
    ensures { SeenAs (λ x. (x.0, x.1.now)) result (fixed 8 bytes.now) }
{
    if bytes.len() < 8 {
        return Err(WireFault::Truncated);
    }
    let value = u64::from_le_bytes([
        bytes[0], bytes[1], bytes[2], bytes[3], bytes[4], bytes[5], bytes[6], bytes[7],
    ]);
    Ok((value, &bytes[8..]))
}

/// Four bytes, and those behind them.
#[inline(always)]
fn fixed32(bytes: &[u8]) -> Result<(u32, &[u8]), WireFault>
    ensures { SeenAs (λ x. (x.0, x.1.now)) result (fixed 4 bytes.now) }
{
    if bytes.len() < 4 {
        return Err(WireFault::Truncated);
    }
    let value = u32::from_le_bytes([bytes[0], bytes[1], bytes[2], bytes[3]]);
    Ok((value, &bytes[4..]))
}

/// Counted bytes, and those behind them.
#[inline(always)]
fn behind_count(bytes: &[u8]) -> Result<(&[u8], &[u8]), WireFault>
    ensures { SeenAs (λ x. (x.0.now, x.1.now)) result (behind_count bytes.now) }
{
    let (count, rest) = number(bytes)?;
    counted(rest, count)
}

/// The value of this wire type, and the bytes behind it.
#[inline(always)]
#[tactic(auto, unfolding(crate::specs::Wire::value_of))]
fn value_of(bytes: &[u8], kind: u64) -> Result<(WireValue<'_>, &[u8]), WireFault>
    ensures { SeenAs (λ x. (seen x.0, x.1.now)) result (value_of kind bytes.now) }
{
    match kind {
        0 => {
            let (value, rest) = number(bytes)?;
            Ok((WireValue::Varint(value), rest))
        }
        1 => {
            let (value, rest) = fixed64(bytes)?;
            Ok((WireValue::Fixed64(value), rest))
        }
        2 => {
            let (value, rest) = behind_count(bytes)?;
            Ok((WireValue::Bytes(value), rest))
        }
        5 => {
            let (value, rest) = fixed32(bytes)?;
            Ok((WireValue::Fixed32(value), rest))
        }
        3 | 4 => Err(WireFault::Group),
        _ => Err(WireFault::WireType),
    }
}

/// The field of this tag, and the bytes behind it.
#[inline(always)]
#[tactic(auto, unfolding(crate::specs::Wire::field_of))]
fn field_of(bytes: &[u8], tag: u64) -> Result<(WireField<'_>, &[u8]), WireFault>
    ensures { SeenAs (λ x. (seen_field x.0, x.1.now)) result (field_of tag bytes.now) }
{
    let number = tag / 8;
    if number == 0 || number >= 0x2000_0000 {
        return Err(WireFault::FieldNumber);
    }
    let (value, rest) = value_of(bytes, tag % 8)?;
    Ok((
        WireField {
            number: number as u32,
            value,
        },
        rest,
    ))
}

/// The field at the front, and the bytes behind it.
#[inline(always)]
#[tactic(auto, unfolding(crate::specs::Wire::next_field))]
fn next_field(bytes: &[u8]) -> Result<(WireField<'_>, &[u8]), WireFault>
    ensures { SeenAs (λ x. (seen_field x.0, x.1.now)) result (next_field bytes.now) }
{
    let (tag, rest) = number(bytes)?;
    field_of(rest, tag)
}

/// The fields of a message, one after another. A contract sees it as the bytes that are left.
#[derive(Drop)]
pub struct Fields<'a> {
    rest: &'a [u8],
}

impl<'a> Model for Fields<'a> {
    ghost use Rattle.std.specs.Prelude.{ℕ, List};

    ghost Value = { List ℕ };

    ghost view = { λ it. it.rest.now };
}

impl<'a> Fields<'a> {
    /// The fields of a message, before the first.
    #[inline(always)]
    pub fn of(message: &'a [u8]) -> Fields<'a>
        ensures { result ≡ message.now }
    {
        Fields { rest: message }
    }

    /// The next field, or `None` behind the last. Once it told a fault it tells the same again.
    #[inline(always)]
    pub fn next(&mut self) -> Result<Option<WireField<'a>>, WireFault>
        ensures first { TakesFirst self.old self.new result }
        ensures all { Steps self.old self.new result }
    {
        if self.rest.is_empty() {
            return Ok(None);
        }
        match next_field(self.rest) {
            Ok((field, rest)) => {
                self.rest = rest;
                Ok(Some(field))
            }
            Err(fault) => Err(fault),
        }
    }
}
