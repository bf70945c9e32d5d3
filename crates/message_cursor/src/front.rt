//! The field at the front of some bytes, where it is the one that is asked for, or none that comes before it.
ghost use Rattle.std.specs.Prelude.{◌≡◌, ◌<◌, ◌≤◌, ◌*◌, ◌+◌, length, IfSome, IfNone, Ok, List, get_or, option_map};
ghost use Rattle.std.specs.Bool.{OnTrue};
ghost use Rattle.protobuf_wire.specs.Wire.{Field, varint, fixed64, bytes, fixed32, number, fields_of};
ghost use Rattle.protobuf_wire.specs.Seen.{seen, seen_field};
ghost use Rattle.message_cursor.specs.Walk.{Asked};
ghost use Rattle.message_cursor.specs.Front.{field, FirstIs, IsAbove};

use crate::number::number;
use crate::value::{behind_count, fixed32, fixed64, value_of};
use protobuf_wire::{WireField, WireValue};

/// The bytes behind a key of one byte: a number from 1 to 15, and a wire type.
#[inline(always)]
fn behind_key(sent: &[u8], wanted: u32, kind: u32) -> Option<&[u8]>
    requires { kind < 8 }
    ensures tag { IfSome result (λ rest. number sent.now ≡ Ok (8 * wanted + kind, rest.now)) }
    ensures low { IfSome result (λ _. 0 < wanted) }
    ensures high { IfSome result (λ _. wanted < 16) }
    ensures some { IfSome result (λ rest. length rest.now < length sent.now) }
{
    if wanted == 0 || wanted >= 16 || sent.len() == 0 {
        return None;
    }
    let key = sent[0] as u32;
    let tag = 8 * wanted + kind;
    if key == tag {
        return Some(&sent[1..]);
    }
    None
}

/// A number in the field at the front, where that has this number, and the bytes behind it.
#[inline(always)]
pub fn number_front(sent: &[u8], wanted: u32) -> Option<(u64, &[u8])>
    ensures { IfSome result (λ x. FirstIs sent.now (field wanted (varint x.0)) x.1.now) }
{
    let Some(rest) = behind_key(sent, wanted, 0) else {
        return None;
    };
    match number(rest) {
        Ok(read) => Some(read),
        Err(_fault) => None,
    }
}

/// The same of a `fixed64`.
#[inline(always)]
pub fn fixed64_front(sent: &[u8], wanted: u32) -> Option<(u64, &[u8])>
    ensures { IfSome result (λ x. FirstIs sent.now (field wanted (fixed64 x.0)) x.1.now) }
{
    let Some(rest) = behind_key(sent, wanted, 1) else {
        return None;
    };
    match fixed64(rest) {
        Ok(read) => Some(read),
        Err(_fault) => None,
    }
}

/// The same of counted bytes.
#[inline(always)]
pub fn bytes_front(sent: &[u8], wanted: u32) -> Option<(&[u8], &[u8])>
    ensures { IfSome result (λ x. FirstIs sent.now (field wanted (bytes x.0.now)) x.1.now) }
{
    let Some(rest) = behind_key(sent, wanted, 2) else {
        return None;
    };
    match behind_count(rest) {
        Ok(read) => Some(read),
        Err(_fault) => None,
    }
}

/// Whether the first field, whose tag is one byte, has a greater number.
#[inline(always)]
fn is_above(sent: &[u8], wanted: u32) -> bool
    requires { (0 < length sent.now) × (get_or sent.now 0 0 < 128) }
    ensures { OnTrue result (IsAbove wanted sent.now) }
{
    let found = (sent[0] / 8) as u32;
    if found > wanted {
        return true;
    }
    false
}

/// Whether no field of this number comes: none is left, or the first one has a greater number. Of longer tags only those of two
/// bytes are looked at.
#[inline(always)]
pub fn is_passed(sent: &[u8], wanted: u32) -> bool
    ensures { OnTrue result (IsAbove wanted sent.now) }
{
    if sent.len() == 0 {
        return true;
    }
    if sent[0] < 128 {
        return is_above(sent, wanted);
    }
    if wanted >= 16 || sent.len() < 2 {
        return false;
    }
    if sent[1] == 0 || sent[1] >= 128 {
        return false;
    }
    true
}

/// The field at the front, unless its number is greater, and the bytes behind it.
fn first_below(sent: &[u8], wanted: u32) -> Option<(WireField<'_>, &[u8])>
    ensures first { IfSome result (λ x. FirstIs sent.now (seen_field x.0) x.1.now) }
    ensures low { IfSome result (λ x. x.0.number ≤ wanted) }
    ensures none { IfNone result (IsAbove wanted sent.now) }
{
    if sent.len() == 0 {
        return None;
    }
    let (tag, rest) = match number(sent) {
        Ok(read) => read,
        Err(_fault) => return None,
    };
    let found = tag / 8;
    if found > wanted as u64 {
        return None;
    }
    if found == 0 {
        return None;
    }
    if found >= 0x2000_0000 {
        return None;
    }
    match value_of(rest, tag % 8) {
        Ok((value, behind)) => Some((
            WireField {
                number: found as u32,
                value,
            },
            behind,
        )),
        Err(_fault) => None,
    }
}

/// What the first field of this number holds, and the bytes behind it; or those from the first field of a greater number on.
#[inline(never)]
pub fn seek(sent: &[u8], wanted: u32) -> (Option<WireValue<'_>>, &[u8])
    ensures asked { (fs : List Field) → fields_of sent.now ≡ Ok fs → Asked (λ v. v) wanted fs (option_map seen result.0) result.1.now }
    ensures shorter { IfSome result.0 (λ _. length result.1.now < length sent.now) }
{
    let mut rest = sent;
    'fields: while let Some((field, behind)) = first_below(rest, wanted) {
        rest = behind;
        if field.number == wanted {
            return (Some(field.value), rest);
        }
    }
    (None, rest)
}
