//! The field at the front of some bytes.
ghost use Rattle.std.specs.Prelude.{◌≡◌, ◌≤◌, ◌<◌, IfOk, length, drop};
ghost use Rattle.protobuf_wire.specs.Seen.{seen, seen_field, SeenAs};
ghost use Rattle.protobuf_wire.specs.Wire.{next_field};
ghost use Rattle.request_show.specs.Front as spec;

use protobuf_wire::{Fields, WireFault, WireField, WireValue};

/// The field at the front of some bytes, and the bytes behind it.
#[tactic(auto, using(crate::proofs::Behind::is_behind))]
pub fn front_field(bytes: &[u8]) -> Result<(WireField<'_>, &[u8]), WireFault>
    requires { 0 < length bytes.now }
    ensures field { SeenAs (λ x. (seen_field x.0, x.1.now)) result (next_field bytes.now) }
    ensures less { IfOk result (λ x. length x.1.now ≤ length bytes.now) }
{
    let mut fields = Fields::of(bytes);
    match fields.next()? {
        Some(field) => Ok((field, behind_field(bytes, &field.value))),
        None => Err(WireFault::Truncated),
    }
}

/// The bytes behind a field at the front that holds this.
fn behind_field<'a>(bytes: &'a [u8], value: &WireValue<'_>) -> &'a [u8]
    ensures { result.now ≡ spec.behind_field bytes.now (seen value.now) }
{
    let rest = behind_number(bytes);
    match *value {
        WireValue::Varint(_) => behind_number(rest),
        WireValue::Fixed64(_) => behind(rest, 8),
        WireValue::Fixed32(_) => behind(rest, 4),
        WireValue::Bytes(held) => behind(behind_number(rest), held.len()),
    }
}

/// The bytes behind a number at the front: behind the first byte below 128.
fn behind_number(bytes: &[u8]) -> &[u8]
    ensures { result.now ≡ spec.behind_number bytes.now }
{
    let mut left = bytes;
    while let [first, rest @ ..] = left {
        left = rest;
        if *first < 128 {
            return left;
        }
    }
    left
}

/// The bytes behind the first ones, so many as these are.
fn behind(bytes: &[u8], count: usize) -> &[u8]
    ensures { result.now ≡ drop count bytes.now }
{
    if count <= bytes.len() {
        &bytes[count..]
    } else {
        &[]
    }
}
