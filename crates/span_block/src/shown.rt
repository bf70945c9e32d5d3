//! What is shown of an attribute.
ghost use Rattle.std.specs.Prelude.{◌≡◌, List, Ok};
ghost use Rattle.protobuf_wire.specs.Wire.{Field, varint, fixed64, bytes, fields_of};
ghost use Rattle.protobuf_wire.specs.Seen.{seen};
ghost use Rattle.otlp_types.specs.declared.value.KeyValue.{KeyValue};
ghost use Rattle.otlp_protobuf_encode.specs.Writing.{pair_fields};
ghost use Rattle.span_block.specs.Holds.{PairHolds};
ghost use Rattle.span_block.specs.Pairs.{ShowsPair, ShownBy, ShownFirst};

use crate::attribute::{Attribute, Scalar};
use crate::find::bytes_at;
use otlp_types::Double;
use protobuf_wire::{Fields, WireField, WireValue};
use std::num::f64_from_bits_with_nan;

/// The attribute that a message is.
pub fn attribute(message: &[u8]) -> Attribute<'_>
    ensures { (p : KeyValue) → fields_of message.now ≡ Ok (pair_fields p) → PairHolds p → ShowsPair p result }
{
    Attribute {
        key: bytes_at(message, 1),
        value: scalar(bytes_at(message, 2)),
    }
}

/// What a value is, by its first field: it has one at most.
fn scalar(message: &[u8]) -> Scalar<'_>
    ensures { (fs : List Field) → fields_of message.now ≡ Ok fs → ShownFirst fs result }
{
    let mut fields = Fields::of(message);
    match fields.next() {
        Ok(Some(field)) => shown(field),
        _ => Scalar::Other,
    }
}

/// What a value is, by its field.
#[inline(always)]
fn shown(field: WireField<'_>) -> Scalar<'_>
    ensures { ShownBy field.entry.number (seen field.entry.value) result }
{
    match field.value {
        WireValue::Bytes(text) => shown_text(field.number, text),
        WireValue::Varint(bits) => shown_number(field.number, bits),
        WireValue::Fixed64(bits) => shown_double(field.number, bits),
        WireValue::Fixed32(_) => Scalar::Other,
    }
}

#[inline(always)]
fn shown_text(number: u32, text: &[u8]) -> Scalar<'_>
    ensures { ShownBy number (bytes text.now) result }
{
    if number == 1 {
        Scalar::Str(text)
    } else {
        Scalar::Other
    }
}

#[inline(always)]
fn shown_number(number: u32, bits: u64) -> Scalar<'static>
    ensures { ShownBy number (varint bits) result }
{
    match number {
        2 => Scalar::Bool(bits != 0),
        3 => Scalar::Int(bits.cast_signed()),
        _ => Scalar::Other,
    }
}

#[inline(always)]
fn shown_double(number: u32, bits: u64) -> Scalar<'static>
    ensures { ShownBy number (fixed64 bits) result }
{
    if number == 4 {
        Scalar::Double(Double::new(f64_from_bits_with_nan(bits)))
    } else {
        Scalar::Other
    }
}
