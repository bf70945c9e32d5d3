//! Values of attributes, packed.
ghost use Rattle.std.specs.Prelude.{◌≡◌, ◌<◌, ◌^◌, true, false, ◌∷◌, [], IfErr, OnOk, FitsSigned, to_bits};
ghost use Rattle.std.specs.Int.{w64};
ghost use Rattle.std.specs.Float.{binary64};
ghost use Rattle.std.specs.Float.Ieee.{of_bits};
ghost use Rattle.std.specs.Str.{IsUtf8};
ghost use Rattle.protobuf_wire.specs.Wire.{varint, fixed64, bytes};
ghost use Rattle.protobuf_writer.specs.Writing.{Adds};
ghost use Rattle.protobuf_writer.specs.Defaults.{field, message_in, message_field};
ghost use Rattle.otlp_types.specs.declared.value.AnyValue.{Empty};
ghost use Rattle.otlp_protobuf_encode.specs.Writing.{int_bits, value_fields, pair_fields};
ghost use Rattle.span_block.specs.Fits.{ValueFits, SetFits, PairFits, Refuses};
ghost use Rattle.span_block.specs.Holds.{ValueHolds, PairHolds};
ghost use Rattle.span_block.specs.Typed.{ValueIsTyped, SetIsTyped, PairIsTyped};

use crate::kinds::{pack_base64, pack_text};
use crate::pack_error::PackError;
use crate::packed::{Packed, list_message, message};
use otlp_types::{AnyValue, Double, KeyValue, Text};
use protobuf_writer::{write_bytes, write_fixed64, write_varint};
use std::alloc::{AllocError, Global};
use std::num::f64_to_bits_with_nan;

impl Packed for KeyValue {
    ghost fields = { pair_fields };

    ghost fits = { PairFits };

    ghost holds = { PairHolds };

    ghost typed = { PairIsTyped };

    #[cycle(pack)]
    fn pack(&self, alloc: Global, levels: u32, out: &mut Vec<u8>) -> Result<(), PackError> {
        pack_text(out, 1, &self.key)?;
        pack_set_value(alloc, levels, out, &self.value)?;
        Ok(())
    }
}

impl Packed for AnyValue {
    ghost fields = { value_fields };

    ghost fits = { ValueFits };

    ghost holds = { ValueHolds };

    ghost typed = { ValueIsTyped };

    #[cycle(pack)]
    fn pack(&self, alloc: Global, levels: u32, out: &mut Vec<u8>) -> Result<(), PackError> {
        let Some(below) = levels.checked_sub(1) else {
            return Err(PackError::NoBlock);
        };
        match self {
            AnyValue::Empty => {}
            AnyValue::Str(text) => pack_string_value(out, text)?,
            AnyValue::Bool(truth) => write_varint(out, 2, u64::from(*truth))?,
            AnyValue::Int(number) => pack_int_value(out, number)?,
            AnyValue::Double(double) => pack_double_value(out, double)?,
            AnyValue::Array(values) => list_message(alloc, below, out, 5, values)?,
            AnyValue::KvList(pairs) => list_message(alloc, below, out, 6, pairs)?,
            AnyValue::Bytes(text) => pack_base64(alloc, out, 7, text)?,
        }
        Ok(())
    }
}

/// The field `string_value`, also of an empty text.
#[inline(always)]
fn pack_string_value(out: &mut Vec<u8>, text: &Text) -> Result<(), AllocError>
    ensures bytes { OnOk result (Adds out.old.items out.new.items (field 1 (bytes text.now) ∷ [])) }
    ensures text { IsUtf8 text.now }
{
    write_bytes(out, 1, text.as_str().as_bytes())?;
    Ok(())
}

/// The field `int_value`. The number is behind a reference, so that the caller learns that it is within its type's range.
#[inline(always)]
fn pack_int_value(out: &mut Vec<u8>, number: &i64) -> Result<(), AllocError>
    ensures bytes { OnOk result (Adds out.old.items out.new.items (field 3 (varint (int_bits number.now)) ∷ [])) }
    ensures range { FitsSigned w64 number.now }
{
    write_varint(out, 3, number.cast_unsigned())?;
    Ok(())
}

/// The bits of a double; each NaN has the same ones.
#[inline(always)]
fn double_bits(double: f64) -> u64
    ensures bits { result ≡ to_bits binary64 double }
    ensures range { to_bits binary64 double < 2 ^ 64 }
    ensures back { of_bits binary64 (to_bits binary64 double) ≡ double }
{
    f64_to_bits_with_nan(double)
}

/// The field `double_value`. The double is behind a reference, so that the caller learns what is known of it.
#[inline(always)]
fn pack_double_value(out: &mut Vec<u8>, double: &Double) -> Result<(), AllocError>
    ensures bytes { OnOk result
        (Adds out.old.items out.new.items (field 4 (fixed64 (to_bits binary64 double.now)) ∷ [])) }
    ensures range { to_bits binary64 double.now < 2 ^ 64 }
    ensures back { of_bits binary64 (to_bits binary64 double.now) ≡ double.now }
{
    write_fixed64(out, 4, double_bits(double.get()))?;
    Ok(())
}

/// The field `value` of a pair, where one is set.
#[cycle(pack)]
fn pack_set_value(
    alloc: Global,
    levels: u32,
    out: &mut Vec<u8>,
    value: &AnyValue,
) -> Result<(), PackError>
    ensures bytes { OnOk result (Adds out.old.items out.new.items (message_field 2 (value_fields value.now))) }
    ensures holds { OnOk result (ValueHolds value.now) }
    ensures typed { OnOk result (SetIsTyped levels value.now) }
    ensures fits { OnOk result (SetFits levels value.now) }
    ensures refused { IfErr result (Refuses (SetFits levels value.now)) }
{
    if !is_set(value) {
        return Ok(());
    }
    message(alloc, levels, out, 2, value)?;
    Ok(())
}

/// Whether a value is set: its message has a field then.
fn is_set(value: &AnyValue) -> bool
    ensures unset { result ≡ false → value.now ≡ Empty }
    ensures set { result ≡ true
        → message_field 2 (value_fields value.now) ≡ message_in 2 (value_fields value.now) ∷ [] }
    ensures is_set { result ≡ true → value.now ≡ Empty → ⊥ }
{
    match value {
        AnyValue::Empty => false,
        AnyValue::Str(_) => true,
        AnyValue::Bool(_) => true,
        AnyValue::Int(_) => true,
        AnyValue::Double(_) => true,
        AnyValue::Array(_) => true,
        AnyValue::KvList(_) => true,
        AnyValue::Bytes(_) => true,
    }
}
