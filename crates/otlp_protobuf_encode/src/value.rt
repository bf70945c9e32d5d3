//! Values of attributes, written.
ghost use Rattle.std.specs.Prelude.{◌≡◌, ◌<◌, ◌^◌, true, false, ◌∷◌, [], None, IfErr, OnOk, FitsSigned, to_bits};
ghost use Rattle.std.specs.Int.{w64};
ghost use Rattle.std.specs.Float.{binary64};
ghost use Rattle.std.specs.Float.Ieee.{of_bits};
ghost use Rattle.std.specs.Str.{IsUtf8};
ghost use Rattle.protobuf_wire.specs.Wire.{varint, fixed64, bytes};
ghost use Rattle.protobuf_writer.specs.Writing.{Adds};
ghost use Rattle.protobuf_writer.specs.Defaults.{field, message_in, message_field};
ghost use Rattle.otlp_types.specs.declared.value.AnyValue.{Empty};
ghost use Rattle.otlp_protobuf_encode.specs.Writing.{int_bits, value_fields, pair_fields};
ghost use Rattle.otlp_protobuf_encode.specs.Faults.{value_fault, pair_fault, Tells};
ghost use Rattle.otlp_protobuf_encode.specs.ReadsBack.{ValueReadsBack, PairReadsBack};

use crate::encode_error::EncodeError;
use crate::kinds::{write_base64, write_string};
use crate::writing::{Written, list_message, message};
use otlp_types::{AnyValue, Double, KeyValue, Text};
use protobuf_writer::{write_bytes, write_fixed64, write_varint};
use std::alloc::{AllocError, Global};
use std::num::f64_to_bits_with_nan;

impl Written for KeyValue {
    ghost fields = { pair_fields };

    ghost fault = { pair_fault };

    ghost reads_back = { PairReadsBack };

    #[cycle(write)]
    fn write(&self, alloc: Global, out: &mut Vec<u8>) -> Result<(), EncodeError> {
        write_string(out, 1, &self.key)?;
        write_set_value(alloc, out, &self.value)?;
        Ok(())
    }
}

impl Written for AnyValue {
    ghost fields = { value_fields };

    ghost fault = { value_fault };

    ghost reads_back = { ValueReadsBack };

    #[cycle(write)]
    fn write(&self, alloc: Global, out: &mut Vec<u8>) -> Result<(), EncodeError> {
        match self {
            AnyValue::Empty => {}
            AnyValue::Str(text) => write_string_value(out, text)?,
            AnyValue::Bool(truth) => write_varint(out, 2, u64::from(*truth))?,
            AnyValue::Int(number) => write_int_value(out, number)?,
            AnyValue::Double(double) => write_double_value(out, double)?,
            AnyValue::Array(values) => list_message(alloc, out, 5, values)?,
            AnyValue::KvList(pairs) => list_message(alloc, out, 6, pairs)?,
            AnyValue::Bytes(text) => write_base64(alloc, out, 7, text)?,
        }
        Ok(())
    }
}

/// The field `string_value`, also of an empty text.
#[inline(always)]
fn write_string_value(out: &mut Vec<u8>, text: &Text) -> Result<(), AllocError>
    ensures bytes { OnOk result (Adds out.old.items out.new.items (field 1 (bytes text.now) ∷ [])) }
    ensures text { IsUtf8 text.now }
{
    write_bytes(out, 1, text.as_str().as_bytes())?;
    Ok(())
}

/// The field `int_value`. The number is behind a reference, so that the caller learns that it is within its type's range.
#[inline(always)]
fn write_int_value(out: &mut Vec<u8>, number: &i64) -> Result<(), AllocError>
    ensures bytes { OnOk result (Adds out.old.items out.new.items (field 3 (varint (int_bits number.now)) ∷ [])) }
    ensures range { FitsSigned w64 number.now }
{
    write_varint(out, 3, number.cast_unsigned())?;
    Ok(())
}

/// The bits of a double; each NaN has the same ones.
#[inline(always)]
fn double_bits(double: f64) -> u64
    ensures bits { result ≡ to_bits binary64 double }
    ensures range { to_bits binary64 double < 2 ^ 64 }
    ensures back { of_bits binary64 (to_bits binary64 double) ≡ double }
{
    f64_to_bits_with_nan(double)
}

/// The field `double_value`. The double is behind a reference, so that the caller learns what is known of it.
#[inline(always)]
fn write_double_value(out: &mut Vec<u8>, double: &Double) -> Result<(), AllocError>
    ensures bytes { OnOk result
        (Adds out.old.items out.new.items (field 4 (fixed64 (to_bits binary64 double.now)) ∷ [])) }
    ensures range { to_bits binary64 double.now < 2 ^ 64 }
    ensures back { of_bits binary64 (to_bits binary64 double.now) ≡ double.now }
{
    write_fixed64(out, 4, double_bits(double.get()))?;
    Ok(())
}

/// The field `value` of a pair, where one is set.
#[cycle(write)]
fn write_set_value(alloc: Global, out: &mut Vec<u8>, value: &AnyValue) -> Result<(), EncodeError>
    ensures bytes { OnOk result (Adds out.old.items out.new.items (message_field 2 (value_fields value.now))) }
    ensures back { OnOk result (ValueReadsBack value.now) }
    ensures writable { OnOk result (value_fault value.now ≡ None) }
    ensures fault { IfErr result (Tells (value_fault value.now)) }
{
    if !is_set(value) {
        return Ok(());
    }
    message(alloc, out, 2, value)?;
    Ok(())
}

/// Whether a value is set: its message has a field then.
fn is_set(value: &AnyValue) -> bool
    ensures unset { result ≡ false → value.now ≡ Empty }
    ensures set { result ≡ true
        → message_field 2 (value_fields value.now) ≡ message_in 2 (value_fields value.now) ∷ [] }
{
    match value {
        AnyValue::Empty => false,
        AnyValue::Str(_) => true,
        AnyValue::Bool(_) => true,
        AnyValue::Int(_) => true,
        AnyValue::Double(_) => true,
        AnyValue::Array(_) => true,
        AnyValue::KvList(_) => true,
        AnyValue::Bytes(_) => true,
    }
}
