//! Fields by their kinds, packed. A scalar that has its default is left out.
ghost use Rattle.std.specs.Prelude.{◌≡◌, ◌<◌, ◌^◌, [], ◌∷◌, None, Some, true, false, IfOk, IfErr, OnOk, unwrap_or, FitsSigned};
ghost use Rattle.std.specs.Int.{w32};
ghost use Rattle.std.specs.Str.{IsUtf8};
ghost use Rattle.base64.specs.Engines.{standard};
ghost use Rattle.base64.specs.GeneralPurpose.{encode_of};
ghost use Rattle.protobuf_wire.specs.Wire.{bytes};
ghost use Rattle.protobuf_writer.specs.Writing.{Adds};
ghost use Rattle.protobuf_writer.specs.Defaults.{field, text_field, number_field, fixed64_field, fixed32_field};
ghost use Rattle.otlp_protobuf_encode.specs.Writing.{base64_of, enum_field, hex_of, hex_field};
ghost use Rattle.otlp_protobuf_encode.specs.Faults.{base64_fault};
ghost use Rattle.otlp_protobuf_encode.specs.ReadsBack.{IsLower};
ghost use Rattle.span_block.specs.Fits.{Refuses};

use crate::pack_error::PackError;
use base64::DecodeAllocError;
use base64::engine::general_purpose::STANDARD;
use hex::FromHexError;
use otlp_types::Text;
use protobuf_writer::{
    write_bytes, write_fixed32_unless_zero, write_fixed64_unless_zero, write_text,
    write_varint_unless_zero,
};
use std::alloc::{AllocError, Global};

/// Appends a text, unless it is empty.
#[inline(always)]
pub fn pack_text(out: &mut Vec<u8>, number: u32, text: &Text) -> Result<(), AllocError>
    ensures bytes { OnOk result (Adds out.old.items out.new.items (text_field number text.now)) }
    ensures text { IsUtf8 text.now }
{
    write_text(out, number, text.as_str().as_bytes())?;
    Ok(())
}

/// Appends the number of an enumeration, unless it is 0. A negative one takes ten bytes. It is behind a reference, so that
/// the caller learns that it is within its type's range.
#[inline(always)]
pub fn pack_enumeration(out: &mut Vec<u8>, number: u32, value: &i32) -> Result<(), AllocError>
    ensures bytes { OnOk result (Adds out.old.items out.new.items (enum_field number value.now)) }
    ensures range { FitsSigned w32 value.now }
{
    write_varint_unless_zero(out, number, i64::from(*value).cast_unsigned())?;
    Ok(())
}

/// Appends a number of 32 bits, unless it is 0.
#[inline(always)]
pub fn pack_count(out: &mut Vec<u8>, number: u32, count: u32) -> Result<(), AllocError>
    ensures bytes { OnOk result (Adds out.old.items out.new.items (number_field number count)) }
    ensures range { count < 2 ^ 32 }
{
    write_varint_unless_zero(out, number, u64::from(count))?;
    Ok(())
}

/// Appends a time in nanoseconds since 1970, unless it is 0.
#[inline(always)]
pub fn pack_time(out: &mut Vec<u8>, number: u32, time: u64) -> Result<(), AllocError>
    ensures bytes { OnOk result (Adds out.old.items out.new.items (fixed64_field number time)) }
    ensures range { time < 2 ^ 64 }
{
    write_fixed64_unless_zero(out, number, time)?;
    Ok(())
}

/// Appends flags, unless they are 0.
#[inline(always)]
pub fn pack_flags(out: &mut Vec<u8>, number: u32, flags: u32) -> Result<(), AllocError>
    ensures bytes { OnOk result (Adds out.old.items out.new.items (fixed32_field number flags)) }
    ensures range { flags < 2 ^ 32 }
{
    write_fixed32_unless_zero(out, number, flags)?;
    Ok(())
}

/// The bytes of a base64 text.
fn base64_bytes(alloc: Global, text: &Text) -> Result<Vec<u8>, PackError>
    ensures bytes { IfOk result (λ bytes. base64_of text.now ≡ Some bytes.items) }
    ensures back { IfOk result (λ bytes. encode_of standard bytes.items ≡ text.now) }
    ensures refused { IfErr result (Refuses (base64_fault text.now ≡ None)) }
{
    match STANDARD.decode(alloc, text.as_str().as_bytes()) {
        Ok(bytes) => Ok(bytes),
        Err(DecodeAllocError::OutOfMemory) => Err(PackError::NoMemory),
        Err(DecodeAllocError::DecodeError(_)) => Err(PackError::NoBlock),
    }
}

/// Appends the bytes of a base64 text, also where there are none.
pub fn pack_base64(
    alloc: Global,
    out: &mut Vec<u8>,
    number: u32,
    text: &Text,
) -> Result<(), PackError>
    ensures bytes { OnOk result
        (Adds out.old.items out.new.items (field number (bytes (unwrap_or (base64_of text.now) [])) ∷ [])) }
    ensures back { OnOk result (encode_of standard (unwrap_or (base64_of text.now) []) ≡ text.now) }
    ensures fits { OnOk result (base64_fault text.now ≡ None) }
    ensures refused { IfErr result (Refuses (base64_fault text.now ≡ None)) }
{
    let held = base64_bytes(alloc, text)?;
    write_bytes(out, number, held.as_slice())?;
    Ok(())
}

/// The bytes of a text of hex digits.
fn hex_bytes(alloc: Global, text: &Text) -> Result<Vec<u8>, PackError>
    ensures bytes { IfOk result (λ bytes. hex_of text.now ≡ Some bytes.items) }
    ensures refused { IfErr result (Refuses (IsLower text.now)) }
{
    match hex::decode(alloc, text.as_str().as_bytes()) {
        Ok(bytes) => Ok(bytes),
        Err(error) => match error {
            FromHexError::OutOfMemory => Err(PackError::NoMemory),
            _ => Err(PackError::NoBlock),
        },
    }
}

/// Appends the bytes of a text of lower-case hex digits, unless there are none.
pub fn pack_hex(alloc: Global, out: &mut Vec<u8>, number: u32, text: &Text) -> Result<(), PackError>
    ensures bytes { OnOk result (Adds out.old.items out.new.items (hex_field number text.now)) }
    ensures fits { OnOk result (IsLower text.now) }
    ensures refused { IfErr result (Refuses (IsLower text.now)) }
{
    let held = hex_bytes(alloc, text)?;
    let again = hex::encode(alloc, held.as_slice())?;
    if again.as_str() != text.as_str() {
        return Err(PackError::NoBlock);
    }
    write_text(out, number, held.as_slice())?;
    Ok(())
}
