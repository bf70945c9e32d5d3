//! Fields, written. Each function leaves what was there in front, and `Err` comes only where memory was refused.
ghost use Rattle.std.specs.Prelude.{[], ◌∷◌, OnOk};
ghost use Rattle.protobuf_wire.specs.Wire.{varint, fixed64, bytes, fixed32};
ghost use Rattle.protobuf_writer.specs.Writing.{Adds};
ghost use Rattle.protobuf_writer.specs.Defaults.{field};

use crate::number::{put_number, put_tag};
use std::alloc::AllocError;

/// Appends a field that is a number of at most 64 bits ("VARINT").
#[inline(always)]
pub fn write_varint(out: &mut Vec<u8>, number: u32, value: u64) -> Result<(), AllocError>
    ensures { OnOk result (Adds out.old.items out.new.items (field number (varint value) ∷ [])) }
{
    put_tag(out, number, 0)?;
    put_number(out, value)?;
    Ok(())
}

/// Appends a field that is eight bytes, the first lowest ("I64").
#[inline(always)]
pub fn write_fixed64(out: &mut Vec<u8>, number: u32, value: u64) -> Result<(), AllocError>
    ensures { OnOk result (Adds out.old.items out.new.items (field number (fixed64 value) ∷ [])) }
{
    put_tag(out, number, 1)?;
    out.extend_from_slice(&value.to_le_bytes())?;
    Ok(())
}

/// Appends a field that is bytes behind their count ("LEN"): a `string`, `bytes`, or a message that was written elsewhere.
#[inline(always)]
pub fn write_bytes(out: &mut Vec<u8>, number: u32, value: &[u8]) -> Result<(), AllocError>
    ensures { OnOk result (Adds out.old.items out.new.items (field number (bytes value.now) ∷ [])) }
{
    put_tag(out, number, 2)?;
    put_number(out, value.len() as u64)?;
    out.extend_from_slice(value)?;
    Ok(())
}

/// Appends a field that is four bytes, the first lowest ("I32").
#[inline(always)]
pub fn write_fixed32(out: &mut Vec<u8>, number: u32, value: u32) -> Result<(), AllocError>
    ensures { OnOk result (Adds out.old.items out.new.items (field number (fixed32 value) ∷ [])) }
{
    put_tag(out, number, 5)?;
    out.extend_from_slice(&value.to_le_bytes())?;
    Ok(())
}
