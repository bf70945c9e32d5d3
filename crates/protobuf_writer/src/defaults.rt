//! Fields of proto3 by their kinds, written: a scalar that has its default is left out.
ghost use Rattle.std.specs.Prelude.{OnOk};
ghost use Rattle.protobuf_writer.specs.Writing.{Adds};
ghost use Rattle.protobuf_writer.specs.Defaults.{text_field, number_field, fixed64_field, fixed32_field};

use crate::fields::{write_bytes, write_fixed32, write_fixed64, write_varint};
use std::alloc::AllocError;

/// Appends a `string` or `bytes`, unless it is empty.
#[inline(always)]
pub fn write_text(out: &mut Vec<u8>, number: u32, text: &[u8]) -> Result<(), AllocError>
    ensures { OnOk result (Adds out.old.items out.new.items (text_field number text.now)) }
{
    if text.is_empty() {
        return Ok(());
    }
    write_bytes(out, number, text)
}

/// Appends a number of at most 64 bits, unless it is 0.
#[inline(always)]
pub fn write_varint_unless_zero(
    out: &mut Vec<u8>,
    number: u32,
    value: u64,
) -> Result<(), AllocError>
    ensures { OnOk result (Adds out.old.items out.new.items (number_field number value)) }
{
    if value == 0 {
        return Ok(());
    }
    write_varint(out, number, value)
}

/// Appends a number of eight bytes, unless it is 0.
#[inline(always)]
pub fn write_fixed64_unless_zero(
    out: &mut Vec<u8>,
    number: u32,
    value: u64,
) -> Result<(), AllocError>
    ensures { OnOk result (Adds out.old.items out.new.items (fixed64_field number value)) }
{
    if value == 0 {
        return Ok(());
    }
    write_fixed64(out, number, value)
}

/// Appends a number of four bytes, unless it is 0.
#[inline(always)]
pub fn write_fixed32_unless_zero(
    out: &mut Vec<u8>,
    number: u32,
    value: u32,
) -> Result<(), AllocError>
    ensures { OnOk result (Adds out.old.items out.new.items (fixed32_field number value)) }
{
    if value == 0 {
        return Ok(());
    }
    write_fixed32(out, number, value)
}
