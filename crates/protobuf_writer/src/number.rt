//! Numbers, written.
ghost use Rattle.std.specs.Prelude.{◌≡◌, ◌++◌, ◌+◌, ◌*◌, ◌<◌, OnOk};
ghost use Rattle.protobuf_writer.specs.Writing.{number_bytes, tag_bytes};

use std::alloc::AllocError;

/// Appends a number, in as few bytes as hold it.
#[inline(always)]
pub fn put_number(out: &mut Vec<u8>, number: u64) -> Result<(), AllocError>
    ensures { OnOk result (out.new.items ≡ out.old.items ++ number_bytes number) }
{
    if number < 128 {
        out.push(number as u8)?;
        return Ok(());
    }
    put_long_number(out, number)
}

/// The same, of any length.
#[inline(never)]
fn put_long_number(out: &mut Vec<u8>, number: u64) -> Result<(), AllocError>
    ensures { OnOk result (out.new.items ≡ out.old.items ++ number_bytes number) }
{
    let mut left = number;
    for i in 0..9u8 {
        if left < 128 {
            out.push(left as u8)?;
            return Ok(());
        }
        out.push((left % 128) as u8 + 128)?;
        left /= 128;
    }
    out.push(left as u8)?;
    Ok(())
}

/// Appends the tag of a field.
#[inline(always)]
pub fn put_tag(out: &mut Vec<u8>, number: u32, wire_type: u8) -> Result<(), AllocError>
    ensures { OnOk result (out.new.items ≡ out.old.items ++ tag_bytes number wire_type) }
{
    put_number(out, 8 * u64::from(number) + u64::from(wire_type))
}
