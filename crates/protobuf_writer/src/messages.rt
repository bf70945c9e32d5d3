//! Messages inside a message, written in place: their bytes are counted once they are there.
ghost use Rattle.std.specs.Prelude.{◌≡◌, ℕ, ◌+◌, ◌<◌, List, [], ◌∷◌, ◌++◌, length, take, drop, IfOk, OnOk};
ghost use Rattle.protobuf_wire.specs.Wire.{Field};
ghost use Rattle.protobuf_writer.specs.Writing.{Adds, IsBegun, number_bytes, counted_bytes};
ghost use Rattle.protobuf_writer.specs.Defaults.{message_in};

use crate::number::put_tag;
use std::alloc::AllocError;

/// Begins a message in a field of this number, and answers where its count goes: one byte is held free there. What is
/// appended next is the message, until [`end_message`].
#[inline(always)]
pub fn begin_message(out: &mut Vec<u8>, number: u32) -> Result<usize, AllocError>
    ensures begun { IfOk result (λ at. IsBegun out.old.items out.new.items number at) }
    ensures within { IfOk result (λ at. at < length out.new.items) }
{
    put_tag(out, number, 2)?;
    let at = out.len();
    out.push(0)?;
    Ok(at)
}

/// Ends the message that [`begin_message`] began there: puts in its count. A message of 128 bytes or more is moved up by
/// the count's further bytes.
#[inline(always)]
pub fn end_message(out: &mut Vec<u8>, at: usize) -> Result<(), AllocError>
    requires { at < length out.old.items }
    ensures { (start begun : List ℕ) (number : ℕ) (fs : List Field)
        → IsBegun start begun number at → Adds begun out.old.items fs
        → OnOk result (Adds start out.new.items (message_in number fs ∷ [])) }
{
    count_behind(out, at)?;
    Ok(())
}

/// Puts the count of the bytes behind a place into it.
#[inline(always)]
fn count_behind(out: &mut Vec<u8>, at: usize) -> Result<(), AllocError>
    requires { at < length out.old.items }
    ensures { OnOk result
        (out.new.items ≡ take at out.old.items ++ counted_bytes (drop (at + 1) out.old.items)) }
{
    let count = out.len() - at - 1;
    if count < 128 {
        out[at] = count as u8;
        return Ok(());
    }
    put_count(out, at, count as u64)
}

/// Puts a count into a byte that is held free, and its further bytes behind it.
#[inline(never)]
fn put_count(out: &mut Vec<u8>, at: usize, count: u64) -> Result<(), AllocError>
    requires { at < length out.old.items }
    ensures { OnOk result
        (out.new.items ≡ take at out.old.items ++ (number_bytes count ++ drop (at + 1) out.old.items)) }
{
    let mut left = count;
    for i in 0..9usize {
        if left < 128 {
            out[at + i] = left as u8;
            return Ok(());
        }
        out.insert(at + i, (left % 128) as u8 + 128)?;
        left /= 128;
    }
    out[at + 9] = left as u8;
    Ok(())
}
