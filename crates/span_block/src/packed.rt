//! Messages, packed.
ghost use Rattle.std.specs.Prelude.{◌≡◌, ℕ, [], ◌∷◌, IfErr, OnOk, List as ListOf, map};
ghost use Rattle.std.specs.List.{AllByRecursion};
ghost use Rattle.protobuf_wire.specs.Wire.{Field};
ghost use Rattle.protobuf_writer.specs.Writing.{Adds};
ghost use Rattle.protobuf_writer.specs.Defaults.{message_in, repeated};
ghost use Rattle.span_block.specs.Fits.{Refuses};

use crate::pack_error::PackError;
use otlp_types::List;
use protobuf_writer::{begin_message, end_message};
use std::alloc::Global;

/// What is packed as a message.
pub trait Packed {
    /// The fields of its message.
    ghost fields: { Self → ListOf Field };

    /// It has a block, where its values may nest so many levels deep.
    ghost fits: { ℕ → Self → Type 0 };

    /// It is read from its message again, as far as it fits.
    ghost holds: { Self → Type 0 };

    /// Its texts and numbers are such as their types hold, at any depth.
    ghost typed: { ℕ → Self → Type 0 };

    /// Appends the fields. Values may nest so many levels deep.
    fn pack(&self, alloc: Global, levels: u32, out: &mut Vec<u8>) -> Result<(), PackError>
        ensures bytes { OnOk result (Adds out.old.items out.new.items (fields self.now)) }
        ensures holds { OnOk result (holds self.now) }
        ensures typed { OnOk result (typed levels self.now) }
        ensures fits { OnOk result (fits levels self.now) }
        ensures refused { IfErr result (Refuses (fits levels self.now)) };
}

/// Appends a field that is a message, also one that has no field.
#[inline(always)]
pub fn message<T: Packed>(
    alloc: Global,
    levels: u32,
    out: &mut Vec<u8>,
    number: u32,
    item: &T,
) -> Result<(), PackError>
    ensures bytes { OnOk result (Adds out.old.items out.new.items (message_in number (T.fields item.now) ∷ [])) }
    ensures holds { OnOk result (T.holds item.now) }
    ensures typed { OnOk result (T.typed levels item.now) }
    ensures fits { OnOk result (T.fits levels item.now) }
    ensures refused { IfErr result (Refuses (T.fits levels item.now)) }
{
    let at = begin_message(out, number)?;
    item.pack(alloc, levels, out)?;
    end_message(out, at)?;
    Ok(())
}

/// Appends messages, each in a field of this number.
pub fn list<T: Packed>(
    alloc: Global,
    levels: u32,
    out: &mut Vec<u8>,
    number: u32,
    items: &List<T>,
) -> Result<(), PackError>
    ensures bytes { OnOk result (Adds out.old.items out.new.items (repeated number (map T.fields items.now))) }
    ensures holds { OnOk result (AllByRecursion T.holds items.now) }
    ensures typed { OnOk result (AllByRecursion (T.typed levels) items.now) }
    ensures fits { OnOk result (AllByRecursion (T.fits levels) items.now) }
    ensures refused { IfErr result (Refuses (AllByRecursion (T.fits levels) items.now)) }
{
    let all = items.as_slice();
    for item in all {
        message(alloc, levels, out, number, item)?;
    }
    Ok(())
}

/// Appends a field that is a message of messages, each in a field 1 (`ArrayValue`, `KeyValueList`).
pub fn list_message<T: Packed>(
    alloc: Global,
    levels: u32,
    out: &mut Vec<u8>,
    number: u32,
    items: &List<T>,
) -> Result<(), PackError>
    ensures bytes { OnOk result
        (Adds out.old.items out.new.items (message_in number (repeated 1 (map T.fields items.now)) ∷ [])) }
    ensures holds { OnOk result (AllByRecursion T.holds items.now) }
    ensures typed { OnOk result (AllByRecursion (T.typed levels) items.now) }
    ensures fits { OnOk result (AllByRecursion (T.fits levels) items.now) }
    ensures refused { IfErr result (Refuses (AllByRecursion (T.fits levels) items.now)) }
{
    let at = begin_message(out, number)?;
    list(alloc, levels, out, 1, items)?;
    end_message(out, at)?;
    Ok(())
}
