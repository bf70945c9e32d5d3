//! Messages, written.
ghost use Rattle.std.specs.Prelude.{◌≡◌, [], ◌∷◌, None, IfErr, OnOk, List as ListOf, map};
ghost use Rattle.std.specs.List.{AllByRecursion};
ghost use Rattle.protobuf_wire.specs.Wire.{Field};
ghost use Rattle.protobuf_writer.specs.Writing.{Adds};
ghost use Rattle.protobuf_writer.specs.Defaults.{message_in, repeated};
ghost use Rattle.otlp_protobuf_encode.specs.Faults.{Fault, first, Tells};

use crate::encode_error::EncodeError;
use otlp_types::List;
use protobuf_writer::{begin_message, end_message};
use std::alloc::Global;

/// What is written as a message.
pub trait Written {
    /// The fields of its message.
    ghost fields: { Self → ListOf Field };

    /// Why it has no bytes.
    ghost fault: { Self → Fault };

    /// What is written is read as this value again, as far as it nests.
    ghost reads_back: { Self → Type 0 };

    /// Appends the fields.
    fn write(&self, alloc: Global, out: &mut Vec<u8>) -> Result<(), EncodeError>
        ensures bytes { OnOk result (Adds out.old.items out.new.items (fields self.now)) }
        ensures back { OnOk result (reads_back self.now) }
        ensures writable { OnOk result (fault self.now ≡ None) }
        ensures fault { IfErr result (Tells (fault self.now)) };
}

/// Appends a field that is a message, also one that has no field.
#[inline(always)]
pub fn message<T: Written>(
    alloc: Global,
    out: &mut Vec<u8>,
    number: u32,
    item: &T,
) -> Result<(), EncodeError>
    ensures bytes { OnOk result (Adds out.old.items out.new.items (message_in number (T.fields item.now) ∷ [])) }
    ensures back { OnOk result (T.reads_back item.now) }
    ensures writable { OnOk result (T.fault item.now ≡ None) }
    ensures fault { IfErr result (Tells (T.fault item.now)) }
{
    let at = begin_message(out, number)?;
    item.write(alloc, out)?;
    end_message(out, at)?;
    Ok(())
}

/// Appends messages, each in a field of this number.
pub fn list<T: Written>(
    alloc: Global,
    out: &mut Vec<u8>,
    number: u32,
    items: &List<T>,
) -> Result<(), EncodeError>
    ensures bytes { OnOk result (Adds out.old.items out.new.items (repeated number (map T.fields items.now))) }
    ensures back { OnOk result (AllByRecursion T.reads_back items.now) }
    ensures writable { OnOk result (first (map T.fault items.now) ≡ None) }
    ensures fault { IfErr result (Tells (first (map T.fault items.now))) }
{
    let all = items.as_slice();
    for item in all {
        message(alloc, out, number, item)?;
    }
    Ok(())
}

/// Appends a field that is a message of messages, each in a field 1 (`ArrayValue`, `KeyValueList`).
pub fn list_message<T: Written>(
    alloc: Global,
    out: &mut Vec<u8>,
    number: u32,
    items: &List<T>,
) -> Result<(), EncodeError>
    ensures bytes { OnOk result
        (Adds out.old.items out.new.items (message_in number (repeated 1 (map T.fields items.now)) ∷ [])) }
    ensures back { OnOk result (AllByRecursion T.reads_back items.now) }
    ensures writable { OnOk result (first (map T.fault items.now) ≡ None) }
    ensures fault { IfErr result (Tells (first (map T.fault items.now))) }
{
    let at = begin_message(out, number)?;
    list(alloc, out, 1, items)?;
    end_message(out, at)?;
    Ok(())
}
