//! Messages inside a message, one after another.
ghost use Rattle.std.specs.Prelude.{◌≡◌, ◌<◌, ◌^◌, List, Ok, Some, IfSome, length};
ghost use Rattle.protobuf_wire.specs.Wire.{Field, fields_of};
ghost use Rattle.protobuf_wire.specs.Seen.{seen};
ghost use Rattle.span_block.specs.Walk.{bytes_in, NextMessage};

use protobuf_wire::{Fields, WireValue};

/// The next message in a field of this number, where the fields stand in order of their numbers: a greater one ends the
/// search, and the fields with it.
pub fn next_message<'a>(fields: &mut Fields<'a>, number: u32) -> Option<&'a [u8]>
    ensures room { IfSome result (λ message. length message.now < 2 ^ 64) }
    ensures shorter { IfSome result (λ _. length fields.new < length fields.old) }
    ensures next { (fs : List Field) → fields_of fields.old ≡ Ok fs → NextMessage number fs result fields.new }
{
    'fields: while let Ok(Some(field)) = fields.next() {
        if field.number == number {
            let message = bytes_of(field.value);
            let _room = message.len();
            return Some(message);
        }
        if field.number > number {
            break 'fields;
        }
    }
    *fields = Fields::of(&[]);
    None
}

/// The bytes that a value is; none where it is a number.
#[inline(always)]
fn bytes_of(value: WireValue<'_>) -> &[u8]
    ensures { result.now ≡ bytes_in (Some (seen value.entry)) }
{
    match value {
        WireValue::Bytes(bytes) => bytes,
        _ => &[],
    }
}
