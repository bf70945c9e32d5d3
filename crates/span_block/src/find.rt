//! Fields of a message, found by their numbers: one at a time, from the front.
ghost use Rattle.std.specs.Prelude.{◌≡◌, ◌<◌, ◌^◌, List, Ok, length};
ghost use Rattle.protobuf_wire.specs.Wire.{Field, fields_of};
ghost use Rattle.span_block.specs.Walk.{first_field, number_in, fixed64_in, fixed32_in, bytes_in};

use message_cursor::Cursor;

/// The bits of a `uint32`, an `int32` or an enumeration; 0 where there is no such field.
pub fn number_at(message: &[u8], number: u32) -> u64
    ensures { (fs : List Field) → fields_of message.now ≡ Ok fs → result ≡ number_in (first_field number fs) }
{
    let mut cursor = Cursor::of(message);
    cursor.number(number)
}

/// A `fixed64`; 0 where there is no such field.
pub fn fixed64_at(message: &[u8], number: u32) -> u64
    ensures { (fs : List Field) → fields_of message.now ≡ Ok fs → result ≡ fixed64_in (first_field number fs) }
{
    let mut cursor = Cursor::of(message);
    cursor.fixed64(number)
}

/// A `fixed32`; 0 where there is no such field.
pub fn fixed32_at(message: &[u8], number: u32) -> u32
    ensures { (fs : List Field) → fields_of message.now ≡ Ok fs → result ≡ fixed32_in (first_field number fs) }
{
    let mut cursor = Cursor::of(message);
    cursor.fixed32(number)
}

/// A text, an id or a message; empty where there is no such field.
pub fn bytes_at(message: &[u8], number: u32) -> &[u8]
    ensures room { length result.now < 2 ^ 64 }
    ensures found { (fs : List Field) → fields_of message.now ≡ Ok fs → result.now ≡ bytes_in (first_field number fs) }
{
    let mut cursor = Cursor::of(message);
    cursor.bytes(number)
}
