//! A message, gone through once.
ghost use Rattle.std.specs.Prelude.{◌≡◌, ◌<◌, ◌^◌, length, Ok, IfSome, List, option_map};
ghost use Rattle.protobuf_wire.specs.Wire.{Field, fields_of};
ghost use Rattle.protobuf_wire.specs.Seen.{seen};
ghost use Rattle.message_cursor.specs.Walk.{number_in, fixed64_in, fixed32_in, bytes_in, Asked, NextMessage};

use crate::front::{bytes_front, fixed64_front, is_passed, number_front, seek};
use protobuf_wire::WireValue;

/// The fields of a message that are left. It is asked for fields in the order of their numbers: what was passed is not found
/// again. A field with a key of one byte (a number up to 15) is told by that byte alone.
#[derive(Clone, Copy)]
pub struct Cursor<'a> {
    /// The bytes of these fields.
    pub rest: &'a [u8],
}

impl<'a> Cursor<'a> {
    /// All fields of a message.
    #[inline(always)]
    pub fn of(message: &'a [u8]) -> Cursor<'a>
        ensures { result.rest.now ≡ message.now }
    {
        Cursor { rest: message }
    }

    /// The bits of a `uint32`, an `int32` or an enumeration; 0 where there is no such field.
    #[inline(always)]
    #[tactic(auto, using(crate::proofs::Walks::took, crate::proofs::Walks::none, crate::proofs::Walks::sought))]
    pub fn number(&mut self, number: u32) -> u64
        ensures { (fs : List Field) → fields_of self.old.rest.now ≡ Ok fs → Asked number_in number fs result self.new.rest.now }
    {
        if let Some((value, rest)) = number_front(self.rest, number) {
            self.rest = rest;
            return value;
        }
        if is_passed(self.rest, number) {
            return 0;
        }
        let (found, rest) = seek(self.rest, number);
        self.rest = rest;
        number_of(found)
    }

    /// A `fixed64`; 0 where there is no such field.
    #[inline(always)]
    #[tactic(auto, using(crate::proofs::Walks::took, crate::proofs::Walks::none, crate::proofs::Walks::sought))]
    pub fn fixed64(&mut self, number: u32) -> u64
        ensures { (fs : List Field) → fields_of self.old.rest.now ≡ Ok fs → Asked fixed64_in number fs result self.new.rest.now }
    {
        if let Some((value, rest)) = fixed64_front(self.rest, number) {
            self.rest = rest;
            return value;
        }
        if is_passed(self.rest, number) {
            return 0;
        }
        let (found, rest) = seek(self.rest, number);
        self.rest = rest;
        fixed64_of(found)
    }

    /// A `fixed32`; 0 where there is no such field.
    #[inline(always)]
    #[tactic(auto, using(crate::proofs::Walks::took, crate::proofs::Walks::none, crate::proofs::Walks::sought))]
    pub fn fixed32(&mut self, number: u32) -> u32
        ensures { (fs : List Field) → fields_of self.old.rest.now ≡ Ok fs → Asked fixed32_in number fs result self.new.rest.now }
    {
        if is_passed(self.rest, number) {
            return 0;
        }
        let (found, rest) = seek(self.rest, number);
        self.rest = rest;
        fixed32_of(found)
    }

    /// A text, an id or a message; empty where there is no such field.
    #[inline(always)]
    #[tactic(auto, using(crate::proofs::Walks::took, crate::proofs::Walks::none, crate::proofs::Walks::sought))]
    pub fn bytes(&mut self, number: u32) -> &'a [u8]
        ensures room { length result.now < 2 ^ 64 }
        ensures asked { (fs : List Field) → fields_of self.old.rest.now ≡ Ok fs → Asked bytes_in number fs result.now self.new.rest.now }
    {
        if let Some((value, rest)) = bytes_front(self.rest, number) {
            self.rest = rest;
            let _room = value.len();
            return value;
        }
        if is_passed(self.rest, number) {
            return &[];
        }
        let (found, rest) = seek(self.rest, number);
        self.rest = rest;
        bytes_of(found)
    }

    /// The next message in a field of this number; behind the last one the fields are at their end.
    #[inline(always)]
    #[tactic(auto, using(crate::proofs::Walks::front_message))]
    pub fn message(&mut self, number: u32) -> Option<&'a [u8]>
        ensures room { IfSome result (λ message. length message.now < 2 ^ 64) }
        ensures shorter { IfSome result (λ _. length self.new.rest.now < length self.old.rest.now) }
        ensures next { (fs : List Field) → fields_of self.old.rest.now ≡ Ok fs → NextMessage number fs result self.new.rest.now }
    {
        if let Some((value, rest)) = bytes_front(self.rest, number) {
            self.rest = rest;
            let _room = value.len();
            return Some(value);
        }
        self.later_message(number)
    }

    /// The same, where it isn't the first field.
    #[tactic(auto, using(crate::proofs::Walks::no_front, crate::proofs::Walks::next_some, crate::proofs::Walks::next_none))]
    fn later_message(&mut self, number: u32) -> Option<&'a [u8]>
        ensures room { IfSome result (λ message. length message.now < 2 ^ 64) }
        ensures shorter { IfSome result (λ _. length self.new.rest.now < length self.old.rest.now) }
        ensures next { (fs : List Field) → fields_of self.old.rest.now ≡ Ok fs → NextMessage number fs result self.new.rest.now }
    {
        if is_passed(self.rest, number) {
            self.rest = &[];
            return None;
        }
        let (found, rest) = seek(self.rest, number);
        match found {
            Some(_value) => {
                self.rest = rest;
                Some(bytes_of(found))
            }
            None => {
                self.rest = &[];
                None
            }
        }
    }
}

/// The number that is found; 0 where something else is.
#[inline(always)]
fn number_of(found: Option<WireValue<'_>>) -> u64
    ensures { result ≡ number_in (option_map seen found.entry) }
{
    match found {
        Some(WireValue::Varint(bits)) => bits,
        _ => 0,
    }
}

/// The `fixed64` that is found; 0 where something else is.
#[inline(always)]
fn fixed64_of(found: Option<WireValue<'_>>) -> u64
    ensures { result ≡ fixed64_in (option_map seen found.entry) }
{
    match found {
        Some(WireValue::Fixed64(value)) => value,
        _ => 0,
    }
}

/// The `fixed32` that is found; 0 where something else is.
#[inline(always)]
fn fixed32_of(found: Option<WireValue<'_>>) -> u32
    ensures { result ≡ fixed32_in (option_map seen found.entry) }
{
    match found {
        Some(WireValue::Fixed32(value)) => value,
        _ => 0,
    }
}

/// The bytes that are found; none where a number is.
#[inline(always)]
fn bytes_of(found: Option<WireValue<'_>>) -> &[u8]
    ensures room { length result.now < 2 ^ 64 }
    ensures found { result.now ≡ bytes_in (option_map seen found.entry) }
{
    let bytes: &[u8] = match found {
        Some(WireValue::Bytes(value)) => value,
        _ => &[],
    };
    let _room = bytes.len();
    bytes
}
