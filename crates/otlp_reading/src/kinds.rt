//! Fields of an object, by their kinds, and the values that they hold.
ghost use Rattle.std.specs.Prelude.{◌≡◌, ◌^◌, Some, None, option_map, option_and_then, slice_index};
ghost use Rattle.serde_json.specs.Data.{Data};
ghost use Rattle.serde_json.specs.Find.{get_member, as_str, as_bool, as_array, as_object};
ghost use Rattle.serde_json.specs.View.{view, items_view, members_view};
ghost use Rattle.otlp_reading.specs.Kinds.{field, unless_null, read_or, text, whole_text, whole, natural_below, signed_within, enum, u32, u64, i64_value, items};
ghost use Rattle.otlp_reading.specs.Gives.{Gives, GivesAs};
ghost use Rattle.otlp_reading.specs.Zero.{zero_only};

use crate::decode_error::DecodeError;
use otlp_types::Text;
use serde_json::{Map, Value};
use std::alloc::Global;

/// The value, unless it is null.
pub fn unless_null(value: &Value) -> Option<&Value>
    ensures { option_map (λ v. view v.now) result ≡ unless_null (view value.now) }
{
    if value.is_null() { None } else { Some(value) }
}

/// The member of this name.
fn member<'v>(members: &'v Map<String, Value>, name: &str) -> Option<&'v Value>
    ensures { option_map (λ v. view v.now) result
        ≡ get_member name.now (members_view members.now.entries) }
{
    members.get(name)
}

/// The member of this name, unless it is null.
pub fn field<'v>(members: &'v Map<String, Value>, name: &str) -> Option<&'v Value>
    ensures { option_map (λ v. view v.now) result
        ≡ field name.now (members_view members.now.entries) }
{
    match member(members, name) {
        Some(value) => unless_null(value),
        None => None,
    }
}

/// A text value, copied.
pub fn text_of(alloc: Global, value: &Value) -> Result<Text, DecodeError>
    ensures { Gives result (as_str (view value.now)) }
{
    match value.as_str() {
        Some(text) => Ok(Text::from_str(alloc, text)?),
        None => Err(DecodeError::Shape),
    }
}

/// The text of a field, where it stands. An absent one is empty.
pub fn borrowed_text<'v>(
    members: &'v Map<String, Value>,
    name: &str,
) -> Result<&'v str, DecodeError>
    ensures { GivesAs (λ s. s.now) result
        (text (field name.now (members_view members.now.entries))) }
{
    match field(members, name) {
        Some(value) => value.as_str().ok_or(DecodeError::Shape),
        None => Ok(""),
    }
}

/// The text of a field, copied.
pub fn text(alloc: Global, members: &Map<String, Value>, name: &str) -> Result<Text, DecodeError>
    ensures { Gives result (text (field name.now (members_view members.now.entries))) }
{
    Ok(Text::from_str(alloc, borrowed_text(members, name)?)?)
}

/// A truth value.
pub fn bool_of(value: &Value) -> Result<bool, DecodeError>
    ensures { Gives result (as_bool (view value.now)) }
{
    value.as_bool().ok_or(DecodeError::Shape)
}

/// The members of an object.
pub fn object(value: &Value) -> Result<&Map<String, Value>, DecodeError>
    ensures { GivesAs (λ ms. members_view ms.now.entries) result (as_object (view value.now)) }
{
    value.as_object().ok_or(DecodeError::Shape)
}

/// The items of a list. An absent one has none.
pub fn items<'v>(members: &'v Map<String, Value>, name: &str) -> Result<&'v [Value], DecodeError>
    ensures { GivesAs (λ s. items_view s.now) result
        (items (field name.now (members_view members.now.entries))) }
{
    match field(members, name) {
        Some(Value::Array(items)) => Ok(items.as_slice()),
        Some(_) => Err(DecodeError::Shape),
        None => Ok(&[]),
    }
}

/// The first byte of a text, or 0.
pub fn first_byte(text: &str) -> u8
    ensures { result ≡ slice_index text.now 0 }
{
    text.as_bytes().first().copied().unwrap_or(0)
}

/// Zero, if it is that.
fn zero_only(n: Option<i64>) -> Option<u64>
    ensures { result ≡ zero_only n }
{
    match n {
        Some(0) => Some(0),
        _ => None,
    }
}

/// The number that decimal text writes, where an unsigned one takes it: `-0` is 0, and a plus sign is refused.
pub fn u64_text(text: &str) -> Option<u64>
    ensures { result ≡ option_and_then (natural_below (2 ^ 64)) (whole_text text.now) }
{
    let first = first_byte(text);
    if first == b'+' {
        None
    } else if first == b'-' {
        zero_only(i64_text(text))
    } else {
        text.parse::<u64>().ok()
    }
}

/// The number that decimal text writes. A plus sign is refused.
pub fn i64_text(text: &str) -> Option<i64>
    ensures { result ≡ option_and_then (signed_within (2 ^ 63)) (whole_text text.now) }
{
    if first_byte(text) == b'+' {
        None
    } else {
        text.parse::<i64>().ok()
    }
}

/// An unsigned number, or decimal text.
fn u64_of(value: &Value) -> Result<u64, DecodeError>
    ensures { Gives result (option_and_then (natural_below (2 ^ 64)) (whole (view value.now))) }
{
    let found = match value {
        Value::String(text) => u64_text(text.as_str()),
        _ => value.as_u64(),
    };
    found.ok_or(DecodeError::Shape)
}

/// An unsigned field of 64 bits. An absent one is 0.
pub fn u64(members: &Map<String, Value>, name: &str) -> Result<u64, DecodeError>
    ensures { Gives result (u64 (field name.now (members_view members.now.entries))) }
{
    match field(members, name) {
        Some(value) => u64_of(value),
        None => Ok(0),
    }
}

/// A signed number, or decimal text.
pub fn i64_of(value: &Value) -> Result<i64, DecodeError>
    ensures { Gives result (i64_value (view value.now)) }
{
    let found = match value {
        Value::String(text) => i64_text(text.as_str()),
        _ => value.as_i64(),
    };
    found.ok_or(DecodeError::Shape)
}

/// An unsigned number of 32 bits, or decimal text.
fn u32_of(value: &Value) -> Result<u32, DecodeError>
    ensures { Gives result (option_and_then (natural_below (2 ^ 32)) (whole (view value.now))) }
{
    u32::try_from(u64_of(value)?).map_err(|_| DecodeError::Shape)
}

/// An unsigned field of 32 bits. An absent one is 0.
pub fn u32(members: &Map<String, Value>, name: &str) -> Result<u32, DecodeError>
    ensures { Gives result (u32 (field name.now (members_view members.now.entries))) }
{
    match field(members, name) {
        Some(value) => u32_of(value),
        None => Ok(0),
    }
}

/// The number of an enumeration. Text is refused.
fn enum_of(value: &Value) -> Result<i32, DecodeError>
    ensures { Gives result (enum (Some (view value.now))) }
{
    let n = value.as_i64().ok_or(DecodeError::Shape)?;
    i32::try_from(n).map_err(|_| DecodeError::Shape)
}

/// A field of an enumeration. An absent one is 0.
pub fn enumeration(members: &Map<String, Value>, name: &str) -> Result<i32, DecodeError>
    ensures { Gives result (enum (field name.now (members_view members.now.entries))) }
{
    match field(members, name) {
        Some(value) => enum_of(value),
        None => Ok(0),
    }
}
