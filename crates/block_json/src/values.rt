//! Values of attributes, told from their messages.
ghost use Rattle.std.specs.Prelude.{◌≡◌, ◌<◌, ◌^◌, length, suc, ◌∷◌, [], List, Some, map, codes};
ghost use Rattle.protobuf_wire.specs.Wire.{Field};
ghost use Rattle.protobuf_wire.specs.Seen.{seen, seen_field};
ghost use Rattle.serde_json.specs.Data.{object};
ghost use Rattle.otlp_types.specs.declared.value.AnyValue.{AnyValue};
ghost use Rattle.otlp_types.specs.declared.value.KeyValue.{KeyValue};
ghost use Rattle.otlp_protobuf.specs.Kinds.{int64, truth, double};
ghost use Rattle.otlp_protobuf_encode.specs.Writing as wire;
ghost use Rattle.otlp_json.specs.Tokens.{field_tokens, value_tokens};
ghost use Rattle.otlp_json.specs.Writing.{message_field, list_field, fields as fields_of, value_fields, pair_fields};
ghost use Rattle.span_block.specs.Walk.{bytes_in, number_in, fixed64_in};
ghost use Rattle.span_block.specs.Typed.{ValueIsTyped, SetIsTyped, PairIsTyped};
ghost use Rattle.block_json.specs.Messages.{IsOf, AreIn};

use crate::members;
use crate::sink::TokenSink;
use message_cursor::Cursor;
use otlp_types::Double;
use protobuf_wire::{Fields, WireField, WireValue};
use std::num::f64_from_bits_with_nan;

/// Pairs in the fields of this number, as a member of this name, unless there are none. Values nest at most so many levels
/// deep.
#[cycle(value)]
pub fn pairs<S: TokenSink>(out: &mut S, name: &str, levels: u32, number: u32, message: &[u8])
    ensures { (ps : List KeyValue) → AreIn wire.pair_fields (PairIsTyped levels) number message.now ps
        → S.adds out.old out.new (field_tokens name.now (list_field (map pair_fields ps))) }
{
    let mut items = Cursor::of(message);
    let Some(first) = items.message(number) else {
        return;
    };
    out.key(name);
    out.begin_array();
    pair(out, levels, first);
    'items: while let Some(item) = items.message(number) {
        pair(out, levels, item);
    }
    out.end_array();
}

/// The object of a pair.
#[cycle(value)]
fn pair<S: TokenSink>(out: &mut S, levels: u32, message: &[u8])
    ensures { (p : KeyValue) → IsOf wire.pair_fields (PairIsTyped levels) message.now p
        → S.adds out.old out.new (value_tokens (object (pair_fields p))) }
{
    let _room = message.len();
    let mut cursor = Cursor::of(message);
    let key = cursor.bytes(1);
    let held = cursor.bytes(2);
    out.begin_object();
    members::text(out, "key", key);
    set_value(out, levels, held);
    out.end_object();
}

/// The member `value` of a pair, where one is set.
#[cycle(value)]
fn set_value<S: TokenSink>(out: &mut S, levels: u32, message: &[u8])
    ensures { (v : AnyValue) → IsOf wire.value_fields (SetIsTyped levels) message.now v
        → S.adds out.old out.new (field_tokens (codes "value") (message_field (value_fields v))) }
{
    if message.is_empty() {
        return;
    }
    out.key("value");
    value(out, levels, message);
}

/// The object of a value.
#[cycle(value)]
fn value<S: TokenSink>(out: &mut S, levels: u32, message: &[u8])
    ensures { (v : AnyValue) → IsOf wire.value_fields (ValueIsTyped levels) message.now v
        → S.adds out.old out.new (value_tokens (object (value_fields v))) }
{
    let _room = message.len();
    let Some(below) = levels.checked_sub(1) else {
        return;
    };
    let mut fields = Fields::of(message);
    let Ok(found) = fields.next() else {
        return;
    };
    match found {
        Some(field) => value_of(out, below, field),
        None => members::object_of_none(out),
    }
}

/// The object of a value that is this field. Values inside nest at most so many levels deep.
#[cycle(value)]
fn value_of<S: TokenSink>(out: &mut S, levels: u32, field: WireField<'_>)
    ensures { (v : AnyValue) (fs : List Field) → ValueIsTyped (suc levels) v
        → wire.value_fields v ≡ seen_field field.entry ∷ fs
        → S.adds out.old out.new (value_tokens (object (value_fields v))) }
{
    let bytes = bytes_of(field.value);
    match field.number {
        1 => members::object_of_text(out, bytes),
        2 => members::object_of_bool(out, truth_of(field.value)),
        3 => members::object_of_integer(out, integer_of(field.value)),
        4 => members::object_of_double(out, double_of(field.value)),
        5 => array(out, levels, bytes),
        6 => list_of_pairs(out, levels, bytes),
        _ => members::object_of_bytes(out, bytes),
    }
}

/// The object of a list of values.
#[cycle(value)]
fn array<S: TokenSink>(out: &mut S, levels: u32, message: &[u8])
    ensures { (vs : List AnyValue) → AreIn wire.value_fields (ValueIsTyped levels) 1 message.now vs
        → S.adds out.old out.new (value_tokens (object (fields_of ((
          codes "arrayValue",
          Some (object (fields_of
              ((codes "values", list_field (map value_fields vs)) ∷ []))),
        ) ∷ [])))) }
{
    out.begin_object();
    out.key("arrayValue");
    out.begin_object();
    values(out, levels, message);
    out.end_object();
    out.end_object();
}

/// The object of a list of pairs.
#[cycle(value)]
fn list_of_pairs<S: TokenSink>(out: &mut S, levels: u32, message: &[u8])
    ensures { (ps : List KeyValue) → AreIn wire.pair_fields (PairIsTyped levels) 1 message.now ps
        → S.adds out.old out.new (value_tokens (object (fields_of ((
          codes "kvlistValue",
          Some (object (fields_of
              ((codes "values", list_field (map pair_fields ps)) ∷ []))),
        ) ∷ [])))) }
{
    out.begin_object();
    out.key("kvlistValue");
    out.begin_object();
    pairs(out, "values", levels, 1, message);
    out.end_object();
    out.end_object();
}

/// Values in the fields of number 1, as the member `values`, unless there are none.
#[cycle(value)]
fn values<S: TokenSink>(out: &mut S, levels: u32, message: &[u8])
    ensures { (vs : List AnyValue) → AreIn wire.value_fields (ValueIsTyped levels) 1 message.now vs
        → S.adds out.old out.new (field_tokens (codes "values") (list_field (map value_fields vs))) }
{
    let mut items = Cursor::of(message);
    let Some(first) = items.message(1) else {
        return;
    };
    out.key("values");
    out.begin_array();
    value(out, levels, first);
    'items: while let Some(item) = items.message(1) {
        value(out, levels, item);
    }
    out.end_array();
}

/// The bytes that a field holds; none where it holds a number.
#[inline(always)]
fn bytes_of(value: WireValue<'_>) -> &[u8]
    ensures bytes { result.now ≡ bytes_in (Some (seen value.entry)) }
    ensures room { length result.now < 2 ^ 64 }
{
    let found: &[u8] = match value {
        WireValue::Bytes(bytes) => bytes,
        _ => &[],
    };
    let _room = found.len();
    found
}

/// The truth value that a field holds; `false` where it holds something else.
#[inline(always)]
fn truth_of(value: WireValue<'_>) -> bool
    ensures { result ≡ truth (number_in (Some (seen value.entry))) }
{
    match value {
        WireValue::Varint(bits) => bits != 0,
        _ => false,
    }
}

/// The integer that a field holds; 0 where it holds something else.
#[inline(always)]
fn integer_of(value: WireValue<'_>) -> i64
    ensures { result ≡ int64 (number_in (Some (seen value.entry))) }
{
    let bits = match value {
        WireValue::Varint(bits) => bits,
        _ => 0,
    };
    bits.cast_signed()
}

/// The double that a field holds; 0 where it holds something else.
#[inline(always)]
fn double_of(value: WireValue<'_>) -> Double
    ensures { result ≡ double (fixed64_in (Some (seen value.entry))) }
{
    let bits = match value {
        WireValue::Fixed64(bits) => bits,
        _ => 0,
    };
    Double::new(f64_from_bits_with_nan(bits))
}
