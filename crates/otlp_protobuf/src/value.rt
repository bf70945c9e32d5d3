//! Values of attributes.
ghost use Rattle.std.specs.Prelude.{◌≡◌, ◌++◌, ◌∷◌, []};
ghost use Rattle.protobuf_wire.specs.Seen.{seen_field};
ghost use Rattle.otlp_types.specs.declared.value.AnyValue.{out-AnyValue};
ghost use Rattle.otlp_protobuf.specs.Kinds.{merged};
ghost use Rattle.otlp_protobuf.specs.Values.{items_in, pairs_in, array_step, list_step, pair_step, pair_of, value_step, value_to};
ghost use Rattle.otlp_protobuf.specs.Gives.{Gives, GivesAs};

use crate::decode_error::DecodeError;
use crate::kinds;
use crate::protobuf_fault::ProtobufFault;
use otlp_types::{AnyValue, KeyValue, List, Text};
use protobuf_wire::{Fields, WireField, WireValue};
use std::alloc::Global;
use std::mem;

/// The items of a list of values; any other value has none.
fn items_in(alloc: Global, value: AnyValue) -> List<AnyValue>
    ensures { result ≡ items_in (out-AnyValue value) }
{
    match value {
        AnyValue::Array(items) => items,
        _ => List::new(alloc),
    }
}

/// The pairs of a list of pairs; any other value has none.
fn pairs_in(alloc: Global, value: AnyValue) -> List<KeyValue>
    ensures { result ≡ pairs_in (out-AnyValue value) }
{
    match value {
        AnyValue::KvList(pairs) => pairs,
        _ => List::new(alloc),
    }
}

/// Adds the fields of some bytes to a value, which nests at most so many levels deep.
#[cycle(value)]
pub fn value_to(
    alloc: Global,
    value: &mut AnyValue,
    bytes: &[u8],
    levels: usize,
) -> Result<(), DecodeError>
    ensures { GivesAs (λ _. value.new) result (value_to levels value.old bytes.now) }
{
    if levels == 0 {
        return Err(DecodeError::Refused(ProtobufFault::TooDeep));
    }
    value_fields(alloc, value, bytes, levels - 1)
}

/// Adds the fields of some bytes to a value, of which the values inside nest at most so many levels deep.
#[cycle(value)]
fn value_fields(
    alloc: Global,
    value: &mut AnyValue,
    bytes: &[u8],
    levels: usize,
) -> Result<(), DecodeError>
    ensures { GivesAs (λ _. value.new) result (merged (value_step (value_to levels)) value.old bytes.now) }
{
    let mut fields = Fields::of(bytes);
    'fields: while let Some(field) = fields.next()? {
        value_with(alloc, value, field, levels)?;
    }
    Ok(())
}

/// Adds a field to a value.
#[cycle(value)]
fn value_with(
    alloc: Global,
    value: &mut AnyValue,
    field: WireField<'_>,
    levels: usize,
) -> Result<(), DecodeError>
    ensures { GivesAs (λ _. value.new) result (value_step (value_to levels) value.old (seen_field field.entry)) }
{
    match field.value {
        WireValue::Bytes(bytes) => match field.number {
            1 => *value = AnyValue::Str(kinds::text(alloc, bytes)?),
            5 => {
                let mut items = items_in(alloc, mem::replace(value, AnyValue::Empty));
                array(alloc, &mut items, bytes, levels)?;
                *value = AnyValue::Array(items);
            }
            6 => {
                let mut pairs = pairs_in(alloc, mem::replace(value, AnyValue::Empty));
                list(alloc, &mut pairs, bytes, levels)?;
                *value = AnyValue::KvList(pairs);
            }
            7 => *value = AnyValue::Bytes(kinds::base64_text(alloc, bytes)?),
            _ => {}
        },
        WireValue::Varint(bits) => match field.number {
            2 => *value = AnyValue::Bool(kinds::truth(bits)),
            3 => *value = AnyValue::Int(kinds::int64(bits)),
            _ => {}
        },
        WireValue::Fixed64(bits) if field.number == 4 => {
            *value = AnyValue::Double(kinds::double(bits));
        }
        _ => {}
    }
    Ok(())
}

/// Adds the fields of an `ArrayValue` to some items.
#[cycle(value)]
fn array(
    alloc: Global,
    items: &mut List<AnyValue>,
    bytes: &[u8],
    levels: usize,
) -> Result<(), DecodeError>
    ensures { GivesAs (λ _. items.new) result (merged (array_step (value_to levels)) items.old bytes.now) }
{
    let mut fields = Fields::of(bytes);
    'fields: while let Some(field) = fields.next()? {
        array_with(alloc, items, field, levels)?;
    }
    Ok(())
}

/// Adds a field of an `ArrayValue`.
#[cycle(value)]
fn array_with(
    alloc: Global,
    items: &mut List<AnyValue>,
    field: WireField<'_>,
    levels: usize,
) -> Result<(), DecodeError>
    ensures { GivesAs (λ _. items.new) result (array_step (value_to levels) items.old (seen_field field.entry)) }
{
    match field.value {
        WireValue::Bytes(bytes) if field.number == 1 => {
            let mut item = AnyValue::Empty;
            value_to(alloc, &mut item, bytes, levels)?;
            items.push(item)?;
        }
        _ => {}
    }
    Ok(())
}

/// Adds the fields of a `KeyValueList` to some pairs.
#[cycle(value)]
fn list(
    alloc: Global,
    pairs: &mut List<KeyValue>,
    bytes: &[u8],
    levels: usize,
) -> Result<(), DecodeError>
    ensures { GivesAs (λ _. pairs.new) result (merged (list_step (value_to levels)) pairs.old bytes.now) }
{
    let mut fields = Fields::of(bytes);
    'fields: while let Some(field) = fields.next()? {
        list_with(alloc, pairs, field, levels)?;
    }
    Ok(())
}

/// Adds a field of a `KeyValueList`.
#[cycle(value)]
fn list_with(
    alloc: Global,
    pairs: &mut List<KeyValue>,
    field: WireField<'_>,
    levels: usize,
) -> Result<(), DecodeError>
    ensures { GivesAs (λ _. pairs.new) result (list_step (value_to levels) pairs.old (seen_field field.entry)) }
{
    match field.value {
        WireValue::Bytes(bytes) if field.number == 1 => {
            pairs.push(pair(alloc, bytes, levels)?)?;
        }
        _ => {}
    }
    Ok(())
}

/// A `KeyValue`.
#[cycle(value)]
pub fn pair(alloc: Global, bytes: &[u8], levels: usize) -> Result<KeyValue, DecodeError>
    ensures { Gives result (pair_of (value_to levels) bytes.now) }
{
    let mut pair = KeyValue {
        key: Text::new(alloc),
        value: AnyValue::Empty,
    };
    let mut fields = Fields::of(bytes);
    'fields: while let Some(field) = fields.next()? {
        pair_with(alloc, &mut pair, field, levels)?;
    }
    Ok(pair)
}

/// Adds a field to a `KeyValue`.
#[cycle(value)]
fn pair_with(
    alloc: Global,
    pair: &mut KeyValue,
    field: WireField<'_>,
    levels: usize,
) -> Result<(), DecodeError>
    ensures { GivesAs (λ _. pair.new) result (pair_step (value_to levels) pair.old (seen_field field.entry)) }
{
    match field.value {
        WireValue::Bytes(bytes) => match field.number {
            1 => pair.key = kinds::text(alloc, bytes)?,
            2 => value_to(alloc, &mut pair.value, bytes, levels)?,
            _ => {}
        },
        _ => {}
    }
    Ok(())
}
