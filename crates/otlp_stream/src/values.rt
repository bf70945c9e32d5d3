//! Values of attributes, read from tokens. What isn't plain is declined: a pair whose members are others than `key` and
//! then `value`, a value with another member than its one value key, and a list within one that has another than
//! `values`.
ghost use Rattle.std.specs.Prelude.{◌≡◌, ◌+◌, ◌==◌, if◌then◌else◌, [], ◌∷◌, ◌++◌, Some, None, IfOk, OnOk, option_map};
ghost use Rattle.otlp_types.specs.declared.value.AnyValue.{Array, KvList};
ghost use Rattle.otlp_reading.specs.Kinds.{message};
ghost use Rattle.otlp_reading.specs.Reading.{values, pairs, key_value, value_by, value_to, kept, discarded};
ghost use Rattle.otlp_stream.specs.Taking.{TakesAs, present, held, sieved_list};

use crate::take::{
    Declined, begin_array, begin_object, end_object, has_next, held_bool, held_double, held_i64,
    held_text, text,
};
use json::Reader;
use otlp_reading::ValueKey;
use otlp_types::{AnyValue, KeyValue, List};
use std::alloc::Global;

/// Items of a list: those that are kept, and how many are discarded.
#[derive(Drop)]
pub struct KeptItems<T> {
    pub kept: List<T>,
    pub discarded: usize,
}

impl<T: Drop> KeptItems<T> {
    /// Of no items.
    pub fn none(alloc: Global) -> KeptItems<T>
        ensures { result ≡ record { kept = []; discarded = 0 } }
    {
        KeptItems {
            kept: List::new(alloc),
            discarded: 0,
        }
    }

    /// Takes one more item.
    #[inline(always)]
    fn take(&mut self, found: Option<T>) -> Result<(), Declined>
        ensures kept { OnOk result (self.new.kept ≡ self.old.kept ++ kept (found ∷ [])) }
        ensures discarded { OnOk result (self.new.discarded ≡ self.old.discarded + discarded (found ∷ [])) }
    {
        match found {
            Some(item) => self.kept.push(item)?,
            None => {
                if self.discarded == usize::MAX {
                    return Err(Declined::Declined);
                }
                self.discarded += 1;
            }
        }
        Ok(())
    }

    /// All of them, if none is discarded.
    #[inline(always)]
    fn whole(self) -> Option<List<T>>
        ensures { result ≡ (if self.discarded == 0 then Some self.kept else None) }
    {
        if self.discarded == 0 {
            Some(self.kept)
        } else {
            None
        }
    }
}

/// A value that nests at most so many levels deep.
#[cycle(value)]
fn value_to(
    alloc: Global,
    keeps_doubles: bool,
    reader: &mut Reader<'_>,
    depth: usize,
    levels: usize,
) -> Result<Option<AnyValue>, Declined>
    ensures { IfOk result (λ x. TakesAs (value_to keeps_doubles levels) depth reader.old reader.new x) }
{
    begin_object(reader, depth)?;
    if levels == 0 {
        return Err(Declined::Declined);
    }
    let Some(name) = reader.next_key()? else {
        return Ok(Some(AnyValue::Empty));
    };
    let Some(key) = ValueKey::named(name) else {
        return Err(Declined::Declined);
    };
    let value = value_by(alloc, keeps_doubles, reader, depth - 1, levels - 1, key)?;
    end_object(reader)?;
    Ok(value)
}

/// What is held under a value key.
#[cycle(value)]
fn value_by(
    alloc: Global,
    keeps_doubles: bool,
    reader: &mut Reader<'_>,
    depth: usize,
    levels: usize,
    key: ValueKey,
) -> Result<Option<AnyValue>, Declined>
    ensures { IfOk result (λ x. TakesAs (held (value_by (value_to keeps_doubles levels) keeps_doubles key)) depth reader.old reader.new x) }
{
    match key {
        ValueKey::Str => Ok(Some(AnyValue::Str(held_text(alloc, reader)?))),
        ValueKey::Bool => Ok(Some(AnyValue::Bool(held_bool(reader)?))),
        ValueKey::Int => Ok(Some(AnyValue::Int(held_i64(reader)?))),
        ValueKey::Double => held_double(keeps_doubles, reader),
        ValueKey::Array => array(alloc, keeps_doubles, reader, depth, levels),
        ValueKey::KvList => kv_list(alloc, keeps_doubles, reader, depth, levels),
        ValueKey::Bytes => Ok(Some(AnyValue::Bytes(held_text(alloc, reader)?))),
    }
}

/// An `ArrayValue`.
#[cycle(value)]
fn array(
    alloc: Global,
    keeps_doubles: bool,
    reader: &mut Reader<'_>,
    depth: usize,
    levels: usize,
) -> Result<Option<AnyValue>, Declined>
    ensures { IfOk result (λ x. TakesAs
        (held (λ d. option_map (option_map Array) (message (values (value_to keeps_doubles levels)) d)))
        depth reader.old reader.new x) }
{
    begin_object(reader, depth)?;
    if !has_next(reader, "values")? {
        return Ok(Some(AnyValue::Array(List::new(alloc))));
    }
    let found = all_values(alloc, keeps_doubles, reader, depth - 1, levels)?;
    end_object(reader)?;
    match found.whole() {
        Some(all) => Ok(Some(AnyValue::Array(all))),
        None => Ok(None),
    }
}

/// A `KeyValueList`.
#[cycle(value)]
fn kv_list(
    alloc: Global,
    keeps_doubles: bool,
    reader: &mut Reader<'_>,
    depth: usize,
    levels: usize,
) -> Result<Option<AnyValue>, Declined>
    ensures { IfOk result (λ x. TakesAs
        (held (λ d. option_map (option_map KvList) (message (pairs (value_to keeps_doubles levels)) d)))
        depth reader.old reader.new x) }
{
    begin_object(reader, depth)?;
    if !has_next(reader, "values")? {
        return Ok(Some(AnyValue::KvList(List::new(alloc))));
    }
    let found = key_values(alloc, keeps_doubles, reader, depth - 1, levels)?;
    end_object(reader)?;
    match found.whole() {
        Some(all) => Ok(Some(AnyValue::KvList(all))),
        None => Ok(None),
    }
}

/// The values that are kept, and how many are discarded.
#[cycle(value)]
fn all_values(
    alloc: Global,
    keeps_doubles: bool,
    reader: &mut Reader<'_>,
    depth: usize,
    levels: usize,
) -> Result<KeptItems<AnyValue>, Declined>
    ensures { IfOk result (λ x. TakesAs (present (sieved_list (value_to keeps_doubles levels))) depth reader.old reader.new x) }
{
    begin_array(reader, depth)?;
    let mut found = KeptItems::none(alloc);
    'items: for _ in 0..u64::MAX {
        if reader.take_end_array() {
            return Ok(found);
        }
        found.take(value_to(alloc, keeps_doubles, reader, depth - 1, levels)?)?;
    }
    Err(Declined::Declined)
}

/// The pairs that are kept, and how many are discarded.
#[cycle(value)]
pub fn key_values(
    alloc: Global,
    keeps_doubles: bool,
    reader: &mut Reader<'_>,
    depth: usize,
    levels: usize,
) -> Result<KeptItems<KeyValue>, Declined>
    ensures { IfOk result (λ x. TakesAs (present (sieved_list (message (key_value (value_to keeps_doubles levels)))))
        depth reader.old reader.new x) }
{
    begin_array(reader, depth)?;
    let mut found = KeptItems::none(alloc);
    'items: for _ in 0..u64::MAX {
        if reader.take_end_array() {
            return Ok(found);
        }
        found.take(pair(alloc, keeps_doubles, reader, depth - 1, levels)?)?;
    }
    Err(Declined::Declined)
}

/// A pair.
#[cycle(value)]
fn pair(
    alloc: Global,
    keeps_doubles: bool,
    reader: &mut Reader<'_>,
    depth: usize,
    levels: usize,
) -> Result<Option<KeyValue>, Declined>
    ensures { IfOk result (λ x. TakesAs (message (key_value (value_to keeps_doubles levels))) depth reader.old reader.new x) }
{
    begin_object(reader, depth)?;
    if !has_next(reader, "key")? {
        return Err(Declined::Declined);
    }
    let key = text(alloc, reader)?;
    if !has_next(reader, "value")? {
        return Ok(Some(KeyValue {
            key,
            value: AnyValue::Empty,
        }));
    }
    let value = value_to(alloc, keeps_doubles, reader, depth - 1, levels)?;
    end_object(reader)?;
    match value {
        Some(value) => Ok(Some(KeyValue { key, value })),
        None => Ok(None),
    }
}
