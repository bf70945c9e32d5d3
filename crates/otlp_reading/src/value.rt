//! Values of attributes. `None` stands for a value that holds a double that isn't kept.
ghost use Rattle.std.specs.Prelude.{◌≡◌, ◌+◌, ◌-◌, ◌^◌, ◌<◌, ◌==◌, ◌++◌, ◌∷◌, [], Some, None, IfOk, OnOk, codes, option_map, if◌then◌else◌};
ghost use Rattle.serde_json.specs.View.{view, items_view, members_view};
ghost use Rattle.otlp_reading.specs.Kinds.{field, items, each, message};
ghost use Rattle.otlp_reading.specs.Gives.{Gives, GivesAs};
ghost use Rattle.otlp_reading.specs.Reading.{value_member, value_members, at_most_one, kept, discarded, sieved, key_value, double_value, value_by, value_to};

use crate::decode_error::DecodeError;
use crate::double::kept_double;
use crate::{double, kinds};
use otlp_types::{AnyValue, KeyValue, List};
use serde_json::{Map, Value};
use std::alloc::{AllocError, Global};

/// A member of an `AnyValue` that says which kind of value it is.
#[derive(Clone, Copy, PartialEq, Eq)]
pub enum ValueKey {
    Str,
    Bool,
    Int,
    Double,
    Array,
    KvList,
    Bytes,
}

impl ValueKey {
    ghost use Rattle.otlp_reading.specs.Reading.{value_key};

    /// The key of this name.
    pub fn named(name: &str) -> Option<ValueKey>
        ensures { result ≡ value_key name.now }
    {
        match name {
            "stringValue" => Some(ValueKey::Str),
            "boolValue" => Some(ValueKey::Bool),
            "intValue" => Some(ValueKey::Int),
            "doubleValue" => Some(ValueKey::Double),
            "arrayValue" => Some(ValueKey::Array),
            "kvlistValue" => Some(ValueKey::KvList),
            "bytesValue" => Some(ValueKey::Bytes),
            _ => None,
        }
    }
}

/// What the member holds, if it is a value key and isn't null.
fn value_member<'v>(name: &str, value: &'v Value) -> Option<(ValueKey, &'v Value)>
    ensures { option_map (λ h. (h.0, view h.1.now)) result
        ≡ value_member name.now (view value.now) }
{
    match ValueKey::named(name) {
        Some(key) => match kinds::unless_null(value) {
            Some(value) => Some((key, value)),
            None => None,
        },
        None => None,
    }
}

/// The one value key that isn't null, and what it holds.
fn only_value_member(
    members: &Map<String, Value>,
) -> Result<Option<(ValueKey, &Value)>, DecodeError>
    ensures { GivesAs (option_map (λ h. (h.0, view h.1.now))) result
        (at_most_one (value_members (members_view members.now.entries))) }
{
    let mut found = None;
    for (name, value) in members.iter() {
        if let Some(here) = value_member(name.as_str(), value) {
            if found.is_some() {
                return Err(DecodeError::Shape);
            }
            found = Some(here);
        }
    }
    Ok(found)
}

/// A value that nests at most so many levels deep.
#[cycle(value)]
fn value_to(
    alloc: Global,
    keeps_doubles: bool,
    value: &Value,
    levels: usize,
) -> Result<Option<AnyValue>, DecodeError>
    ensures { Gives result (value_to keeps_doubles levels (view value.now)) }
{
    if levels == 0 {
        return Err(DecodeError::Shape);
    }
    match only_value_member(kinds::object(value)?)? {
        Some((key, inner)) => value_by(alloc, keeps_doubles, key, inner, levels - 1),
        None => Ok(Some(AnyValue::Empty)),
    }
}

/// What is held under a value key.
#[cycle(value)]
fn value_by(
    alloc: Global,
    keeps_doubles: bool,
    key: ValueKey,
    value: &Value,
    levels: usize,
) -> Result<Option<AnyValue>, DecodeError>
    ensures { Gives result (value_by (value_to keeps_doubles levels) keeps_doubles key (view value.now)) }
{
    match key {
        ValueKey::Str => Ok(Some(AnyValue::Str(kinds::text_of(alloc, value)?))),
        ValueKey::Bool => Ok(Some(AnyValue::Bool(kinds::bool_of(value)?))),
        ValueKey::Int => Ok(Some(AnyValue::Int(kinds::i64_of(value)?))),
        ValueKey::Double => double_value(keeps_doubles, value),
        ValueKey::Array => {
            let (kept, discarded) = values(alloc, keeps_doubles, listed(value)?, levels)?;
            Ok(unless_discarded(discarded, AnyValue::Array(kept)))
        }
        ValueKey::KvList => {
            let (kept, discarded) = key_values(alloc, keeps_doubles, listed(value)?, levels)?;
            Ok(unless_discarded(discarded, AnyValue::KvList(kept)))
        }
        ValueKey::Bytes => Ok(Some(AnyValue::Bytes(kinds::text_of(alloc, value)?))),
    }
}

/// A double, whatever stands there where doubles are discarded.
fn double_value(keeps_doubles: bool, value: &Value) -> Result<Option<AnyValue>, DecodeError>
    ensures { Gives result (double_value keeps_doubles (view value.now)) }
{
    if !keeps_doubles {
        return Ok(None);
    }
    Ok(kept_double(double::double_of(value).ok_or(DecodeError::Shape)?))
}

/// The items of an `ArrayValue` or of a `KeyValueList`.
fn listed(value: &Value) -> Result<&[Value], DecodeError>
    ensures { GivesAs (λ s. items_view s.now) result
        (message (λ ms. items (field (codes "values") ms)) (view value.now)) }
{
    kinds::items(kinds::object(value)?, "values")
}

/// The value of a list, where nothing in it is discarded.
fn unless_discarded(discarded: usize, value: AnyValue) -> Option<AnyValue>
    ensures { result ≡ (if discarded == 0 then Some value else None) }
{
    if discarded == 0 { Some(value) } else { None }
}

/// What is kept of the items of a list, and how many are discarded.
#[derive(Drop)]
struct Sieve<T> {
    kept: List<T>,
    discarded: usize,
}

impl<T: Drop> Sieve<T> {
    /// Before the first of so many items.
    fn new(alloc: Global, count: usize) -> Result<Sieve<T>, AllocError>
        ensures kept { IfOk result (λ it. it.kept ≡ []) }
        ensures discarded { IfOk result (λ it. it.discarded ≡ 0) }
    {
        Ok(Sieve {
            kept: List::from_vec(Vec::with_capacity(alloc, count)?),
            discarded: 0,
        })
    }

    /// Takes one more item.
    fn take(&mut self, found: Option<T>) -> Result<(), AllocError>
        requires { self.old.discarded < 2 ^ 64 - 1 }
        ensures kept { OnOk result (self.new.kept ≡ self.old.kept ++ kept (found ∷ [])) }
        ensures discarded { OnOk result (self.new.discarded ≡ self.old.discarded + discarded (found ∷ [])) }
    {
        match found {
            Some(item) => self.kept.push(item)?,
            None => self.discarded += 1,
        }
        Ok(())
    }
}

/// The values that are kept, and how many are discarded.
#[cycle(value)]
fn values(
    alloc: Global,
    keeps_doubles: bool,
    items: &[Value],
    levels: usize,
) -> Result<(List<AnyValue>, usize), DecodeError>
    ensures { Gives result (option_map sieved (each (value_to keeps_doubles levels) (items_view items.now))) }
{
    let mut all = Sieve::new(alloc, items.len())?;
    for item in items {
        all.take(value_to(alloc, keeps_doubles, item, levels)?)?;
    }
    Ok((all.kept, all.discarded))
}

/// The pairs that are kept, and how many are discarded.
#[cycle(value)]
pub fn key_values(
    alloc: Global,
    keeps_doubles: bool,
    items: &[Value],
    levels: usize,
) -> Result<(List<KeyValue>, usize), DecodeError>
    ensures { Gives result
        (option_map sieved (each (message (key_value (value_to keeps_doubles levels))) (items_view items.now))) }
{
    let mut all = Sieve::new(alloc, items.len())?;
    for item in items {
        all.take(key_value(alloc, keeps_doubles, item, levels)?)?;
    }
    Ok((all.kept, all.discarded))
}

/// A pair.
#[cycle(value)]
fn key_value(
    alloc: Global,
    keeps_doubles: bool,
    item: &Value,
    levels: usize,
) -> Result<Option<KeyValue>, DecodeError>
    ensures { Gives result (message (key_value (value_to keeps_doubles levels)) (view item.now)) }
{
    let members = kinds::object(item)?;
    let key = kinds::text(alloc, members, "key")?;
    match kinds::field(members, "value") {
        Some(inner) => match value_to(alloc, keeps_doubles, inner, levels)? {
            Some(value) => Ok(Some(KeyValue { key, value })),
            None => Ok(None),
        },
        None => Ok(Some(KeyValue {
            key,
            value: AnyValue::Empty,
        })),
    }
}
