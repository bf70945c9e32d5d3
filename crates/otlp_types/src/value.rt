//! Attributes and their values (OTLP 1.x, `common.proto` v1).
ghost use Rattle.std.specs.Prelude.{◌≡◌, IfOk};
ghost use Rattle.std.specs.List.{list_any};
ghost use Rattle.otlp_types.specs.HoldsDouble.{holds_double, is_of_double};

use crate::double::Double;
use crate::list::{List, Text, TryClone};
use std::alloc::{AllocError, Global};

/// The value of an attribute (`common.proto` v1, `AnyValue`).
#[cycle(value)]
#[derive(Drop)]
pub enum AnyValue {
    /// No value at all.
    Empty,
    Str(Text),
    Bool(bool),
    Int(i64),
    Double(Double),
    Array(List<AnyValue>),
    KvList(List<KeyValue>),
    /// The base64 text that came, not decoded.
    Bytes(Text),
}

/// An attribute, or a pair of a list of pairs (`common.proto` v1, `KeyValue`).
#[cycle(value)]
#[derive(Drop)]
pub struct KeyValue {
    pub key: Text,
    pub value: AnyValue,
}

#[cycle(clone)]
fn clone_value(alloc: Global, value: &AnyValue) -> Result<AnyValue, AllocError>
    ensures { IfOk result (λ copy. copy ≡ value.now) }
{
    match value {
        AnyValue::Empty => Ok(AnyValue::Empty),
        AnyValue::Str(text) => Ok(AnyValue::Str(text.try_clone(alloc)?)),
        AnyValue::Bool(b) => Ok(AnyValue::Bool(*b)),
        AnyValue::Int(n) => Ok(AnyValue::Int(*n)),
        AnyValue::Double(x) => Ok(AnyValue::Double(*x)),
        AnyValue::Array(values) => Ok(AnyValue::Array(clone_values(alloc, values)?)),
        AnyValue::KvList(pairs) => Ok(AnyValue::KvList(clone_pairs(alloc, pairs)?)),
        AnyValue::Bytes(text) => Ok(AnyValue::Bytes(text.try_clone(alloc)?)),
    }
}

#[cycle(clone)]
fn clone_values(alloc: Global, values: &List<AnyValue>) -> Result<List<AnyValue>, AllocError>
    ensures { IfOk result (λ copy. copy ≡ values.now) }
{
    let mut copy = List::new(alloc);
    for value in values.as_slice() {
        copy.push(clone_value(alloc, value)?)?;
    }
    Ok(copy)
}

#[cycle(clone)]
fn clone_pairs(alloc: Global, pairs: &List<KeyValue>) -> Result<List<KeyValue>, AllocError>
    ensures { IfOk result (λ copy. copy ≡ pairs.now) }
{
    let mut copy = List::new(alloc);
    for pair in pairs.as_slice() {
        copy.push(clone_pair(alloc, pair)?)?;
    }
    Ok(copy)
}

#[cycle(clone)]
fn clone_pair(alloc: Global, pair: &KeyValue) -> Result<KeyValue, AllocError>
    ensures { IfOk result (λ copy. copy ≡ pair.now) }
{
    Ok(KeyValue {
        key: pair.key.try_clone(alloc)?,
        value: clone_value(alloc, &pair.value)?,
    })
}

impl TryClone for AnyValue {
    fn try_clone(&self, alloc: Global) -> Result<AnyValue, AllocError> {
        clone_value(alloc, self)
    }
}

impl TryClone for KeyValue {
    fn try_clone(&self, alloc: Global) -> Result<KeyValue, AllocError> {
        clone_pair(alloc, self)
    }
}

impl AnyValue {
    /// Whether it holds a double, at any depth. It takes no memory.
    pub fn holds_double(&self) -> bool
        ensures { result ≡ holds_double self.now }
    {
        value_holds_double(self)
    }
}

#[cycle(doubles)]
fn value_holds_double(value: &AnyValue) -> bool
    ensures { result ≡ holds_double value.now }
{
    match value {
        AnyValue::Double(_) => true,
        AnyValue::Array(items) => any_holds_double(items.as_slice()),
        AnyValue::KvList(pairs) => any_is_of_double(pairs.as_slice()),
        _ => false,
    }
}

#[cycle(doubles)]
fn any_holds_double(values: &[AnyValue]) -> bool
    ensures { result ≡ list_any holds_double values.now }
{
    for value in values {
        if value_holds_double(value) {
            return true;
        }
    }
    false
}

#[cycle(doubles)]
fn any_is_of_double(pairs: &[KeyValue]) -> bool
    ensures { result ≡ list_any is_of_double pairs.now }
{
    for pair in pairs {
        if value_holds_double(&pair.value) {
            return true;
        }
    }
    false
}
