//! When values of attributes are equal.
ghost use Rattle.std.specs.Prelude.{◌≡◌};
ghost use Rattle.std.specs.Option.{option_copied};
ghost use Rattle.ottl_equality.specs.Equality as spec;

use crate::encoded::{Bytes, Part, order};
use otlp_types::{AnyValue, KeyValue, Text};
use std::cmp::Ordering;

/// The first pair of a key.
pub fn pair_of<'a>(key: &str, pairs: &'a [KeyValue]) -> Option<&'a KeyValue>
    ensures { option_copied result ≡ spec.pair_of key.now pairs.now }
{
    for pair in pairs {
        if pair.key.as_str() == key {
            return Some(pair);
        }
    }
    None
}

/// Whether two texts of base64 stand for the same bytes.
fn same_bytes(left: &Text, right: &Text) -> bool
    ensures { result ≡ spec.same_bytes left.now right.now }
{
    let left = Bytes::Encoded(Part::First, left.as_str().as_bytes());
    let right = Bytes::Encoded(Part::First, right.as_str().as_bytes());
    matches!(order(left, right), Ordering::Equal)
}

/// Whether two values are equal.
#[cycle(equality)]
fn equal(left: &AnyValue, right: &AnyValue) -> bool
    ensures { result ≡ spec.equal left.now right.now }
{
    match (left, right) {
        (AnyValue::Empty, AnyValue::Empty) => true,
        (AnyValue::Str(left), AnyValue::Str(right)) => left.as_str() == right.as_str(),
        (AnyValue::Bool(left), AnyValue::Bool(right)) => *left == *right,
        (AnyValue::Int(left), AnyValue::Int(right)) => *left == *right,
        (AnyValue::Double(left), AnyValue::Double(right)) => left.get() == right.get(),
        (AnyValue::Array(left), AnyValue::Array(right)) => {
            lists_equal(left.as_slice(), right.as_slice())
        }
        (AnyValue::KvList(left), AnyValue::KvList(right)) => {
            maps_equal(left.as_slice(), right.as_slice())
        }
        (AnyValue::Bytes(left), AnyValue::Bytes(right)) => same_bytes(left, right),
        _ => false,
    }
}

/// Whether two lists are as long, and equal at each place.
#[cycle(equality)]
pub fn lists_equal(left: &[AnyValue], right: &[AnyValue]) -> bool
    ensures { result ≡ spec.lists_equal left.now right.now }
{
    let mut others = right;
    for value in left {
        match others.split_first() {
            Some((other, rest)) if equal(value, other) => others = rest,
            _ => return false,
        }
    }
    others.len() == 0
}

/// Whether two maps have as many pairs, and each key of the first has an equal value in the second.
#[cycle(equality)]
pub fn maps_equal(left: &[KeyValue], right: &[KeyValue]) -> bool
    ensures { result ≡ spec.maps_equal left.now right.now }
{
    if left.len() != right.len() {
        return false;
    }
    for pair in left {
        if !is_among(pair, right) {
            return false;
        }
    }
    true
}

/// Whether a pair's key has an equal value among others.
#[cycle(equality)]
fn is_among(pair: &KeyValue, others: &[KeyValue]) -> bool
    ensures { result ≡ spec.is_among pair.now others.now }
{
    match pair_of(pair.key.as_str(), others) {
        Some(other) => equal(&pair.value, &other.value),
        None => false,
    }
}
