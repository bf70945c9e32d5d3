//! Comparisons.
ghost use Rattle.std.specs.Prelude.{◌≡◌};
ghost use Rattle.ottl_condition.specs.Comparing as spec;
ghost use Rattle.ottl_condition.specs.Values.{value_of};

use crate::value::Value;
use ottl_equality::{lists_equal, maps_equal, order};
use ottl_text::Binary;
use std::cmp::Ordering;
use std::num::nearest_i64_to_f64;

/// Whether a comparison holds of two values in this order.
pub(crate) fn holds(binary: Binary, order: Option<Ordering>) -> bool
    ensures { result ≡ spec.holds binary order }
{
    match binary {
        Binary::Equal => matches!(order, Some(Ordering::Equal)),
        Binary::NotEqual => !matches!(order, Some(Ordering::Equal)),
        Binary::Less => matches!(order, Some(Ordering::Less)),
        Binary::AtMost => matches!(order, Some(Ordering::Less | Ordering::Equal)),
        Binary::Greater => matches!(order, Some(Ordering::Greater)),
        Binary::AtLeast => matches!(order, Some(Ordering::Greater | Ordering::Equal)),
        _ => false,
    }
}

/// The order of two values, if they have one.
fn order_of(left: &Value<'_, '_>, right: &Value<'_, '_>) -> Option<Ordering>
    ensures { result ≡ spec.order_of (value_of left.now) (value_of right.now) }
{
    if let Some(left) = left.text() {
        return Some(left.cmp(right.text()?));
    }
    if let Some(left) = left.bytes() {
        return Some(order(left, right.bytes()?));
    }
    match (left, right) {
        (Value::Nil, Value::Nil) => Some(Ordering::Equal),
        (Value::Bool(left), Value::Bool(right)) => Some(left.cmp(right)),
        (Value::Int(left), Value::Int(right)) => Some(left.cmp(right)),
        (Value::Int(left), Value::Float(right)) => nearest_i64_to_f64(*left).partial_cmp(right),
        (Value::Float(left), Value::Int(right)) => left.partial_cmp(&nearest_i64_to_f64(*right)),
        (Value::Float(left), Value::Float(right)) => left.partial_cmp(right),
        (Value::Time(left), Value::Time(right)) => Some(left.cmp(right)),
        (Value::Duration(left), Value::Duration(right)) => Some(left.cmp(right)),
        _ => None,
    }
}

/// Whether a comparison holds of two values that have no order, and may be equal.
fn by_equality(binary: Binary, are_equal: bool) -> bool
    ensures { result ≡ spec.by_equality binary are_equal }
{
    match binary {
        Binary::Equal => are_equal,
        Binary::NotEqual => !are_equal,
        _ => false,
    }
}

/// Whether a comparison holds.
#[tactic(auto, unfolding(crate::specs::Comparing::compared))]
pub(crate) fn compared(binary: Binary, left: &Value<'_, '_>, right: &Value<'_, '_>) -> bool
    ensures { result ≡ spec.compared binary (value_of left.now) (value_of right.now) }
{
    // Maps and lists are equal or not, and have no order (D-330).
    match (left, right) {
        (Value::Map(left), Value::Map(right)) => by_equality(binary, maps_equal(left, right)),
        (Value::List(left), Value::List(right)) => by_equality(binary, lists_equal(left, right)),
        _ => holds(binary, order_of(left, right)),
    }
}
