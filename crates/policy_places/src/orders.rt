//! Whether an order that doesn't name the parts of a composite may do so once what else is wrong with it is mended.
ghost use Rattle.std.specs.Prelude.{◌≡◌, codes};
ghost use Rattle.toml.specs.Data.{get_member};
ghost use Rattle.toml.specs.View.{view, table_view, items_view};
ghost use Rattle.policy_places.specs.Orders as spec;

use crate::conditions::is_text;
use crate::doubled::name_of;
use config_faults::{is_named, member};
use toml::{Table, Value};

/// Whether it is for other faults alone that the order of a composite with these settings doesn't name its parts, each
/// once: names for the parts without one, and texts for the items that are none, would make it do so.
pub fn order_follows(settings: &Table) -> bool
    ensures { result ≡ spec.order_follows (get_member (codes "policy_order") (table_view settings.now)) (get_member (codes "composite_sub_policy") (table_view settings.now)) }
{
    let parts = member(settings, "composite_sub_policy");
    match (member(settings, "policy_order"), parts) {
        (Some(Value::Array(order)), Some(Value::Array(parts))) => {
            may_be_order(order.as_slice(), parts.as_slice())
        }
        _ => false,
    }
}

#[tactic(auto, using(config_faults::proofs::Orders::counted))]
fn may_be_order(order: &[Value], parts: &[Value]) -> bool
    ensures { result ≡ spec.may_be_order (items_view order.now) (items_view parts.now) }
{
    order.len() == parts.len()
        && !has_doubled(order)
        && count_left_out(order, parts) <= count_other(order)
}

/// Whether a text stands twice among these items.
fn has_doubled(items: &[Value]) -> bool
    ensures { result ≡ spec.has_doubled (items_view items.now) }
{
    let [first, rest @ ..] = items else {
        return false;
    };
    match first {
        Value::String(text) if is_among(rest, text.as_str()) => true,
        _ => has_doubled(rest),
    }
}

fn is_among(items: &[Value], text: &str) -> bool
    ensures { result ≡ spec.is_among text.now (items_view items.now) }
{
    for item in items {
        if is_text(item, text) {
            return true;
        }
    }
    false
}

/// How many items are no texts.
fn count_other(items: &[Value]) -> usize
    ensures { result ≡ spec.count_other (items_view items.now) }
{
    let mut count = 0;
    for item in items {
        if is_other(item) {
            count += 1;
        }
    }
    count
}

fn is_other(item: &Value) -> bool
    ensures { result ≡ spec.is_other (view item.now) }
{
    !matches!(item, Value::String(_))
}

/// How many of these policy tables have a name that is none of these texts.
fn count_left_out(order: &[Value], parts: &[Value]) -> usize
    ensures { result ≡ spec.count_left_out (items_view order.now) (items_view parts.now) }
{
    let mut count = 0;
    for part in parts {
        if is_left_out(order, part) {
            count += 1;
        }
    }
    count
}

fn is_left_out(order: &[Value], part: &Value) -> bool
    ensures { result ≡ spec.is_left_out (items_view order.now) (view part.now) }
{
    match name_of(part) {
        Some(_) => !is_named(order, part),
        None => false,
    }
}
