//! Whether the order of a composite names its parts.
ghost use Rattle.std.specs.Prelude.{◌≡◌, codes};
ghost use Rattle.toml.specs.Data.{get_member};
ghost use Rattle.toml.specs.View.{view, table_view, items_view};
ghost use Rattle.config_faults.specs.Composites as names;
ghost use Rattle.config_faults.specs.Faults as faults;

use crate::fault::ConfigFault;
use crate::keys::member;
use policy_tree::Join;
use toml::{Table, Value};

/// The fault that a composite's order isn't the names of its parts, each once.
pub fn order_fault(join: Join, settings: &Table) -> Option<ConfigFault>
    ensures { result ≡ faults.order_fault join (table_view settings.now) }
{
    match join {
        Join::FirstMatch if !is_ordered(settings) => Some(ConfigFault::OutOfRange),
        _ => None,
    }
}

fn is_ordered(settings: &Table) -> bool
    ensures { result ≡ names.is_ordered (get_member (codes "policy_order") (table_view settings.now)) (get_member (codes "composite_sub_policy") (table_view settings.now)) }
{
    let parts = member(settings, "composite_sub_policy");
    match (member(settings, "policy_order"), parts) {
        (Some(Value::Array(order)), Some(Value::Array(parts))) => {
            is_order(order.as_slice(), parts.as_slice())
        }
        _ => true,
    }
}

#[tactic(auto, using(crate::proofs::Orders::counted))]
fn is_order(order: &[Value], parts: &[Value]) -> bool
    ensures { result ≡ names.is_order (items_view order.now) (items_view parts.now) }
{
    order.len() == parts.len() && are_parts(order, parts) && are_named(order, parts)
}

/// Whether each of these texts is the name of one of these policy tables.
fn are_parts(order: &[Value], parts: &[Value]) -> bool
    ensures { result ≡ names.are_parts (items_view order.now) (items_view parts.now) }
{
    for text in order {
        if !is_part(text, parts) {
            return false;
        }
    }
    true
}

fn is_part(text: &Value, parts: &[Value]) -> bool
    ensures { result ≡ names.is_part (view text.now) (items_view parts.now) }
{
    for part in parts {
        if is_name(text, part) {
            return true;
        }
    }
    false
}

/// Whether each of these policy tables has one of these texts as its name.
fn are_named(order: &[Value], parts: &[Value]) -> bool
    ensures { result ≡ names.are_named (items_view order.now) (items_view parts.now) }
{
    for part in parts {
        if !is_named(order, part) {
            return false;
        }
    }
    true
}

/// Whether one of these texts is the name of a policy table.
pub fn is_named(order: &[Value], part: &Value) -> bool
    ensures { result ≡ names.is_named (items_view order.now) (view part.now) }
{
    for text in order {
        if is_name(text, part) {
            return true;
        }
    }
    false
}

fn is_name(text: &Value, part: &Value) -> bool
    ensures { result ≡ names.is_name (view text.now) (view part.now) }
{
    match (text, part) {
        (Value::String(text), Value::Table(table)) => is_text_at(text.as_str(), table, "name"),
        _ => false,
    }
}

/// Whether this text stands at a key.
pub fn is_text_at(text: &str, table: &Table, key: &str) -> bool
    ensures { result ≡ names.is_text text.now (get_member key.now (table_view table.now)) }
{
    match member(table, key) {
        Some(Value::String(found)) => text == found.as_str(),
        _ => false,
    }
}
