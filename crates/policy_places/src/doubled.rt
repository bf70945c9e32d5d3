//! Names that two policies of one list have.
ghost use Rattle.std.specs.Prelude.{◌≡◌, option_map, codes};
ghost use Rattle.toml.specs.View.{view, items_view};
ghost use Rattle.policy_places.specs.Places as spec;

use config_faults::{is_text_at, member};
use toml::Value;

/// The first name that stands in two of these policy tables.
pub fn doubled_name(items: &[Value]) -> Option<&str>
    ensures { option_map (λ name. name.now) result ≡ spec.doubled_name (items_view items.now) }
{
    let [first, rest @ ..] = items else {
        return None;
    };
    match name_of(first) {
        Some(name) if has_name(rest, name) => Some(name),
        _ => doubled_name(rest),
    }
}

/// The text that stands at `name` of a policy table.
pub fn name_of(value: &Value) -> Option<&str>
    ensures { option_map (λ name. name.now) result ≡ spec.name_of (view value.now) }
{
    match value {
        Value::Table(table) => match member(table, "name") {
            Some(Value::String(text)) => Some(text.as_str()),
            _ => None,
        },
        _ => None,
    }
}

/// Whether one of these policy tables has this name.
fn has_name(items: &[Value], name: &str) -> bool
    ensures { result ≡ spec.has_name name.now (items_view items.now) }
{
    for item in items {
        if is_named(item, name) {
            return true;
        }
    }
    false
}

fn is_named(value: &Value, name: &str) -> bool
    ensures { result ≡ spec.is_named name.now (view value.now) }
{
    match value {
        Value::Table(table) => is_text_at(name, table, "name"),
        _ => false,
    }
}
