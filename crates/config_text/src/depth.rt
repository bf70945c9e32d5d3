//! How deep a table nests.
ghost use Rattle.std.specs.Prelude.{◌≡◌, nat_le};
ghost use Rattle.toml.specs.Data.{depth, items_depth, members_depth};
ghost use Rattle.toml.specs.View.{view, array_view, table_view};

use toml::value::Array;
use toml::{Table, Value};

/// Whether a value nests at most so deep.
#[cycle(depth)]
fn is_within(value: &Value, limit: u32) -> bool
    ensures { result ≡ nat_le (depth (view value.now)) limit }
{
    match value {
        Value::Array(items) => 0 < limit && items_are_within(items, limit - 1),
        Value::Table(members) => 0 < limit && members_are_within(members, limit - 1),
        _ => true,
    }
}

/// Whether each item nests at most so deep.
#[cycle(depth)]
fn items_are_within(items: &Array, limit: u32) -> bool
    ensures { result ≡ nat_le (items_depth (array_view items.now)) limit }
{
    for item in items {
        if !is_within(item, limit) {
            return false;
        }
    }
    true
}

/// Whether each value of a table nests at most so deep.
#[cycle(depth)]
pub fn members_are_within(members: &Table, limit: u32) -> bool
    ensures { result ≡ nat_le (members_depth (table_view members.now)) limit }
{
    for (_, value) in members {
        if !is_within(value, limit) {
            return false;
        }
    }
    true
}
