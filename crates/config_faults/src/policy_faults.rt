//! The least fault of the policies of a configuration.
ghost use Rattle.std.specs.Prelude.{◌≡◌};
ghost use Rattle.toml.specs.Data.{get_member};
ghost use Rattle.toml.specs.View.{view, table_view, array_view};
ghost use Rattle.config_faults.specs.PolicyTypes.{type_name};
ghost use Rattle.config_faults.specs.Faults as spec;

use crate::composites::order_fault;
use crate::fault::{ConfigFault, least};
use crate::joins::{join_at, join_type, sub_key};
use crate::keys::{TableKind, member, type_at, unknown_fault};
use crate::policy_types::PolicyType;
use crate::settings::ValueKind;
use crate::settings_faults::{required_fault, rows_fault, settings_fault};
use policy_tree::Join;
use toml::value::Array;
use toml::{Table, Value};

/// The fault of a list of policy tables.
pub fn policies_fault(value: &Value) -> Option<ConfigFault>
    ensures { result ≡ spec.policies_fault (view value.now) }
{
    match value {
        Value::Array(items) => policy_items_fault(items),
        _ => Some(ConfigFault::WrongType),
    }
}

#[cycle(policies)]
fn policy_items_fault(items: &Array) -> Option<ConfigFault>
    ensures { result ≡ spec.policy_items_fault (array_view items.now) }
{
    let mut fault = None;
    for item in items {
        fault = least(fault, policy_fault(item));
    }
    fault
}

#[cycle(policies)]
fn policy_fault(value: &Value) -> Option<ConfigFault>
    ensures { result ≡ spec.policy_fault (view value.now) }
{
    match value {
        Value::Table(table) => policy_table_fault(table, parts_fault(join_at(table), table)),
        _ => Some(ConfigFault::WrongType),
    }
}

/// The fault of the settings of a policy that is joined so, in a policy table.
#[cycle(policies)]
fn parts_fault(join: Join, table: &Table) -> Option<ConfigFault>
    ensures { result ≡ spec.parts_fault join (table_view table.now) }
{
    for (key, value) in table {
        if key.as_str() == join_type(join).name() {
            return parts_settings_fault(join, value);
        }
    }
    Some(ConfigFault::MissingKey)
}

#[cycle(policies)]
fn parts_settings_fault(join: Join, value: &Value) -> Option<ConfigFault>
    ensures { result ≡ spec.parts_settings_fault join (view value.now) }
{
    match value {
        Value::Table(table) => {
            let keys = unknown_fault(TableKind::Settings(join_type(join)), table);
            let rows = rows_fault(join_type(join), table);
            let order = order_fault(join, table);
            least(
                keys,
                least(rows, least(order, sub_policies_fault(join, table))),
            )
        }
        _ => Some(ConfigFault::WrongType),
    }
}

#[cycle(policies)]
fn sub_policies_fault(join: Join, table: &Table) -> Option<ConfigFault>
    ensures { result ≡ spec.sub_policies_fault join (table_view table.now) }
{
    for (key, value) in table {
        if key.as_str() == sub_key(join) {
            return sub_value_fault(join, value);
        }
    }
    Some(ConfigFault::MissingKey)
}

/// The fault of the policies that are joined: a list of policy tables, or of a `not` one policy table.
#[cycle(policies)]
fn sub_value_fault(join: Join, value: &Value) -> Option<ConfigFault>
    ensures { result ≡ spec.sub_value_fault join (view value.now) }
{
    // A `not` has one policy, so an array there is of a wrong type (D-038).
    match (join, value) {
        (Join::Not, Value::Table(table)) => policy_table_fault(
            table,
            parts_fault(join_at(table), table),
        ),
        (Join::And | Join::Drop | Join::FirstMatch, Value::Array(items)) => {
            policy_items_fault(items)
        }
        _ => Some(ConfigFault::WrongType),
    }
}

/// The fault of a policy table: `nested` is that of the settings of a type that is made of other policies.
#[tactic(auto, unfolding(crate::specs::Faults::policy_table_fault))]
fn policy_table_fault(table: &Table, nested: Option<ConfigFault>) -> Option<ConfigFault>
    ensures { result ≡ spec.policy_table_fault (table_view table.now) nested }
{
    let name = required_fault(table, "name", ValueKind::Text);
    let head = least(name, required_fault(table, "type", ValueKind::PolicyType));
    match type_at(table) {
        Some(kind) => least(head, typed_fault(kind, table, nested)),
        None => head,
    }
}

/// The fault of a policy table beside its name and type.
fn typed_fault(kind: PolicyType, table: &Table, nested: Option<ConfigFault>) -> Option<ConfigFault>
    ensures { result ≡ spec.typed_fault kind (table_view table.now) nested }
{
    let keys = unknown_fault(TableKind::Policy(kind), table);
    least(keys, settings_at_fault(kind, table, nested))
}

fn settings_at_fault(
    kind: PolicyType,
    table: &Table,
    nested: Option<ConfigFault>,
) -> Option<ConfigFault>
    ensures { result ≡ spec.settings_at_fault kind (table_view table.now) nested }
{
    match kind {
        PolicyType::AlwaysSample | PolicyType::TraceFlags => None,
        PolicyType::And | PolicyType::Not | PolicyType::Drop | PolicyType::Composite => nested,
        _ => required_settings_fault(kind, table),
    }
}

fn required_settings_fault(kind: PolicyType, table: &Table) -> Option<ConfigFault>
    ensures { result ≡ spec.required (spec.settings_fault kind) (get_member (type_name kind) (table_view table.now)) }
{
    match member(table, kind.name()) {
        Some(value) => settings_fault(kind, value),
        None => Some(ConfigFault::MissingKey),
    }
}
