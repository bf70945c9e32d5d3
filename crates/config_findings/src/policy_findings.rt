//! Every fault of the policies of a configuration.
ghost use Rattle.std.specs.Prelude.{◌≡◌, ◌++◌, OnOk, if◌then◌else◌};
ghost use Rattle.toml.specs.View.{view, table_view, array_view};
ghost use Rattle.config_findings.specs.FaultLists as spec;
ghost use Rattle.config_faults.specs.Faults as faults;
ghost use Rattle.config_faults.specs.Keys.{type_at};

use crate::finding_texts::{order_text, wrong_text};
use crate::findings::Findings;
use crate::settings_findings::{add_rows, add_settings, add_unknown};
use config_faults::{
    ConfigFault, PolicyType, Setting, TableKind, ValueKind, join_at, join_type, member,
    order_fault, sub_key, type_at,
};
use policy_places::{item_place, key_place};
use policy_tree::Join;
use std::alloc::{AllocError, Global};
use toml::value::Array;
use toml::{Table, Value};

/// Adds the faults of a list of policy tables.
pub fn add_policies(alloc: Global, value: &Value, findings: &mut Findings) -> Result<(), AllocError>
    ensures { OnOk result (findings.new ≡ findings.old ++ spec.policies_faults (view value.now)) }
{
    match value {
        Value::Array(items) => add_policy_items(alloc, "policies", items, findings),
        _ => findings.add(
            ConfigFault::WrongType,
            wrong_text(alloc, "policies", "an array")?,
        ),
    }
}

#[cycle(policies)]
fn add_policy_items(
    alloc: Global,
    place: &str,
    items: &Array,
    findings: &mut Findings,
) -> Result<(), AllocError>
    ensures { OnOk result (findings.new ≡ findings.old ++ spec.policy_items_faults (array_view items.now)) }
{
    let mut index = 0u64;
    for item in items {
        let here = item_place(alloc, place, index)?;
        add_policy(alloc, here.as_str(), item, findings)?;
        index = index.saturating_add(1);
    }
    Ok(())
}

#[cycle(policies)]
fn add_policy(
    alloc: Global,
    place: &str,
    value: &Value,
    findings: &mut Findings,
) -> Result<(), AllocError>
    ensures { OnOk result (findings.new ≡ findings.old ++ spec.policy_faults (view value.now)) }
{
    match value {
        Value::Table(table) => {
            add_head(alloc, place, table, findings)?;
            if is_joined(table) {
                add_parts(alloc, place, join_at(table), table, findings)
            } else {
                Ok(())
            }
        }
        _ => findings.add(ConfigFault::WrongType, wrong_text(alloc, place, "a table")?),
    }
}

/// Adds the faults of the settings of a policy that is joined so, in a policy table.
#[cycle(policies)]
fn add_parts(
    alloc: Global,
    place: &str,
    join: Join,
    table: &Table,
    findings: &mut Findings,
) -> Result<(), AllocError>
    ensures { OnOk result (findings.new ≡ findings.old ++ spec.parts_faults join (table_view table.now)) }
{
    let here = key_place(alloc, place, join_type(join).name())?;
    for (key, value) in table {
        if key.as_str() == join_type(join).name() {
            return add_parts_settings(alloc, here.as_str(), join, value, findings);
        }
    }
    findings.add_missing(alloc, here.as_str())
}

#[cycle(policies)]
fn add_parts_settings(
    alloc: Global,
    place: &str,
    join: Join,
    value: &Value,
    findings: &mut Findings,
) -> Result<(), AllocError>
    ensures { OnOk result (findings.new ≡ findings.old ++ spec.parts_settings_faults join (view value.now)) }
{
    match value {
        Value::Table(table) => {
            let kind = TableKind::Settings(join_type(join));
            add_unknown(alloc, place, kind, table, findings)?;
            add_rows(alloc, place, join_type(join).settings(), table, findings)?;
            add_order(alloc, place, join, table, findings)?;
            add_sub_policies(alloc, place, join, table, findings)
        }
        _ => findings.add(ConfigFault::WrongType, wrong_text(alloc, place, "a table")?),
    }
}

#[cycle(policies)]
fn add_sub_policies(
    alloc: Global,
    place: &str,
    join: Join,
    table: &Table,
    findings: &mut Findings,
) -> Result<(), AllocError>
    ensures { OnOk result (findings.new ≡ findings.old ++ spec.sub_policies_faults join (table_view table.now)) }
{
    let here = key_place(alloc, place, sub_key(join))?;
    for (key, value) in table {
        if key.as_str() == sub_key(join) {
            return add_sub_value(alloc, here.as_str(), join, value, findings);
        }
    }
    findings.add_missing(alloc, here.as_str())
}

/// Adds the faults of the policies that are joined: a list of policy tables, or of a `not` one policy table.
#[cycle(policies)]
fn add_sub_value(
    alloc: Global,
    place: &str,
    join: Join,
    value: &Value,
    findings: &mut Findings,
) -> Result<(), AllocError>
    ensures { OnOk result (findings.new ≡ findings.old ++ spec.sub_value_faults join (view value.now)) }
{
    match (join, value) {
        (Join::Not, Value::Table(table)) => {
            add_head(alloc, place, table, findings)?;
            if is_joined(table) {
                add_parts(alloc, place, join_at(table), table, findings)
            } else {
                Ok(())
            }
        }
        (Join::And | Join::Drop | Join::FirstMatch, Value::Array(items)) => {
            add_policy_items(alloc, place, items, findings)
        }
        (Join::Not, _) => findings.add(
            ConfigFault::WrongType,
            wrong_text(alloc, place, "a table")?,
        ),
        _ => findings.add(
            ConfigFault::WrongType,
            wrong_text(alloc, place, "an array")?,
        ),
    }
}

/// Adds the fault that a composite's order isn't the names of its parts, each once.
fn add_order(
    alloc: Global,
    place: &str,
    join: Join,
    table: &Table,
    findings: &mut Findings,
) -> Result<(), AllocError>
    ensures { OnOk result (findings.new ≡ findings.old ++ spec.listed (faults.order_fault join (table_view table.now))) }
{
    match order_fault(join, table) {
        Some(fault) => findings.add(fault, order_text(alloc, place, table)?),
        None => Ok(()),
    }
}

/// Whether the type of a policy table is made of other policies.
fn is_joined(table: &Table) -> bool
    ensures { result ≡ spec.is_joined (type_at (table_view table.now)) }
{
    matches!(
        type_at(table),
        Some(PolicyType::And | PolicyType::Not | PolicyType::Drop | PolicyType::Composite)
    )
}

/// What every policy table has to have.
const HEAD: &[Setting] = &[
    Setting::Required("name", ValueKind::Text),
    Setting::Required("type", ValueKind::PolicyType),
];

/// Adds the faults of a policy table but for the policies that it is made of.
fn add_head(
    alloc: Global,
    place: &str,
    table: &Table,
    findings: &mut Findings,
) -> Result<(), AllocError>
    ensures { OnOk result (findings.new ≡ findings.old ++ spec.head_faults (table_view table.now)) }
{
    add_rows(alloc, place, HEAD, table, findings)?;
    match type_at(table) {
        Some(kind) => {
            add_unknown(alloc, place, TableKind::Policy(kind), table, findings)?;
            add_own(alloc, place, kind, table, findings)
        }
        None => Ok(()),
    }
}

/// Adds the faults of the settings of a policy table of a type that isn't made of others.
fn add_own(
    alloc: Global,
    place: &str,
    kind: PolicyType,
    table: &Table,
    findings: &mut Findings,
) -> Result<(), AllocError>
    ensures { OnOk result (findings.new ≡ findings.old ++ spec.own_faults kind (table_view table.now)) }
{
    match kind {
        PolicyType::AlwaysSample
        | PolicyType::TraceFlags
        | PolicyType::And
        | PolicyType::Not
        | PolicyType::Drop
        | PolicyType::Composite => Ok(()),
        _ => {
            let here = key_place(alloc, place, kind.name())?;
            let settings = TableKind::Settings(kind);
            match member(table, kind.name()) {
                Some(value) => add_settings(
                    alloc,
                    here.as_str(),
                    settings,
                    kind.settings(),
                    value,
                    findings,
                ),
                None => findings.add_missing(alloc, here.as_str()),
            }
        }
    }
}
