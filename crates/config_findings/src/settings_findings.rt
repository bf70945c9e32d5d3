//! Every fault of the settings of a table.
ghost use Rattle.std.specs.Prelude.{◌≡◌, ◌++◌, OnOk, map};
ghost use Rattle.toml.specs.View.{view, table_view, array_view};
ghost use Rattle.config_findings.specs.FaultLists as spec;
ghost use Rattle.config_faults.specs.Faults.{item_fault};
ghost use Rattle.config_faults.specs.Tables.{setting_of};

use crate::finding_texts::{item_text, unknown_text, value_text, wrong_text};
use crate::findings::Findings;
use config_faults::{
    ConfigFault, ItemKind, Setting, TableKind, ValueKind, is_key, item_fault, member, value_fault,
};
use policy_places::{item_place, key_place};
use std::alloc::{AllocError, Global};
use toml::value::Array;
use toml::{Table, Value};

/// Adds one fault for each key that tables of this kind don't have.
pub fn add_unknown(
    alloc: Global,
    place: &str,
    kind: TableKind,
    table: &Table,
    findings: &mut Findings,
) -> Result<(), AllocError>
    ensures { OnOk result (findings.new ≡ findings.old ++ spec.unknown_faults kind (table_view table.now)) }
{
    for (key, _) in table {
        if !is_key(kind, key.as_str()) {
            findings.add(
                ConfigFault::UnknownKey,
                unknown_text(alloc, place, kind, key.as_str())?,
            )?;
        }
    }
    Ok(())
}

/// Adds the faults of a value that is to be a table of this kind with these settings.
pub fn add_settings(
    alloc: Global,
    place: &str,
    kind: TableKind,
    settings: &[Setting],
    value: &Value,
    findings: &mut Findings,
) -> Result<(), AllocError>
    ensures { OnOk result (findings.new ≡ findings.old ++ spec.settings_faults kind (map setting_of settings.now) (view value.now)) }
{
    match value {
        Value::Table(table) => {
            add_unknown(alloc, place, kind, table, findings)?;
            add_rows(alloc, place, settings, table, findings)
        }
        _ => findings.add(ConfigFault::WrongType, wrong_text(alloc, place, "a table")?),
    }
}

/// Adds the faults of the rows of these settings.
pub fn add_rows(
    alloc: Global,
    place: &str,
    settings: &[Setting],
    table: &Table,
    findings: &mut Findings,
) -> Result<(), AllocError>
    ensures { OnOk result (findings.new ≡ findings.old ++ spec.rows_faults (map setting_of settings.now) (table_view table.now)) }
{
    for setting in settings {
        add_row(alloc, place, setting, table, findings)?;
    }
    Ok(())
}

fn add_row(
    alloc: Global,
    place: &str,
    setting: &Setting,
    table: &Table,
    findings: &mut Findings,
) -> Result<(), AllocError>
    ensures { OnOk result (findings.new ≡ findings.old ++ spec.setting_faults (setting_of setting.now) (table_view table.now)) }
{
    let here = key_place(alloc, place, setting.name())?;
    match member(table, setting.name()) {
        Some(value) => add_value(alloc, here.as_str(), value, setting.value(), findings),
        None if setting.is_required() => findings.add_missing(alloc, here.as_str()),
        None => Ok(()),
    }
}

/// Adds the faults of a value.
fn add_value(
    alloc: Global,
    place: &str,
    value: &Value,
    wanted: ValueKind,
    findings: &mut Findings,
) -> Result<(), AllocError>
    ensures { OnOk result (findings.new ≡ findings.old ++ spec.value_faults wanted (view value.now)) }
{
    if let (ValueKind::Array(kind), Value::Array(items)) = (wanted, value) {
        return add_items(alloc, place, items, kind, findings);
    }
    match value_fault(value, wanted) {
        Some(fault) => findings.add(fault, value_text(alloc, place, value, wanted, fault)?),
        None => Ok(()),
    }
}

/// Adds the faults of the items of an array.
fn add_items(
    alloc: Global,
    place: &str,
    items: &Array,
    kind: ItemKind,
    findings: &mut Findings,
) -> Result<(), AllocError>
    ensures { OnOk result (findings.new ≡ findings.old ++ spec.items_faults (item_fault kind) (array_view items.now)) }
{
    let mut index = 0u64;
    for item in items {
        if let Some(fault) = item_fault(item, kind) {
            let here = item_place(alloc, place, index)?;
            findings.add(fault, item_text(alloc, here.as_str(), item, kind, fault)?)?;
        }
        index = index.saturating_add(1);
    }
    Ok(())
}
