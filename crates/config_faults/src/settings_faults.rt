//! The least fault of settings.
ghost use Rattle.std.specs.Prelude.{◌≡◌, map};
ghost use Rattle.toml.specs.Data.{get_member, string, table as table_data};
ghost use Rattle.toml.specs.View.{view, table_view, array_view};
ghost use Rattle.config_faults.specs.Faults as spec;
ghost use Rattle.config_faults.specs.Tables.{choice_row, setting_of};

use crate::exports::is_endpoint;
use crate::fault::{ConfigFault, least};
use crate::headers::fields_fault;
use crate::keys::{TableKind, code_of, member, type_of, unknown_fault};
use crate::percentages::percentage_of;
use crate::policy_types::PolicyType;
use crate::settings::{ItemKind, Setting, ValueKind};
use crate::tables::ChoiceKey;
use toml::value::Array;
use toml::{Table, Value};

/// The fault of a table of this kind with these settings.
pub fn table_of_fault(kind: TableKind, settings: &[Setting], value: &Value) -> Option<ConfigFault>
    ensures { result ≡ spec.table_of_fault kind (map setting_of settings.now) (view value.now) }
{
    match value {
        Value::Table(table) => {
            let keys = unknown_fault(kind, table);
            least(keys, each_setting_fault(settings, table))
        }
        _ => Some(ConfigFault::WrongType),
    }
}

/// The fault of the settings of a policy of this type.
pub fn settings_fault(kind: PolicyType, value: &Value) -> Option<ConfigFault>
    ensures { result ≡ spec.settings_fault kind (view value.now) }
{
    table_of_fault(TableKind::Settings(kind), kind.settings(), value)
}

/// The fault of the settings of a policy of this type, but for the policies that it is made of.
pub fn rows_fault(kind: PolicyType, table: &Table) -> Option<ConfigFault>
    ensures { result ≡ spec.rows_fault kind (table_view table.now) }
{
    each_setting_fault(kind.settings(), table)
}

/// The least fault of these settings.
pub fn each_setting_fault(settings: &[Setting], table: &Table) -> Option<ConfigFault>
    ensures { result ≡ spec.each_setting_fault (map setting_of settings.now) (table_view table.now) }
{
    let mut fault = None;
    for setting in settings {
        fault = least(fault, setting_fault(setting, table));
    }
    fault
}

fn setting_fault(setting: &Setting, table: &Table) -> Option<ConfigFault>
    ensures { result ≡ spec.setting_fault (setting_of setting.now) (table_view table.now) }
{
    match *setting {
        Setting::Required(name, value) => required_fault(table, name, value),
        Setting::Optional(name, value) | Setting::Default(name, value, _) => {
            optional_fault(table, name, value)
        }
    }
}

/// The fault of what stands at a required key.
pub fn required_fault(table: &Table, key: &str, wanted: ValueKind) -> Option<ConfigFault>
    ensures { result ≡ spec.required (spec.wanted_fault wanted) (get_member key.now (table_view table.now)) }
{
    match member(table, key) {
        Some(value) => value_fault(value, wanted),
        None => Some(ConfigFault::MissingKey),
    }
}

/// The fault of what stands at a key that may be missing.
fn optional_fault(table: &Table, key: &str, wanted: ValueKind) -> Option<ConfigFault>
    ensures { result ≡ spec.optional (spec.wanted_fault wanted) (get_member key.now (table_view table.now)) }
{
    value_fault(member(table, key)?, wanted)
}

fn items_fault(items: &Array, kind: ItemKind) -> Option<ConfigFault>
    ensures { result ≡ spec.items_fault (spec.item_fault kind) (array_view items.now) }
{
    let mut fault = None;
    for item in items {
        fault = least(fault, item_fault(item, kind));
    }
    fault
}

/// The fault of an item.
pub fn item_fault(item: &Value, kind: ItemKind) -> Option<ConfigFault>
    ensures { result ≡ spec.item_fault kind (view item.now) }
{
    match (kind, item) {
        (ItemKind::Text, Value::String(_)) => None,
        (ItemKind::StatusCode, Value::String(_)) => match code_of(item) {
            Some(_) => None,
            None => Some(ConfigFault::OutOfRange),
        },
        (ItemKind::Allocation, Value::Table(table)) => allocation_fault(table),
        _ => Some(ConfigFault::WrongType),
    }
}

/// The fault of the share of a part of a composite.
fn allocation_fault(table: &Table) -> Option<ConfigFault>
    ensures { result ≡ spec.allocation_fault (table_data (table_view table.now)) }
{
    let keys = unknown_fault(TableKind::Allocation, table);
    let policy = match member(table, "policy") {
        Some(Value::String(_)) => None,
        Some(_) => Some(ConfigFault::WrongType),
        None => Some(ConfigFault::MissingKey),
    };
    let percent = match member(table, "percent") {
        Some(Value::Integer(number)) if 1 <= *number && *number <= 100 => None,
        Some(Value::Integer(_)) => Some(ConfigFault::OutOfRange),
        Some(_) => Some(ConfigFault::WrongType),
        None => Some(ConfigFault::MissingKey),
    };
    least(keys, least(policy, percent))
}

/// The fault of a value.
pub fn value_fault(value: &Value, wanted: ValueKind) -> Option<ConfigFault>
    ensures { result ≡ spec.wanted_fault wanted (view value.now) }
{
    match (wanted, value) {
        (ValueKind::Integer(lowest, greatest), Value::Integer(number)) => {
            if lowest <= *number && *number <= greatest {
                None
            } else {
                Some(ConfigFault::OutOfRange)
            }
        }
        (ValueKind::Whole, Value::Integer(_)) => None,
        (ValueKind::Truth, Value::Boolean(_)) => None,
        (ValueKind::Text, Value::String(_)) => None,
        (ValueKind::Array(kind), Value::Array(items)) => items_fault(items, kind),
        (ValueKind::Choice(key), Value::String(text)) => choice_fault(key, text.as_str()),
        (ValueKind::LogForm, Value::String(text)) => log_fault(text.as_str()),
        (ValueKind::OutputFault, Value::String(text)) => output_fault_fault(text.as_str()),
        (ValueKind::LedgerSync, Value::String(text)) => ledger_sync_fault(text.as_str()),
        (ValueKind::ErrorMode, Value::String(text)) => error_mode_fault(text.as_str()),
        (ValueKind::Endpoint, Value::String(text)) => {
            if is_endpoint(text.as_bytes()) {
                None
            } else {
                Some(ConfigFault::OutOfRange)
            }
        }
        (ValueKind::Headers, Value::Table(table)) => fields_fault(table),
        (ValueKind::PolicyType, Value::String(_)) => match type_of(value) {
            Some(_) => None,
            None => Some(ConfigFault::OutOfRange),
        },
        (ValueKind::Percentage, Value::Integer(_) | Value::Float(_)) => match percentage_of(value) {
            Some(_) => None,
            None => Some(ConfigFault::OutOfRange),
        },
        _ => Some(ConfigFault::WrongType),
    }
}

/// The fault that a text is no form of the log.
fn log_fault(text: &str) -> Option<ConfigFault>
    ensures { result ≡ spec.log_fault (string text.now) }
{
    match text {
        "text" | "json" | "off" => None,
        _ => Some(ConfigFault::OutOfRange),
    }
}

/// The fault that a text names nothing that is done once the output fails.
fn output_fault_fault(text: &str) -> Option<ConfigFault>
    ensures { result ≡ spec.output_fault_fault (string text.now) }
{
    match text {
        "discard" | "stop" | "retry" => None,
        _ => Some(ConfigFault::OutOfRange),
    }
}

/// The fault that a text doesn't name when the ledger of requests is synced.
fn ledger_sync_fault(text: &str) -> Option<ConfigFault>
    ensures { result ≡ spec.ledger_sync_fault (string text.now) }
{
    match text {
        "none" | "interval" | "request" => None,
        _ => Some(ConfigFault::OutOfRange),
    }
}

/// The fault that a text names nothing that an error of a condition does.
fn error_mode_fault(text: &str) -> Option<ConfigFault>
    ensures { result ≡ spec.error_mode_fault (string text.now) }
{
    match text {
        "ignore" | "silent" | "propagate" => None,
        _ => Some(ConfigFault::OutOfRange),
    }
}

/// The fault that a text is neither of the two texts of a key.
fn choice_fault(key: ChoiceKey, text: &str) -> Option<ConfigFault>
    ensures { result ≡ spec.choice_fault (choice_row key) (string text.now) }
{
    let (_, default, other) = key.row();
    if text == default || text == other {
        None
    } else {
        Some(ConfigFault::OutOfRange)
    }
}
