//! The keys of each table, and what stands at a key.
ghost use Rattle.std.specs.Prelude.{◌≡◌, map, option_map};
ghost use Rattle.toml.specs.Data.{get_member};
ghost use Rattle.toml.specs.View.{view, table_view};
ghost use Rattle.config_faults.specs.Faults.{unknown_fault};
ghost use Rattle.config_faults.specs.Keys as spec;
ghost use Rattle.config_faults.specs.PolicyTypes.{has_settings};
ghost use Rattle.config_faults.specs.Tables.{setting_of, top_settings as settings_at_the_top};

use crate::fault::ConfigFault;
use crate::policy_types::PolicyType;
use crate::settings::Setting;
use crate::tables::{cache_settings, export_settings, ledger_settings, top_settings};
use toml::{Table, Value};

/// The kinds of table in a configuration, each with keys of its own.
#[derive(Clone, Copy, PartialEq, Eq)]
pub enum TableKind {
    /// The whole text.
    Config,
    /// The sizes of the caches of decisions.
    DecisionCache,
    /// Where the lines are sent to.
    Export,
    /// Where requests wait that are to outlive the process.
    Ledger,
    /// A policy.
    Policy(PolicyType),
    /// The settings of a policy of this type.
    Settings(PolicyType),
    /// The share of a part of a composite.
    Allocation,
}

/// The value at a key.
pub fn member<'a>(table: &'a Table, key: &str) -> Option<&'a Value>
    ensures { option_map (λ v. view v.now) result ≡ get_member key.now (table_view table.now) }
{
    table.get(key)
}

/// Whether the settings of a policy of this type have this key.
fn is_setting(kind: PolicyType, key: &str) -> bool
    ensures { result ≡ spec.is_setting kind key.now }
{
    has_key(kind.settings(), key)
        || match kind {
            PolicyType::And => key == "and_sub_policy",
            PolicyType::Not => key == "not_sub_policy",
            PolicyType::Drop => key == "drop_sub_policy",
            PolicyType::Composite => key == "composite_sub_policy",
            _ => false,
        }
}

/// Whether one of these settings has this key.
fn has_key(settings: &[Setting], key: &str) -> bool
    ensures { result ≡ spec.has_key (map setting_of settings.now) key.now }
{
    for setting in settings {
        if setting.name() == key {
            return true;
        }
    }
    false
}

/// Whether the settings of a configuration have this key.
fn is_top_setting(key: &str) -> bool
    ensures { result ≡ spec.has_key settings_at_the_top key.now }
{
    has_key(&top_settings(), key)
}

/// Whether a configuration has a table, or tables, of this name.
fn is_table_key(key: &str) -> bool
    ensures { result ≡ spec.is_table_key key.now }
{
    matches!(key, "decision_cache" | "policies" | "export" | "ledger")
}

/// Whether a table of this kind has this key.
#[tactic(auto, unfolding(crate::specs::Keys::is_key))]
pub fn is_key(kind: TableKind, key: &str) -> bool
    ensures { result ≡ spec.is_key kind key.now }
{
    match kind {
        TableKind::Config => { is_top_setting(key) || is_table_key(key) }
        TableKind::DecisionCache => has_key(&cache_settings(), key),
        TableKind::Export => has_key(&export_settings(), key),
        TableKind::Ledger => has_key(&ledger_settings(), key),
        TableKind::Policy(kind) => {
            matches!(key, "name" | "type") || has_settings(kind) && key == kind.name()
        }
        TableKind::Settings(kind) => is_setting(kind, key),
        TableKind::Allocation => matches!(key, "policy" | "percent"),
    }
}

/// Whether a policy of this type has settings.
fn has_settings(kind: PolicyType) -> bool
    ensures { result ≡ has_settings kind }
{
    match kind {
        PolicyType::AlwaysSample | PolicyType::TraceFlags => false,
        _ => true,
    }
}

/// Whether a table has a key that tables of its kind don't have.
fn has_unknown_key(kind: TableKind, table: &Table) -> bool
    ensures { result ≡ spec.has_unknown_key kind (table_view table.now) }
{
    for (key, _) in table {
        if !is_key(kind, key.as_str()) {
            return true;
        }
    }
    false
}

/// The fault that a table has a key that tables of its kind don't have.
pub fn unknown_fault(kind: TableKind, table: &Table) -> Option<ConfigFault>
    ensures { result ≡ unknown_fault kind (table_view table.now) }
{
    if has_unknown_key(kind, table) {
        Some(ConfigFault::UnknownKey)
    } else {
        None
    }
}

/// The type of policy that a text names.
fn type_named(text: &str) -> Option<PolicyType>
    ensures { result ≡ spec.type_named text.now }
{
    for kind in PolicyType::all() {
        if text == kind.name() {
            return Some(*kind);
        }
    }
    None
}

/// The type of policy that a value names.
pub fn type_of(value: &Value) -> Option<PolicyType>
    ensures { result ≡ spec.type_of (view value.now) }
{
    type_named(value.as_str()?)
}

/// The type of policy that a policy table names.
pub fn type_at(table: &Table) -> Option<PolicyType>
    ensures { result ≡ spec.type_at (table_view table.now) }
{
    type_of(member(table, "type")?)
}

/// The status code that a text names (`trace.proto` v1, `Status.StatusCode`).
#[tactic(auto, unfolding(crate::specs::Keys::code_named))]
fn code_named(text: &str) -> Option<i32>
    ensures { result ≡ spec.code_named text.now }
{
    match text {
        "UNSET" => Some(0),
        "OK" => Some(1),
        "ERROR" => Some(2),
        _ => None,
    }
}

/// The status code that a value names.
pub fn code_of(value: &Value) -> Option<i32>
    ensures { result ≡ spec.code_of (view value.now) }
{
    code_named(value.as_str()?)
}
