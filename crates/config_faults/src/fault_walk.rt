//! The least fault of the whole table.
ghost use Rattle.std.specs.Prelude.{◌≡◌, codes, map};
ghost use Rattle.toml.specs.Data.{get_member};
ghost use Rattle.toml.specs.View.{view, table_view};
ghost use Rattle.config_faults.specs.Faults as spec;
ghost use Rattle.config_faults.specs.Tables.{setting_of};

use crate::fault::{ConfigFault, least};
use crate::keys::{TableKind, member, unknown_fault};
use crate::policy_faults::policies_fault;
use crate::settings::Setting;
use crate::settings_faults::{each_setting_fault, table_of_fault};
use crate::tables::{NumberKey, cache_settings, export_settings, ledger_settings, top_settings};
use toml::Table;

/// The least fault of the table of a configuration, up to 5. It takes no memory.
#[tactic(auto, unfolding(crate::specs::Faults::table_fault))]
pub fn table_fault(table: &Table) -> Option<ConfigFault>
    ensures { result ≡ spec.table_fault (table_view table.now) }
{
    let rows = each_setting_fault(&top_settings(), table);
    least(keys_fault(table), least(rows, tables_fault(table)))
}

/// The fault of the names of the keys: one that the table of a configuration doesn't have, or two of one setting.
#[tactic(auto, unfolding(crate::specs::Faults::keys_fault))]
fn keys_fault(table: &Table) -> Option<ConfigFault>
    ensures { result ≡ spec.keys_fault (table_view table.now) }
{
    least(unknown_fault(TableKind::Config, table), twice_fault(table))
}

/// The fault that both names of the wait from a trace's root on stand there.
#[tactic(auto, unfolding(crate::specs::Faults::twice_fault))]
pub fn twice_fault(table: &Table) -> Option<ConfigFault>
    ensures { result ≡ spec.twice_fault (table_view table.now) }
{
    let (name, ..) = NumberKey::RootWait.row();
    let (other_name, ..) = NumberKey::RootReceived.row();
    // Neither name is more right, so a table with both is refused whatever stands there (D-072).
    if member(table, name).is_some() && member(table, other_name).is_some() {
        Some(ConfigFault::UnknownKey)
    } else {
        None
    }
}

/// The fault of the tables within a configuration's.
fn tables_fault(table: &Table) -> Option<ConfigFault>
    ensures { result ≡ spec.tables_fault (table_view table.now) }
{
    let cache = inner_fault(
        table,
        "decision_cache",
        TableKind::DecisionCache,
        &cache_settings(),
    );
    let export = inner_fault(table, "export", TableKind::Export, &export_settings());
    let ledger = inner_fault(table, "ledger", TableKind::Ledger, &ledger_settings());
    least(
        cache,
        least(export, least(ledger, required_policies_fault(table))),
    )
}

/// The fault of what stands at a key, where a table of this kind with these settings may.
fn inner_fault(
    table: &Table,
    key: &str,
    kind: TableKind,
    settings: &[Setting],
) -> Option<ConfigFault>
    ensures { result ≡ spec.optional (spec.table_of_fault kind (map setting_of settings.now)) (get_member key.now (table_view table.now)) }
{
    match member(table, key) {
        Some(value) => table_of_fault(kind, settings, value),
        None => None,
    }
}

fn required_policies_fault(table: &Table) -> Option<ConfigFault>
    ensures { result ≡ spec.required spec.policies_fault (get_member (codes "policies") (table_view table.now)) }
{
    match member(table, "policies") {
        Some(value) => policies_fault(value),
        None => Some(ConfigFault::MissingKey),
    }
}
