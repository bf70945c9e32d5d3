//! Where requests wait that are to outlive the process.
ghost use Rattle.std.specs.Prelude.{◌≡◌, codes, IfOk};
ghost use Rattle.toml.specs.Data.{get_member};
ghost use Rattle.toml.specs.View.{view, table_view};
ghost use Rattle.tsc_config.specs.Values.{ledger_in, ledger_of, ledger_sync_named, ledger_sync_of, ledger_value};

use crate::settings_values::{number_at, text_at};
use config_faults::{NumberKey, member};
use otlp_types::Text;
use std::alloc::{AllocError, Global};
use toml::{Table, Value};

/// Where requests wait until all of their spans were handed over or counted, so that the next start takes them again
/// after a kill.
#[derive(Drop)]
pub struct Ledger {
    /// The path of the folder in which they wait, or nothing: then they outlive no kill.
    pub path: Text,
    /// When its files are synced.
    pub sync: LedgerSync,
    /// The time between two syncs with [`LedgerSync::Interval`], in milliseconds, from 1 to 60000.
    pub sync_interval_ms: u64,
    /// How many mebibytes the folder has at most, from 1 to 1048576.
    pub max_mib: u64,
}

/// When the files of the ledger are synced.
#[derive(Clone, Copy, PartialEq, Eq)]
pub enum LedgerSync {
    /// Never: what was answered 200 outlives a kill of the process.
    None,
    /// From time to time: it outlives a crash of the machine too, but for what came since.
    Interval,
    /// Before each answer: it outlives that too.
    Request,
}

/// What stands at `ledger`.
pub fn ledger_at(alloc: Global, table: &Table) -> Result<Ledger, AllocError>
    ensures { IfOk result (λ ledger. ledger ≡ ledger_of (get_member (codes "ledger") (table_view table.now))) }
{
    match member(table, "ledger") {
        Some(value) => ledger_value(alloc, value),
        None => ledger_in(alloc, &Table::new(alloc)),
    }
}

fn ledger_value(alloc: Global, value: &Value) -> Result<Ledger, AllocError>
    ensures { IfOk result (λ ledger. ledger ≡ ledger_value (view value.now)) }
{
    match value {
        Value::Table(settings) => ledger_in(alloc, settings),
        _ => ledger_in(alloc, &Table::new(alloc)),
    }
}

/// What these settings give.
fn ledger_in(alloc: Global, settings: &Table) -> Result<Ledger, AllocError>
    ensures { IfOk result (λ ledger. ledger ≡ ledger_in (table_view settings.now)) }
{
    Ok(Ledger {
        path: text_at(alloc, settings, "path")?,
        sync: ledger_sync_at(settings),
        sync_interval_ms: number_at(settings, NumberKey::SyncInterval),
        max_mib: number_at(settings, NumberKey::LedgerMax),
    })
}

/// What stands at the key `sync`, or its default.
fn ledger_sync_at(settings: &Table) -> LedgerSync
    ensures { result ≡ ledger_sync_of (get_member (codes "sync") (table_view settings.now)) }
{
    match member(settings, "sync") {
        Some(Value::String(text)) => sync_named(text.as_str()),
        _ => LedgerSync::None,
    }
}

/// What a text names.
fn sync_named(text: &str) -> LedgerSync
    ensures { result ≡ ledger_sync_named text.now }
{
    match text {
        "interval" => LedgerSync::Interval,
        "request" => LedgerSync::Request,
        _ => LedgerSync::None,
    }
}
