//! Where the lines are sent to.
ghost use Rattle.std.specs.Prelude.{◌≡◌, codes, IfOk};
ghost use Rattle.toml.specs.Data.{get_member, no_members};
ghost use Rattle.toml.specs.View.{view, table_view};
ghost use Rattle.tsc_config.specs.Values.{encoding_of, export_in, export_of, export_value};

use crate::headers::{HeaderField, headers_at};
use crate::settings_values::{number_at, text_at, truth_at};
use crate::values::is_other_at;
use config_faults::{ChoiceKey, NumberKey, member};
use otlp_types::{List, Text};
use std::alloc::{AllocError, Global};
use toml::{Table, Value};

/// Where the lines are sent to, and for how long that is tried, in milliseconds.
#[derive(Drop)]
pub struct Export {
    /// The address, as `http://HOST:PORT/PATH`, or nothing: then lines are printed.
    pub endpoint: Text,
    /// How long an attempt may take, from 1 to 600000.
    pub timeout: u64,
    /// The first wait before a line is sent again, from 1 to 3600000.
    pub retry_initial: u64,
    /// The longest wait that no answer asks for, from 1 to 3600000.
    pub retry_max: u64,
    /// How long a line is tried, from 0 to 86400000, where 0 is for ever.
    pub retry_for: u64,
    /// How long lines are tried once the collector closes, from 0 to 3600000.
    pub close_wait: u64,
    /// How many batches wait for the backend, over all shards, each of at most `send_batch_size` spans, from 1 to
    /// 65536.
    pub queue_batches: u64,
    /// Whether the lines are printed too.
    pub lines: bool,
    /// How each batch is sent.
    pub encoding: ExportEncoding,
    /// The fields that each request has beside its own, in the order of their names.
    pub headers: List<HeaderField>,
}

/// How a batch of spans is sent (OTLP/HTTP, "OTLP/HTTP Request": JSON or binary protobuf).
#[derive(Clone, Copy, PartialEq, Eq)]
pub enum ExportEncoding {
    /// As JSON, by `encoding = "json"` or by default.
    Json,
    /// As protobuf, by `encoding = "proto"`.
    Protobuf,
}

/// What stands at `export`.
pub fn export_at(alloc: Global, table: &Table) -> Result<Export, AllocError>
    ensures { IfOk result (λ export. export ≡ export_of (get_member (codes "export") (table_view table.now))) }
{
    match member(table, "export") {
        Some(value) => export_value(alloc, value),
        None => export_in(alloc, &Table::new(alloc)),
    }
}

fn export_value(alloc: Global, value: &Value) -> Result<Export, AllocError>
    ensures { IfOk result (λ export. export ≡ export_value (view value.now)) }
{
    match value {
        Value::Table(settings) => export_in(alloc, settings),
        _ => export_in(alloc, &Table::new(alloc)),
    }
}

/// What these settings give.
fn export_in(alloc: Global, settings: &Table) -> Result<Export, AllocError>
    ensures { IfOk result (λ export. export ≡ export_in (table_view settings.now)) }
{
    Ok(Export {
        endpoint: text_at(alloc, settings, "endpoint")?,
        timeout: number_at(settings, NumberKey::Timeout),
        retry_initial: number_at(settings, NumberKey::RetryInitial),
        retry_max: number_at(settings, NumberKey::RetryMax),
        retry_for: number_at(settings, NumberKey::RetryFor),
        close_wait: number_at(settings, NumberKey::CloseWait),
        queue_batches: number_at(settings, NumberKey::QueueBatches),
        lines: truth_at(settings, "lines"),
        encoding: encoding_at(settings),
        headers: headers_at(alloc, settings)?,
    })
}

/// How these settings have batches sent.
fn encoding_at(settings: &Table) -> ExportEncoding
    ensures { result ≡ encoding_of (table_view settings.now) }
{
    if is_other_at(settings, ChoiceKey::Encoding) {
        ExportEncoding::Protobuf
    } else {
        ExportEncoding::Json
    }
}
