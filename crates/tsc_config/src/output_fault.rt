//! What is done once the output fails.
ghost use Rattle.std.specs.Prelude.{◌≡◌, codes};
ghost use Rattle.toml.specs.Data.{get_member};
ghost use Rattle.toml.specs.View.{table_view};
ghost use Rattle.tsc_config.specs.Values as spec;

use config_faults::member;
use toml::{Table, Value};

/// What is done once a line can't be written.
#[derive(Clone, Copy, PartialEq, Eq)]
pub enum OutputFault {
    /// It and what comes after it is discarded.
    Discard,
    /// The collector stops, as at a close.
    Stop,
    /// It is tried again, until it is taken or the collector closes.
    Retry,
}

/// What stands at the key `output_fault`, or its default.
pub fn output_fault_at(table: &Table) -> OutputFault
    ensures { result ≡ spec.output_fault_of (get_member (codes "output_fault") (table_view table.now)) }
{
    match member(table, "output_fault") {
        Some(Value::String(text)) => fault_named(text.as_str()),
        _ => OutputFault::Discard,
    }
}

/// What a text names.
fn fault_named(text: &str) -> OutputFault
    ensures { result ≡ spec.output_fault_named text.now }
{
    match text {
        "stop" => OutputFault::Stop,
        "retry" => OutputFault::Retry,
        _ => OutputFault::Discard,
    }
}
