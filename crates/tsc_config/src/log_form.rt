//! In which form a run is logged.
ghost use Rattle.std.specs.Prelude.{◌≡◌, codes};
ghost use Rattle.toml.specs.Data.{get_member};
ghost use Rattle.toml.specs.View.{table_view};
ghost use Rattle.tsc_config.specs.Values as spec;

use config_faults::member;
use toml::{Table, Value};

/// What is said of a run on standard error.
#[derive(Clone, Copy, PartialEq, Eq)]
pub enum LogForm {
    /// A line of text for each event.
    Text,
    /// A line of JSON for each.
    Json,
    /// Nothing.
    Off,
}

/// The form at the key `log`, or its default.
pub fn log_form_at(table: &Table) -> LogForm
    ensures { result ≡ spec.log_form_of (get_member (codes "log") (table_view table.now)) }
{
    match member(table, "log") {
        Some(Value::String(text)) => form_of(text.as_str()),
        _ => LogForm::Text,
    }
}

/// The form that a text names.
fn form_of(text: &str) -> LogForm
    ensures { result ≡ spec.log_form_named text.now }
{
    match text {
        "json" => LogForm::Json,
        "off" => LogForm::Off,
        _ => LogForm::Text,
    }
}
