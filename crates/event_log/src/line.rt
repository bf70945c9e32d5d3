//! The line of an event.
ghost use Rattle.std.specs.Prelude.{◌≡◌, IfOk, string_bytes};
ghost use Rattle.event_log.specs.Lines as spec;

use serde_json::Value;
use std::alloc::{AllocError, Global};

/// How grave an event is.
#[derive(Clone, Copy, PartialEq, Eq)]
pub enum Level {
    /// It is as it should be.
    Info,
    /// Something is lost, refused or slow.
    Warning,
    /// The collector can't do what it is for.
    Error,
}

/// What is told of an event.
#[derive(Clone, Copy)]
pub enum FieldValue<'v> {
    Number(u64),
    Text(&'v str),
}

/// A name, in letters and `_`, and what is told under it.
#[derive(Clone, Copy)]
pub struct LogField<'v> {
    pub name: &'static str,
    pub value: FieldValue<'v>,
}

impl Level {
    /// Its word in a line of text.
    fn word(self) -> &'static str
        ensures { result.now ≡ spec.level_word self }
    {
        match self {
            Level::Info => "INFO",
            Level::Warning => "WARN",
            Level::Error => "ERROR",
        }
    }

    /// Its word in a line of JSON.
    fn name(self) -> &'static str
        ensures { result.now ≡ spec.level_name self }
    {
        match self {
            Level::Info => "info",
            Level::Warning => "warn",
            Level::Error => "error",
        }
    }
}

/// A text as a string of JSON (RFC 8259, section 7).
fn quoted(alloc: Global, text: &str) -> Result<String, AllocError>
    ensures { IfOk result (λ quoted. string_bytes quoted ≡ spec.quoted text.now) }
{
    let value = Value::String(String::from_str(alloc, text)?);
    value.to_string(alloc)
}

/// A value: a number in decimal digits, a text as a string of JSON.
fn value_text(alloc: Global, value: FieldValue<'_>) -> Result<String, AllocError>
    ensures { IfOk result (λ text. string_bytes text ≡ spec.value_text value.entry) }
{
    match value {
        FieldValue::Number(number) => format!(in alloc; "{number}"),
        FieldValue::Text(text) => quoted(alloc, text),
    }
}

/// A field in a line of text.
fn text_field(alloc: Global, field: &LogField<'_>) -> Result<String, AllocError>
    ensures { IfOk result (λ text. string_bytes text ≡ spec.text_field field.now) }
{
    let name = field.name;
    let value = value_text(alloc, field.value)?;
    format!(in alloc; " {name}={value}")
}

/// A field in a line of JSON.
fn json_field(alloc: Global, field: &LogField<'_>) -> Result<String, AllocError>
    ensures { IfOk result (λ text. string_bytes text ≡ spec.json_field field.now) }
{
    let name = field.name;
    let value = value_text(alloc, field.value)?;
    format!(in alloc; ",\"{name}\":{value}")
}

/// The fields of a line of text.
fn text_fields(alloc: Global, fields: &[LogField<'_>]) -> Result<String, AllocError>
    ensures { IfOk result (λ text. string_bytes text ≡ spec.text_fields fields.now) }
{
    let mut text = String::new(alloc);
    for field in fields {
        let more = text_field(alloc, field)?;
        text.push_str(more.as_str())?;
    }
    Ok(text)
}

/// The fields of a line of JSON.
fn json_fields(alloc: Global, fields: &[LogField<'_>]) -> Result<String, AllocError>
    ensures { IfOk result (λ text. string_bytes text ≡ spec.json_fields fields.now) }
{
    let mut text = String::new(alloc);
    for field in fields {
        let more = json_field(alloc, field)?;
        text.push_str(more.as_str())?;
    }
    Ok(text)
}

/// The line of an event: its time, its level, its name and its fields.
pub fn text_line(
    alloc: Global,
    time: &str,
    level: Level,
    event: &str,
    fields: &[LogField<'_>],
) -> Result<String, AllocError>
    ensures { IfOk result (λ line. string_bytes line ≡ spec.text_line time.now level event.now fields.now) }
{
    let word = level.word();
    let said = text_fields(alloc, fields)?;
    format!(in alloc; "{time} {word} {event}{said}\n")
}

/// The same as an object of JSON.
pub fn json_line(
    alloc: Global,
    time: &str,
    level: Level,
    event: &str,
    fields: &[LogField<'_>],
) -> Result<String, AllocError>
    ensures { IfOk result (λ line. string_bytes line ≡ spec.json_line time.now level event.now fields.now) }
{
    let name = level.name();
    let said = json_fields(alloc, fields)?;
    format!(in alloc; "{{\"time\":\"{time}\",\"level\":\"{name}\",\"event\":\"{event}\"{said}}}\n")
}
