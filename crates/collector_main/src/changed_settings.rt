//! Which settings of a configuration aren't those that count where it doesn't name them.
ghost use Rattle.std.specs.Prelude.{◌≡◌, ◌↔◌, IsTrue};

use config_faults::{DefaultValue, Setting, member, top_settings};
use std::alloc::{AllocError, Global};
use toml::{Table, Value};

/// The keys at the top of a configuration of this text whose value isn't their default, with spaces between them: of
/// tables and policies it tells nothing.
pub fn changed_settings(alloc: Global, text: &str) -> Result<String, AllocError> {
    match toml::table_from_str(alloc, text) {
        Ok(table) => changed_in(alloc, &table),
        Err(error) if error.is_memory() => Err(AllocError),
        Err(_) => Ok(String::new(alloc)),
    }
}

fn changed_in(alloc: Global, table: &Table) -> Result<String, AllocError> {
    let mut names = String::new(alloc);
    for setting in &top_settings() {
        let Setting::Default(name, _, default) = *setting else {
            continue;
        };
        let is_changed = match member(table, name) {
            Some(value) => !is_default(value, default),
            None => false,
        };
        if is_changed {
            if !names.is_empty() {
                names.push_str(" ")?;
            }
            names.push_str(name)?;
        }
    }
    Ok(names)
}

/// Whether a number is this default: neither above nor below it.
fn is_default_number(number: i64, default: i64) -> bool
    ensures { IsTrue result ↔ (number ≡ default) }
{
    number == default
}

/// Whether a value is this default.
fn is_default(value: &Value, default: DefaultValue) -> bool {
    match (value, default) {
        (Value::Integer(number), DefaultValue::Number(other)) => is_default_number(*number, other),
        (Value::String(text), DefaultValue::Choice(key)) => text.as_str() == key.row().1,
        (Value::String(text), DefaultValue::Text(key)) => text.as_str() == key.row().1,
        (Value::Boolean(is_on), DefaultValue::Off) => !*is_on,
        _ => false,
    }
}
