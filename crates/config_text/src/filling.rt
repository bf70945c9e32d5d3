//! A table with defaults.
ghost use Rattle.std.specs.Prelude.{◌≡◌, [], map, IfOk, string_bytes};
ghost use Rattle.config_faults.specs.Tables.{default_of, setting_of};
ghost use Rattle.config_text.specs.Defaults.{default_before, defaults_of};
ghost use Rattle.config_text.specs.Members as spec;
ghost use Rattle.toml.specs.Data.{no_members, table as table_data};
ghost use Rattle.toml.specs.View.{view, table_view};

use config_faults::{DefaultValue, Setting, member};
use std::alloc::{AllocError, Global};
use toml::{Table, Value};

/// Puts a value at a key, in place of what stood there.
pub fn put(alloc: Global, table: &mut Table, key: &str, value: Value) -> Result<(), AllocError>
    ensures { IfOk result (λ _. table_view table.new ≡ spec.put_member key.now (view value) (table_view table.old)) }
{
    drop(table.insert(String::from_str(alloc, key)?, value)?);
    Ok(())
}

/// Puts a value at a key, where nothing stands there.
pub fn put_default(
    alloc: Global,
    table: &mut Table,
    key: &str,
    value: Value,
) -> Result<(), AllocError>
    ensures { IfOk result (λ _. table_view table.new ≡ spec.with_default (record { name = key.now; value = view value }) (table_view table.old)) }
{
    if member(table, key).is_some() {
        return Ok(());
    }
    put(alloc, table, key, value)
}

/// Puts a table without keys at a key, where nothing stands there.
pub fn put_empty(alloc: Global, table: &mut Table, key: &str) -> Result<(), AllocError>
    ensures { IfOk result (λ _. table_view table.new ≡ spec.with_default (record { name = key.now; value = table_data no_members }) (table_view table.old)) }
{
    put_default(alloc, table, key, Value::Table(Table::new(alloc)))
}

/// A value that counts where nothing stands at its key.
fn default_value(alloc: Global, default: DefaultValue) -> Result<Value, AllocError>
    ensures { IfOk result (λ v. view v ≡ default_of default) }
{
    match default {
        DefaultValue::Number(number) => Ok(Value::Integer(number)),
        DefaultValue::Choice(key) => Value::string(alloc, key.row().1),
        DefaultValue::Text(key) => Value::string(alloc, key.row().1),
        DefaultValue::Off => Ok(Value::Boolean(false)),
    }
}

/// Puts the default of a setting at its key, where it has one and nothing stands there.
fn put_setting(alloc: Global, table: &mut Table, setting: &Setting) -> Result<(), AllocError>
    ensures { IfOk result (λ _. table_view table.new ≡ spec.with_each (default_before (setting_of setting.now).name (setting_of setting.now).default []) (table_view table.old)) }
{
    match *setting {
        Setting::Required(..) | Setting::Optional(..) => Ok(()),
        Setting::Default(name, _, default) => {
            put_default(alloc, table, name, default_value(alloc, default)?)
        }
    }
}

/// Puts the default of each of these settings at its key, where nothing stands there.
pub fn put_each(alloc: Global, table: &mut Table, settings: &[Setting]) -> Result<(), AllocError>
    ensures { IfOk result (λ _. table_view table.new ≡ spec.with_each (defaults_of (map setting_of settings.now)) (table_view table.old)) }
{
    for setting in settings {
        put_setting(alloc, table, setting)?;
    }
    Ok(())
}

/// A copy of a value that, where it is a table, has each of these defaults.
pub fn copy_with(alloc: Global, value: &Value, settings: &[Setting]) -> Result<Value, AllocError>
    ensures { IfOk result (λ v. view v ≡ spec.value_with (defaults_of (map setting_of settings.now)) (view value.now)) }
{
    match value.clone()? {
        Value::Table(mut members) => {
            put_each(alloc, &mut members, settings)?;
            Ok(Value::Table(members))
        }
        other => Ok(other),
    }
}

/// Puts each of these defaults into the table at a key, where one stands there.
pub fn put_inner(
    alloc: Global,
    table: &mut Table,
    key: &str,
    settings: &[Setting],
) -> Result<(), AllocError>
    ensures { IfOk result (λ _. table_view table.new ≡ spec.with_inner key.now (defaults_of (map setting_of settings.now)) (table_view table.old)) }
{
    let Some(value) = member(table, key) else {
        return Ok(());
    };
    let whole = copy_with(alloc, value, settings)?;
    put(alloc, table, key, whole)
}
