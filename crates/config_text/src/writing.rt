//! The settings in force, as a text.
ghost use Rattle.std.specs.Prelude.{◌≡◌, None, Some, IfOk, IfSome, string_bytes};
ghost use Rattle.toml.specs.Parse.{parse_document};
ghost use Rattle.toml.specs.View.{table_view};
ghost use Rattle.tsc_config.specs.Reading.{reading};
ghost use Rattle.config_text.specs.Whole.{IsTextWithDefaults, IsWritable, TellsEach, with_defaults, with_root_wait};

use crate::depth::members_are_within;
use crate::filling::{put_default, put_each, put_empty, put_inner};
use config_faults::{
    NumberKey, cache_settings, export_settings, ledger_settings, member, top_settings,
};
use std::alloc::{AllocError, Global};
use toml::ser::Error;
use toml::{Table, Value};

/// The deepest that a table may nest, so that its text can be read.
const DEEPEST: u32 = 80;

/// The settings that are in force by a configuration of this text, as a text that is read as the same configuration:
/// what it says, in the order of its keys and without its comments, and each key that has a default with that, where it
/// isn't there. Policies stay as they are; `admin`, `export` and `ledger`, which have no default, aren't added, and of
/// the two names of the wait from a trace's root on the one that is there stays.
///
/// A text that is no TOML, or whose tables nest deeper than 80 (policies nest 8 deep), is given as it is. `Err`
/// where memory is refused.
pub fn settings_in_force(alloc: Global, text: &str) -> Result<String, AllocError>
    ensures reads { IfOk result (λ s. reading (string_bytes s) ≡ reading text.now) }
    ensures table { IfOk result (λ s. IsTextWithDefaults text.now (string_bytes s)) }
    ensures whole { IfOk result (λ s. TellsEach text.now (string_bytes s)) }
{
    match toml::table_from_str(alloc, text) {
        Ok(mut table) => match whole_text(alloc, &mut table)? {
            Some(whole) => Ok(whole),
            None => String::from_str(alloc, text),
        },
        Err(error) if error.is_memory() => Err(AllocError),
        Err(_) => String::from_str(alloc, text),
    }
}

/// The text of a configuration's table with its defaults, which are put into it, or `None` where that can't be written.
fn whole_text(alloc: Global, table: &mut Table) -> Result<Option<String>, AllocError>
    ensures back { IfOk result (λ found. IfSome found (λ s. parse_document (string_bytes s) ≡ Some (with_defaults (table_view table.old)))) }
    ensures none { IfOk result (λ found. found ≡ None → ¬ IsWritable (with_defaults (table_view table.old))) }
{
    complete(alloc, table)?;
    text_of(alloc, table)
}

/// Puts each default into the table of a configuration, where nothing stands at its key.
fn complete(alloc: Global, table: &mut Table) -> Result<(), AllocError>
    ensures { IfOk result (λ _. table_view table.new ≡ with_defaults (table_view table.old)) }
{
    put_root_wait(alloc, table)?;
    put_empty(alloc, table, "decision_cache")?;
    put_each(alloc, table, &top_settings())?;
    put_inner(alloc, table, "decision_cache", &cache_settings())?;
    put_inner(alloc, table, "export", &export_settings())?;
    put_inner(alloc, table, "ledger", &ledger_settings())?;
    Ok(())
}

/// Puts the wait from a trace's root on there, where nothing stands at either of its names.
fn put_root_wait(alloc: Global, table: &mut Table) -> Result<(), AllocError>
    ensures { IfOk result (λ _. table_view table.new ≡ with_root_wait (table_view table.old)) }
{
    if member(table, NumberKey::RootReceived.row().0).is_some() {
        return Ok(());
    }
    let (name, default, ..) = NumberKey::RootWait.row();
    put_default(alloc, table, name, Value::Integer(default))
}

/// The text of a table, or `None` where it nests too deep for a text, or has a date that a text can't have.
fn text_of(alloc: Global, table: &Table) -> Result<Option<String>, AllocError>
    ensures back { IfOk result (λ found. IfSome found (λ s. parse_document (string_bytes s) ≡ Some (table_view table.now))) }
    ensures none { IfOk result (λ found. found ≡ None → ¬ IsWritable (table_view table.now)) }
{
    if !members_are_within(table, DEEPEST) {
        return Ok(None);
    }
    match toml::table_to_string(alloc, table) {
        Ok(text) => Ok(Some(text)),
        Err(Error::DateInvalid) => Ok(None),
        Err(Error::OutOfMemory) => Err(AllocError),
    }
}
