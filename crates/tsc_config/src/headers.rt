//! The fields that each request to a backend has beside its own.
ghost use Rattle.std.specs.Prelude.{◌≡◌, IfOk, codes};
ghost use Rattle.toml.specs.Data.{get_member};
ghost use Rattle.toml.specs.View.{view, table_view};
ghost use Rattle.tsc_config.specs.HeaderFields as spec;

use config_faults::member;
use otlp_types::{List, Text, TryClone};
use std::alloc::{AllocError, Global};
use toml::{Table, Value};

/// A field of a request (RFC 9110, section 5).
#[derive(Drop)]
pub struct HeaderField {
    /// Its name.
    pub name: Text,
    /// Its value.
    pub value: Text,
}

impl TryClone for HeaderField {
    fn try_clone(&self, alloc: Global) -> Result<HeaderField, AllocError> {
        Ok(HeaderField {
            name: self.name.try_clone(alloc)?,
            value: self.value.try_clone(alloc)?,
        })
    }
}

/// The fields of the table at `headers`, none where there is no table.
pub fn headers_at(alloc: Global, settings: &Table) -> Result<List<HeaderField>, AllocError>
    ensures { IfOk result (λ fields. fields ≡ spec.headers_of (get_member (codes "headers") (table_view settings.now))) }
{
    match member(settings, "headers") {
        Some(value) => headers_value(alloc, value),
        None => Ok(List::new(alloc)),
    }
}

fn headers_value(alloc: Global, value: &Value) -> Result<List<HeaderField>, AllocError>
    ensures { IfOk result (λ fields. fields ≡ spec.headers_value (view value.now)) }
{
    match value {
        Value::Table(table) => fields_in(alloc, table),
        _ => Ok(List::new(alloc)),
    }
}

/// The fields of a table, in the order of their names.
fn fields_in(alloc: Global, table: &Table) -> Result<List<HeaderField>, AllocError>
    ensures { IfOk result (λ fields. fields ≡ spec.fields_in (table_view table.now)) }
{
    let mut fields = List::new(alloc);
    for (name, value) in table {
        fields.push(field_of(alloc, name.as_str(), value)?)?;
    }
    Ok(fields)
}

fn field_of(alloc: Global, name: &str, value: &Value) -> Result<HeaderField, AllocError>
    ensures { IfOk result (λ field. field ≡ spec.field_of name.now (view value.now)) }
{
    let name = Text::from_str(alloc, name)?;
    let value = match value {
        Value::String(text) => Text::from_str(alloc, text.as_str())?,
        _ => Text::new(alloc),
    };
    Ok(HeaderField { name, value })
}
