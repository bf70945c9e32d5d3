//! Which fields each request to a backend may have beside its own.
ghost use Rattle.std.specs.Prelude.{◌≡◌, reverse};
ghost use Rattle.http1.specs.Head.{is_trimmed_value, starts_visible};
ghost use Rattle.toml.specs.View.{view, table_view};
ghost use Rattle.config_faults.specs.Faults.{field_fault, fields_fault};
ghost use Rattle.config_faults.specs.Headers as spec;

use crate::fault::{ConfigFault, least};
use http1::text::eq_ignore_case;
use httparse::{is_header_value, is_space_or_tab, is_token};
use toml::{Table, Value};

/// Whether a field may be sent with each request.
fn may_be_sent(name: &[u8], value: &[u8]) -> bool
    ensures { result ≡ spec.may_be_sent name.now value.now }
{
    // None may say where a request goes, what its body is or how it is sent (D-207).
    is_token(name) && is_trimmed(value) && !is_own_name(name)
}

/// Whether a text has no control byte but the tab, and no white space at either end.
fn is_trimmed(text: &[u8]) -> bool
    ensures { result ≡ is_trimmed_value text.now }
{
    begins_visible(text) && ends_visible(text) && is_header_value(text)
}

fn begins_visible(text: &[u8]) -> bool
    ensures { result ≡ starts_visible text.now }
{
    match text {
        [first, ..] => !is_space_or_tab(*first),
        [] => true,
    }
}

fn ends_visible(text: &[u8]) -> bool
    ensures { result ≡ starts_visible (reverse text.now) }
{
    match text {
        [.., last] => !is_space_or_tab(*last),
        [] => true,
    }
}

/// Whether a name is one of the fields that a request has of its own, or that say how it is sent.
fn is_own_name(name: &[u8]) -> bool
    ensures { result ≡ spec.is_own_name name.now }
{
    is_content_name(name) || is_connection_name(name)
}

fn is_content_name(name: &[u8]) -> bool
    ensures { result ≡ spec.is_content_name name.now }
{
    eq_ignore_case(name, b"host")
        || eq_ignore_case(name, b"content-type")
        || eq_ignore_case(name, b"content-length")
        || eq_ignore_case(name, b"content-encoding")
}

fn is_connection_name(name: &[u8]) -> bool
    ensures { result ≡ spec.is_connection_name name.now }
{
    eq_ignore_case(name, b"transfer-encoding")
        || eq_ignore_case(name, b"connection")
        || eq_ignore_case(name, b"expect")
        || eq_ignore_case(name, b"upgrade")
}

/// The fault of a field.
fn field_fault(name: &str, value: &Value) -> Option<ConfigFault>
    ensures { result ≡ field_fault name.now (view value.now) }
{
    match value {
        Value::String(text) => {
            if may_be_sent(name.as_bytes(), text.as_bytes()) {
                None
            } else {
                Some(ConfigFault::OutOfRange)
            }
        }
        _ => Some(ConfigFault::WrongType),
    }
}

/// The least fault of the fields of a table.
#[tactic(auto, using(crate::proofs::Least::least_assoc))]
pub fn fields_fault(table: &Table) -> Option<ConfigFault>
    ensures { result ≡ fields_fault (table_view table.now) }
{
    let mut fault = None;
    for (name, value) in table {
        fault = least(fault, field_fault(name.as_str(), value));
    }
    fault
}
