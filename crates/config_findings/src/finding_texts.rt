//! What is said of a fault of a configuration: its place, and what would be right. Contracts say what is told of a key
//! that there isn't, and where a text isn't TOML; of other texts no more than that they are made, and tests/faulty.py
//! compares them. Where a fault of policies stands has its contract in `policy_places`.
ghost use Rattle.std.specs.Prelude.{◌≡◌, IfOk, string_bytes};
ghost use Rattle.config_findings.specs.Texts.{no_key_text, no_toml_text, place_from};

use config_faults::{ConfigFault, ItemKind, PolicyType, TableKind, ValueKind};
use near_keys::{Hint, hint_of};
use ottl_text::Fault;
use policy_places::{FaultPlace, fault_place, key_place, order_follows};
use policy_tree::PolicyFault;
use std::alloc::{AllocError, Global};
use toml::{Table, Value};

/// The text that a table of this kind has no such key, and what is known of it. A key that isn't bare is written between
/// quotation marks.
pub fn unknown_text(
    alloc: Global,
    place: &str,
    kind: TableKind,
    key: &str,
) -> Result<String, AllocError> {
    let here = if is_bare(key) {
        key_place(alloc, place, key)?
    } else {
        let quoted = format!(in alloc; "{key:?}")?;
        key_place(alloc, place, quoted.as_str())?
    };
    no_key_text(alloc, here.as_str(), kind, key)
}

/// The text that a table of this kind has no key, which stands here, and what is known of it.
fn no_key_text(alloc: Global, here: &str, kind: TableKind, key: &str) -> Result<String, AllocError>
    ensures { IfOk result (λ said. string_bytes said ≡ no_key_text here.now kind key.now) }
{
    match hint_of(kind, key) {
        Hint::Nothing => format!(in alloc; "{here}: no such key"),
        Hint::Key(name) => format!(in alloc; "{here}: no such key; `{name}` is"),
        Hint::Words(words) => format!(in alloc; "{here}: no such key; {words}"),
    }
}

/// The text that this isn't TOML, with the line and the column, both from 1, behind these bytes of it.
pub fn no_toml_text(alloc: Global, before: &[u8]) -> Result<String, AllocError>
    ensures { IfOk result (λ said. string_bytes said ≡ no_toml_text before.now) }
{
    let (line, column) = place_behind(before);
    format!(in alloc; "not TOML; line {line}, column {column}")
}

/// The line and the column, both from 1, behind some bytes. A column counts characters.
fn place_behind(before: &[u8]) -> (usize, usize)
    ensures { result ≡ place_from 1 1 before.now }
{
    let mut left = before;
    let mut line = 1usize;
    let mut column = 1usize;
    while let [first, rest @ ..] = left {
        if *first == b'\n' {
            line += 1;
            column = 1;
        } else if *first < 128 || *first >= 192 {
            // A byte that begins a character; the others of UTF-8 go on with one.
            column += 1;
        }
        left = rest;
    }
    (line, column)
}

/// The text that a key stands beside another name of the same setting.
pub fn twice_text(alloc: Global, key: &str, other: &str) -> Result<String, AllocError> {
    format!(in alloc; "{key}: another name of {other}, which stands there too")
}

/// Whether a key can stand without quotation marks (TOML 1.0, "Keys").
fn is_bare(key: &str) -> bool {
    !key.is_empty()
        && key.bytes().all(|byte| byte.is_ascii_alphanumeric() || byte == b'_' || byte == b'-')
}

/// The text that a key is missing.
pub fn missing_text(alloc: Global, place: &str) -> Result<String, AllocError> {
    format!(in alloc; "{place}: missing")
}

/// The text that something of another type is wanted.
pub fn wrong_text(alloc: Global, place: &str, wanted: &str) -> Result<String, AllocError> {
    format!(in alloc; "{place}: {wanted} is wanted")
}

/// A value as it could stand in the file, in one line.
fn shown(alloc: Global, value: &Value) -> Result<String, AllocError> {
    match value {
        Value::String(text) => {
            let text = text.as_str();
            format!(in alloc; "{text:?}")
        }
        _ => format!(in alloc; "{value}"),
    }
}

/// What is said of a value that has this fault where a value of this kind is wanted.
pub fn value_text(
    alloc: Global,
    place: &str,
    value: &Value,
    wanted: ValueKind,
    fault: ConfigFault,
) -> Result<String, AllocError> {
    if fault == ConfigFault::WrongType {
        return wrong_text(alloc, place, type_text(wanted));
    }
    if let ValueKind::Headers = wanted {
        return headers_text(alloc, place);
    }
    let value = shown(alloc, value)?;
    match wanted {
        ValueKind::Integer(0, i64::MAX) => format!(in alloc; "{place}: {value} is below 0"),
        ValueKind::Integer(lowest, greatest) => {
            format!(in alloc; "{place}: {value} is not from {lowest} to {greatest}")
        }
        ValueKind::Choice(key) => {
            let (_, default, other) = key.row();
            format!(in alloc; "{place}: {value} is none of {default}, {other}")
        }
        ValueKind::LogForm => format!(in alloc; "{place}: {value} is none of text, json, off"),
        ValueKind::OutputFault => {
            format!(in alloc; "{place}: {value} is none of discard, stop, retry")
        }
        ValueKind::LedgerSync => {
            format!(in alloc; "{place}: {value} is none of none, interval, request")
        }
        ValueKind::ErrorMode => {
            format!(in alloc; "{place}: {value} is none of ignore, silent, propagate")
        }
        ValueKind::Endpoint => {
            format!(in alloc; "{place}: {value} is not of the form http://HOST:PORT/PATH")
        }
        ValueKind::PolicyType => {
            let names = type_names(alloc)?;
            format!(in alloc; "{place}: {value} is none of {names}")
        }
        _ => format!(in alloc; "{place}: {value} is not from 0 to 100 with at most four decimals"),
    }
}

/// What is said of fields of which one can't be sent. It shows none of them: they may be secret.
fn headers_text(alloc: Global, place: &str) -> Result<String, AllocError> {
    format!(in alloc;
        "{place}: a name or a text that can't be sent, or a field that is the collector's own"
    )
}

/// The names of the types of policy.
fn type_names(alloc: Global) -> Result<String, AllocError> {
    let mut names = String::new(alloc);
    for kind in PolicyType::all() {
        if !names.is_empty() {
            names.push_str(", ")?;
        }
        names.push_str(kind.name())?;
    }
    Ok(names)
}

/// What a value of this kind is.
fn type_text(wanted: ValueKind) -> &'static str {
    match wanted {
        ValueKind::Integer(..) | ValueKind::Whole => "a whole number",
        ValueKind::Truth => "true or false",
        ValueKind::Text
        | ValueKind::Endpoint
        | ValueKind::PolicyType
        | ValueKind::Choice(_)
        | ValueKind::LogForm
        | ValueKind::OutputFault
        | ValueKind::LedgerSync
        | ValueKind::ErrorMode => "a text",
        ValueKind::Percentage => "a number",
        ValueKind::Array(_) => "an array",
        ValueKind::Headers => "a table of texts",
    }
}

/// What is said of an item that has this fault where an item of this kind is wanted.
pub fn item_text(
    alloc: Global,
    place: &str,
    item: &Value,
    kind: ItemKind,
    fault: ConfigFault,
) -> Result<String, AllocError> {
    match (kind, fault) {
        (ItemKind::StatusCode, ConfigFault::OutOfRange) => {
            let item = shown(alloc, item)?;
            format!(in alloc; "{place}: {item} is none of OK, ERROR, UNSET")
        }
        (ItemKind::Allocation, _) => wrong_text(
            alloc,
            place,
            "a table of policy, a text, and percent, from 1 to 100,",
        ),
        _ => wrong_text(alloc, place, "a text"),
    }
}

/// The text that the order of a composite with these settings isn't the names of its parts, each once.
pub fn order_text(alloc: Global, place: &str, settings: &Table) -> Result<String, AllocError> {
    // Told all the same: `serve` refuses the text by the least fault, which may be this one (D-222).
    let follows = if order_follows(settings) { FOLLOWS } else { "" };
    format!(in alloc;
        "{place}.policy_order: not the names of composite_sub_policy, each once{follows}"
    )
}

/// What is said of a fault that isn't there any more once the others are mended.
const FOLLOWS: &str = "; it follows from another fault";

/// What is said of the policies in the table of a configuration that have this fault: where it stands, or that it only
/// follows from another one.
pub fn policy_fault_text(
    alloc: Global,
    table: &Table,
    fault: PolicyFault,
) -> Result<String, AllocError> {
    let said = policy_words(fault);
    match (fault_place(alloc, table, fault)?, fault) {
        (Some(place), _) => placed_text(alloc, said, &place),
        (None, PolicyFault::EmptyList | PolicyFault::SameName | PolicyFault::NoValues) => {
            format!(in alloc; "policies: {said}{FOLLOWS}")
        }
        (None, _) => format!(in alloc; "policies: {said}"),
    }
}

/// What is said of a fault that stands at a place.
fn placed_text(alloc: Global, said: &str, place: &FaultPlace) -> Result<String, AllocError> {
    let keys = place.keys.as_str();
    match &place.name {
        Some(name) => {
            let name = name.as_str();
            format!(in alloc; "policies: {said}: {name:?} in {keys}")
        }
        None => format!(in alloc; "policies: {said}: {keys}"),
    }
}

/// What is wrong with policies that have this fault.
fn policy_words(fault: PolicyFault) -> &'static str {
    match fault {
        PolicyFault::EmptyList => "a list of policies is empty",
        PolicyFault::TooDeep => "policies are nested deeper than 8",
        PolicyFault::TooMany => "there are more than 64 policies",
        PolicyFault::SameName => "two policies of one list have the same name",
        PolicyFault::CrossedBounds => "the bounds of a policy leave nothing between them",
        PolicyFault::NoValues => "the values or status codes of a policy are an empty list",
        PolicyFault::NoMemory => "no memory",
    }
}

/// What is said of a text in `values` that is no regular expression.
pub fn no_expression_text(alloc: Global, text: &str) -> Result<String, AllocError> {
    format!(in alloc; "policies: {text:?} is no regular expression")
}

/// What is said of a text at a place that is no condition.
pub fn condition_text(
    alloc: Global,
    place: &str,
    text: &str,
    fault: Fault,
) -> Result<String, AllocError> {
    let column = fault.column;
    let kind = fault.kind;
    format!(in alloc; "{place}: {text:?} is no condition: column {column}: {kind}")
}

/// What is said of a condition at a place whose regular expression is none.
pub fn pattern_text(alloc: Global, place: &str, text: &str) -> Result<String, AllocError> {
    format!(in alloc; "{place}: {text:?}: what IsMatch takes is no regular expression")
}

/// What is said of a regular expression in `values` or in a condition that is too big.
pub fn big_expression_text(alloc: Global, text: &str) -> Result<String, AllocError> {
    format!(in alloc; "policies: {text:?} takes more than about 1 MiB, compiled")
}
