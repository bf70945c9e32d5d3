//! What the settings of a policy give.
ghost use Rattle.std.specs.Prelude.{◌≡◌, ◌≤◌, IfOk, codes};
ghost use Rattle.toml.specs.Data.{get_member};
ghost use Rattle.toml.specs.View.{view, table_view, items_view};
ghost use Rattle.config_faults.specs.Tables.{number_row};
ghost use Rattle.tsc_config.specs.Values as spec;

use config_faults::{NumberKey, PolicyType, code_of, member, percentage_of};
use otlp_types::{List, Text};
use ottl_text::ErrorMode;
use policy_tree::{Leaf, Limit, PolicyKind, Wanted};
use std::alloc::{AllocError, Global};
use toml::{Table, Value};

/// What a policy of this type samples by its settings.
pub fn kind_in(alloc: Global, kind: PolicyType, settings: &Table) -> Result<PolicyKind, AllocError>
    ensures { IfOk result (λ found. found ≡ spec.kind_in kind (table_view settings.now)) }
{
    match kind {
        PolicyType::RateLimiting => Ok(PolicyKind::Limiting(Limit::Spans {
            per_second: natural_at(settings, "spans_per_second"),
        })),
        PolicyType::BytesLimiting => Ok(PolicyKind::Limiting(bytes_limit(settings))),
        _ => Ok(PolicyKind::Leaf(leaf_in(alloc, kind, settings)?)),
    }
}

/// A limit of bytes: where it isn't told how many the bucket holds, twice as many as come back with each second, and at
/// most 2^63-1.
fn bytes_limit(settings: &Table) -> Limit
    ensures { result ≡ spec.bytes_limit (table_view settings.now) }
{
    let per_second = natural_at(settings, "bytes_per_second");
    // Only where none is set: a `burst_capacity` of 0 is taken as it stands (D-213).
    let twice = per_second.saturating_mul(2).min(9_223_372_036_854_775_807);
    Limit::Bytes {
        per_second,
        burst: number_or(settings, "burst_capacity", twice),
    }
}

/// What a policy of this type samples by its settings, where it has no parts and asks no limiter.
#[tactic(auto, unfolding(crate::specs::Values::leaf_in))]
fn leaf_in(alloc: Global, kind: PolicyType, settings: &Table) -> Result<Leaf, AllocError>
    ensures { IfOk result (λ found. found ≡ spec.leaf_in kind (table_view settings.now)) }
{
    match kind {
        PolicyType::Latency => Ok(Leaf::Latency {
            threshold_ms: natural_at(settings, "threshold_ms"),
            upper_threshold_ms: natural_at(settings, "upper_threshold_ms"),
        }),
        PolicyType::StatusCode => Ok(Leaf::StatusCode {
            codes: item_codes(alloc, items_at(settings, "status_codes"))?,
        }),
        PolicyType::StringAttribute => attribute(alloc, settings, text_wanted(alloc, settings)?),
        PolicyType::NumericAttribute => attribute(alloc, settings, number_wanted(settings)),
        PolicyType::BooleanAttribute => {
            let value = truth_at(settings, "value");
            attribute(alloc, settings, Wanted::Boolean(value))
        }
        PolicyType::SpanCount => Ok(Leaf::SpanCount {
            min_spans: natural_at(settings, "min_spans"),
            max_spans: natural_at(settings, "max_spans"),
        }),
        PolicyType::Probabilistic => Ok(Leaf::Probabilistic {
            hash_salt: salt_at(alloc, settings)?,
            ten_thousandths: percentage_at(settings, "sampling_percentage"),
        }),
        PolicyType::TraceState => Ok(Leaf::TraceState {
            key: text_at(alloc, settings, "key")?,
            values: item_texts(alloc, items_at(settings, "values"))?,
        }),
        PolicyType::OttlCondition => Ok(Leaf::OttlCondition {
            error_mode: error_mode_at(settings),
            on_span: item_texts(alloc, items_at(settings, "span"))?,
            on_event: item_texts(alloc, items_at(settings, "spanevent"))?,
        }),
        PolicyType::AlwaysSample
        | PolicyType::TraceFlags
        | PolicyType::RateLimiting
        | PolicyType::BytesLimiting
        | PolicyType::And
        | PolicyType::Not
        | PolicyType::Drop
        | PolicyType::Composite => Ok(Leaf::AlwaysSample),
    }
}

/// The attribute policy of settings, with what is wanted of the value.
fn attribute(alloc: Global, settings: &Table, wanted: Wanted) -> Result<Leaf, AllocError>
    ensures { IfOk result (λ found. found ≡ spec.attribute (table_view settings.now) wanted) }
{
    Ok(Leaf::Attribute {
        key: text_at(alloc, settings, "key")?,
        wanted,
        invert_match: truth_at(settings, "invert_match"),
    })
}

/// The texts of settings, which are regular expressions where `enabled_regex_matching` is set (tailsamplingprocessor
/// README, `string_attribute`).
fn text_wanted(alloc: Global, settings: &Table) -> Result<Wanted, AllocError>
    ensures { IfOk result (λ wanted. wanted ≡ spec.text_wanted (table_view settings.now)) }
{
    let values = item_texts(alloc, items_at(settings, "values"))?;
    if truth_at(settings, "enabled_regex_matching") {
        Ok(Wanted::StringMatching(values))
    } else {
        Ok(Wanted::StringAmong(values))
    }
}

/// What an error of a condition does: where it isn't told, the next condition is asked.
fn error_mode_at(settings: &Table) -> ErrorMode
    ensures { result ≡ spec.error_mode_of (get_member (codes "error_mode") (table_view settings.now)) }
{
    // `ignore` where none is set; the processor's documentation sets one in each example (D-346).
    match member(settings, "error_mode") {
        Some(Value::String(text)) => match text.as_str() {
            "silent" => ErrorMode::Silent,
            "propagate" => ErrorMode::Propagate,
            _ => ErrorMode::Ignore,
        },
        _ => ErrorMode::Ignore,
    }
}

/// The bounds of a wanted number.
fn number_wanted(settings: &Table) -> Wanted
    ensures { result ≡ spec.number_wanted (table_view settings.now) }
{
    Wanted::NumberWithin {
        min_value: whole_at(settings, "min_value", i64::MIN),
        max_value: whole_at(settings, "max_value", i64::MAX),
    }
}

/// The salt of the settings: where there is none, or an empty text, that by default.
fn salt_at(alloc: Global, settings: &Table) -> Result<Text, AllocError>
    ensures { IfOk result (λ salt. salt ≡ spec.salt_by (spec.text_of (get_member (codes "hash_salt") (table_view settings.now)))) }
{
    let salt = text_at(alloc, settings, "hash_salt")?;
    // An empty salt is the default one, as in the processor (D-043).
    if salt.as_str().is_empty() {
        Text::from_str(alloc, "default-hash-seed")
    } else {
        Ok(salt)
    }
}

/// The percentage at a key, in ten-thousandths of a percent, and 0 where there is none.
fn percentage_at(settings: &Table, key: &str) -> u32
    ensures { result ≡ spec.percentage_at (get_member key.now (table_view settings.now)) }
{
    match member(settings, key) {
        Some(value) => percentage_of(value).unwrap_or(0),
        None => 0,
    }
}

/// The number at a key, at least 0, and 0 where there is none.
pub fn natural_at(settings: &Table, key: &str) -> u64
    ensures { result ≡ spec.natural_of (get_member key.now (table_view settings.now)) }
{
    match member(settings, key) {
        Some(Value::Integer(number)) if 0 <= *number => *number as u64,
        _ => 0,
    }
}

fn whole_at(settings: &Table, key: &str, default: i64) -> i64
    ensures { result ≡ spec.whole_of default (get_member key.now (table_view settings.now)) }
{
    match member(settings, key) {
        Some(Value::Integer(number)) => *number,
        _ => default,
    }
}

pub fn truth_at(settings: &Table, key: &str) -> bool
    ensures { result ≡ spec.truth_of (get_member key.now (table_view settings.now)) }
{
    match member(settings, key) {
        Some(Value::Boolean(truth)) => *truth,
        _ => false,
    }
}

/// The text at a key, empty where there is none.
pub fn text_at(alloc: Global, table: &Table, key: &str) -> Result<Text, AllocError>
    ensures { IfOk result (λ text. text ≡ spec.text_of (get_member key.now (table_view table.now))) }
{
    match member(table, key) {
        Some(value) => text_of(alloc, value),
        None => Ok(Text::new(alloc)),
    }
}

/// A text, empty where it is none.
pub fn text_of(alloc: Global, value: &Value) -> Result<Text, AllocError>
    ensures { IfOk result (λ text. text ≡ spec.text_value (view value.now)) }
{
    match value {
        Value::String(text) => Text::from_str(alloc, text.as_str()),
        _ => Ok(Text::new(alloc)),
    }
}

/// The items of the array at a key, none where there is no array.
pub fn items_at<'a>(settings: &'a Table, key: &str) -> &'a [Value]
    ensures { items_view result.now ≡ spec.items_at (get_member key.now (table_view settings.now)) }
{
    match member(settings, key) {
        Some(Value::Array(items)) => items.as_slice(),
        _ => &[],
    }
}

/// The status codes that items name.
fn item_codes(alloc: Global, items: &[Value]) -> Result<List<i32>, AllocError>
    ensures { IfOk result (λ list. list ≡ spec.item_codes (items_view items.now)) }
{
    let mut list = List::new(alloc);
    for item in items {
        if let Some(code) = code_of(item) {
            list.push(code)?;
        }
    }
    Ok(list)
}

/// The texts among items.
fn item_texts(alloc: Global, items: &[Value]) -> Result<List<Text>, AllocError>
    ensures { IfOk result (λ list. list ≡ spec.item_texts (items_view items.now)) }
{
    let mut list = List::new(alloc);
    for item in items {
        if let Some(text) = item.as_str() {
            list.push(Text::from_str(alloc, text)?)?;
        }
    }
    Ok(list)
}

/// The number at a key of a whole number, which is within its bounds, or its default.
pub fn number_at(table: &Table, key: NumberKey) -> u64
    requires lowest { (number_row key).lowest ≤ (number_row key).default }
    requires greatest { (number_row key).default ≤ (number_row key).greatest }
    ensures number { result ≡ spec.number_by (number_row key) (table_view table.now) }
    ensures lowest { (number_row key).lowest ≤ result }
    ensures greatest { result ≤ (number_row key).greatest }
{
    // Out of bounds it reads as its default, so the bounds hold of every configuration; the table is refused (D-214).
    let (name, default, lowest, greatest) = key.row();
    match member(table, name) {
        Some(Value::Integer(number)) if lowest <= *number && *number <= greatest => *number as u64,
        _ => default as u64,
    }
}

/// The number at a key, or its default.
fn number_or(settings: &Table, key: &str, default: u64) -> u64
    ensures { result ≡ spec.number_or default (get_member key.now (table_view settings.now)) }
{
    match member(settings, key) {
        Some(value) => number_value(default, value),
        None => default,
    }
}

fn number_value(default: u64, value: &Value) -> u64
    ensures { result ≡ spec.number_value default (view value.now) }
{
    match value {
        Value::Integer(number) if *number >= 0 => *number as u64,
        _ => default,
    }
}
