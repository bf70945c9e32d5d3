//! What a policy that isn't made of others is to look for.
ghost use Rattle.std.specs.Prelude.{◌≡◌, option_map};
ghost use Rattle.toml.specs.Data.{get_member};
ghost use Rattle.toml.specs.View.{view, table_view, items_view};
ghost use Rattle.policy_places.specs.Places as spec;

use config_faults::{PolicyType, member};
use toml::{Table, Value};

/// The key of the settings of such a policy at which an empty array stands in place of what it looks for.
pub fn empty_values(kind: PolicyType, settings: &Table) -> Option<&'static str>
    ensures { option_map (λ key. key.now) result ≡ spec.empty_values kind (table_view settings.now) }
{
    match (kind, values_key(kind)) {
        (PolicyType::OttlCondition, _) if has_no_conditions(settings) => Some("span"),
        (_, Some(key)) if is_empty_array(member(settings, key)) => Some(key),
        _ => None,
    }
}

/// Whether neither a condition on spans nor one on events stands there.
fn has_no_conditions(settings: &Table) -> bool
    ensures { result ≡ spec.has_no_conditions (table_view settings.now) }
{
    is_nothing(member(settings, "span")) && is_nothing(member(settings, "spanevent"))
}

fn is_nothing(value: Option<&Value>) -> bool
    ensures { result ≡ spec.is_nothing (option_map (λ v. view v.now) value.entry) }
{
    match value {
        None => true,
        Some(Value::Array(items)) => has_no_items(items.as_slice()),
        _ => false,
    }
}

fn is_empty_array(value: Option<&Value>) -> bool
    ensures { result ≡ spec.is_empty_array (option_map (λ v. view v.now) value.entry) }
{
    match value {
        Some(Value::Array(items)) => has_no_items(items.as_slice()),
        _ => false,
    }
}

fn has_no_items(items: &[Value]) -> bool
    ensures { result ≡ spec.has_no_items (items_view items.now) }
{
    match items {
        [] => true,
        [_, ..] => false,
    }
}

/// The key at which a policy of this type has a list of what it looks for.
fn values_key(kind: PolicyType) -> Option<&'static str>
    ensures { option_map (λ key. key.now) result ≡ spec.values_key kind }
{
    match kind {
        PolicyType::StatusCode => Some("status_codes"),
        PolicyType::StringAttribute | PolicyType::TraceState => Some("values"),
        _ => None,
    }
}

/// Whether the two bounds of a policy of this type leave nothing between them. Of a latency and of a number of spans
/// the upper one is none where it is 0.
pub fn are_crossed(kind: PolicyType, settings: &Table) -> bool
    ensures { result ≡ spec.are_crossed kind (table_view settings.now) }
{
    match kind {
        PolicyType::Latency => {
            let upper = whole_at(settings, "upper_threshold_ms", 0);
            0 < upper && upper <= whole_at(settings, "threshold_ms", 0)
        }
        PolicyType::SpanCount => {
            let most = whole_at(settings, "max_spans", 0);
            0 < most && most < whole_at(settings, "min_spans", 0)
        }
        PolicyType::NumericAttribute => {
            whole_at(settings, "max_value", i64::MAX) < whole_at(settings, "min_value", i64::MIN)
        }
        _ => false,
    }
}

/// The whole number at a key, or its default.
fn whole_at(settings: &Table, key: &str, default: i64) -> i64
    ensures { result ≡ spec.whole_of default (get_member key.now (table_view settings.now)) }
{
    match member(settings, key) {
        Some(Value::Integer(number)) => *number,
        _ => default,
    }
}
