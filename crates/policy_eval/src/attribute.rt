//! The attribute policies: what a span or its resource has under a key.
ghost use Rattle.std.specs.Prelude.{◌≡◌, map, true};
ghost use Rattle.policy_eval.specs.Searches.{are_known};
ghost use Rattle.policy_tree.specs.declared.expressions.ExpressionKind.TheVariants.{Regular};
ghost use Rattle.policy_tree.specs.Expressions.{of_kind, expressions_wanted};
ghost use Rattle.policy_eval.specs.Policies.{matches, has_wanted, is_among, is_matched, is_wanted};

use crate::searches::Searches;
use otlp_types::{AnyValue, Arrival, KeyValue, Text};
use policy_tree::Wanted;

/// Whether some span, or its resource, has an attribute of this key that is as wanted.
pub fn matches(key: &str, wanted: &Wanted, spans: &[Arrival], searches: &mut Searches) -> bool
    requires known { are_known searches.old (expressions_wanted wanted.now) ≡ true }
    ensures found { result ≡ matches key.now wanted.now spans.now }
    ensures same { searches.new ≡ searches.old }
{
    for arrival in spans {
        let attributes = arrival.rec.span.get().attributes.as_slice();
        if has_wanted(key, wanted, attributes, searches) {
            return true;
        }
        let of_resource = arrival.rec.resource.get().attributes.as_slice();
        if has_wanted(key, wanted, of_resource, searches) {
            return true;
        }
    }
    false
}

fn has_wanted(key: &str, wanted: &Wanted, attributes: &[KeyValue], searches: &mut Searches) -> bool
    requires known { are_known searches.old (expressions_wanted wanted.now) ≡ true }
    ensures found { result ≡ has_wanted key.now wanted.now attributes.now }
    ensures same { searches.new ≡ searches.old }
{
    for attribute in attributes {
        if attribute.key.as_str() == key && is_wanted(wanted, &attribute.value, searches) {
            return true;
        }
    }
    false
}

fn is_wanted(wanted: &Wanted, value: &AnyValue, searches: &mut Searches) -> bool
    requires known { are_known searches.old (expressions_wanted wanted.now) ≡ true }
    ensures wanted { result ≡ is_wanted wanted.now value.now }
    ensures same { searches.new ≡ searches.old }
{
    match (wanted, value) {
        (Wanted::StringAmong(values), AnyValue::Str(text)) => is_among(
            values.as_slice(),
            text.as_str(),
        ),
        (Wanted::StringMatching(expressions), AnyValue::Str(text)) => is_matched(
            expressions.as_slice(),
            text.as_str(),
            searches,
        ),
        (
            Wanted::NumberWithin {
                min_value,
                max_value,
            },
            AnyValue::Int(number),
        ) => min_value <= number && number <= max_value,
        (Wanted::Boolean(wanted), AnyValue::Bool(value)) => wanted == value,
        _ => false,
    }
}

fn is_among(values: &[Text], text: &str) -> bool
    ensures { result ≡ is_among values.now text.now }
{
    values.iter().any(|value| value.as_str() == text)
}

/// Whether one of these expressions has a match in the text.
fn is_matched(expressions: &[Text], text: &str, searches: &mut Searches) -> bool
    requires known { are_known searches.old (map (of_kind Regular) expressions.now) ≡ true }
    ensures found { result ≡ is_matched expressions.now text.now }
    ensures same { searches.new ≡ searches.old }
{
    for expression in expressions {
        if searches.finds(expression.as_str(), text) {
            return true;
        }
    }
    false
}
