//! Functions.
ghost use Rattle.std.specs.Prelude.{◌≡◌, true};
ghost use Rattle.std.specs.Fmt.{signed_decimal};
ghost use Rattle.expression.specs.Expressions.{is_known, is_match};
ghost use Rattle.ottl_condition.specs.Functions as spec;
ghost use Rattle.ottl_condition.specs.Values.{value_of, answer_of};

use crate::conversions::{as_duration, as_float, as_int, as_like, as_text, truth_text};
use crate::eval_error::EvalError;
use crate::value::Value;
use expression::Searches;
use itoa::Buffer;
use ottl_text::Unary;

/// The bytes of a text, the pairs of a map, the values of a list.
fn length_of<'a, 'r>(value: &Value<'_, '_>) -> Result<Value<'a, 'r>, EvalError>
    ensures { answer_of result ≡ spec.length_of (value_of value.now) }
{
    match value {
        Value::Text(text) => Ok(Value::Int(text.len() as i64)),
        Value::Made(text) => Ok(Value::Int(text.len() as i64)),
        Value::Digits(digits) => Ok(Value::Int(digits.len() as i64)),
        Value::Map(pairs) => Ok(Value::Int(pairs.len() as i64)),
        Value::List(values) => Ok(Value::Int(values.len() as i64)),
        // Bytes have none, either (D-303).
        _ => Err(EvalError::NoLength),
    }
}

/// What a function of one value makes of it.
#[tactic(auto, unfolding(crate::specs::Functions::made_of))]
pub(crate) fn made_of<'a, 'r>(
    unary: Unary,
    value: &Value<'a, 'r>,
) -> Result<Value<'a, 'r>, EvalError>
    ensures { answer_of result ≡ spec.made_of unary (value_of value.now) }
{
    match unary {
        Unary::Not => match value.truth() {
            Ok(truth) => Ok(Value::Bool(!truth)),
            Err(error) => Err(error),
        },
        Unary::IsString => Ok(Value::Bool(matches!(
            value,
            Value::Text(_) | Value::Made(_) | Value::Digits(_)
        ))),
        Unary::IsInt => Ok(Value::Bool(matches!(value, Value::Int(_)))),
        Unary::IsDouble => Ok(Value::Bool(matches!(value, Value::Float(_)))),
        Unary::IsBool => Ok(Value::Bool(matches!(value, Value::Bool(_)))),
        Unary::IsMap => Ok(Value::Bool(matches!(value, Value::Map(_)))),
        Unary::IsList => Ok(Value::Bool(matches!(value, Value::List(_)))),
        Unary::Len => length_of(value),
        Unary::Int => Ok(as_int(value)),
        Unary::Double => Ok(as_float(value)),
        Unary::Text => as_text(value),
        Unary::Duration => as_duration(value),
        Unary::Like => as_like(value),
    }
}

/// Whether a text begins with another.
fn has_prefix(text: &[u8], prefix: &[u8]) -> bool
    ensures { result ≡ spec.has_prefix text.now prefix.now }
{
    match text.get(..prefix.len()) {
        Some(front) => front == prefix,
        None => false,
    }
}

/// Whether a text ends with another.
fn has_suffix(text: &[u8], suffix: &[u8]) -> bool
    ensures { result ≡ spec.has_suffix text.now suffix.now }
{
    if suffix.len() <= text.len() {
        &text[text.len() - suffix.len()..] == suffix
    } else {
        false
    }
}

/// Whether a text begins with another; both have to be texts.
#[tactic(auto, unfolding(crate::specs::Functions::tested))]
pub(crate) fn begins<'a, 'r>(
    text: &Value<'_, '_>,
    prefix: &Value<'_, '_>,
) -> Result<Value<'a, 'r>, EvalError>
    ensures { answer_of result ≡ spec.tested spec.has_prefix (value_of text.now) (value_of prefix.now) }
{
    match (text.text(), prefix.text()) {
        (Some(text), Some(prefix)) => Ok(Value::Bool(has_prefix(
            text.as_bytes(),
            prefix.as_bytes(),
        ))),
        // `nil` is no text, so a missing attribute is an error here (D-304).
        _ => Err(EvalError::NotAText),
    }
}

/// Whether a text ends with another; both have to be texts.
#[tactic(auto, unfolding(crate::specs::Functions::tested))]
pub(crate) fn ends<'a, 'r>(
    text: &Value<'_, '_>,
    suffix: &Value<'_, '_>,
) -> Result<Value<'a, 'r>, EvalError>
    ensures { answer_of result ≡ spec.tested spec.has_suffix (value_of text.now) (value_of suffix.now) }
{
    match (text.text(), suffix.text()) {
        (Some(text), Some(suffix)) => Ok(Value::Bool(has_suffix(
            text.as_bytes(),
            suffix.as_bytes(),
        ))),
        _ => Err(EvalError::NotAText),
    }
}

/// Whether a regular expression, which the searches know, has a match in the digits of a number.
fn number_is_match(pattern: &str, number: i64, searches: &mut Searches) -> bool
    requires known { is_known searches.old pattern.now ≡ true }
    ensures found { result ≡ is_match pattern.now (signed_decimal number) }
    ensures same { searches.new ≡ searches.old }
{
    let mut buffer = Buffer::new();
    searches.finds(pattern, buffer.format(number))
}

/// Whether a regular expression, which the searches know, has a match in a text, or in that of a whole number or a truth
/// value; `nil` has none.
#[tactic(auto, unfolding(crate::specs::Functions::searched))]
pub(crate) fn searched<'a, 'r>(
    pattern: &str,
    value: &Value<'_, '_>,
    searches: &mut Searches,
) -> Result<Value<'a, 'r>, EvalError>
    requires known { is_known searches.old pattern.now ≡ true }
    ensures found { answer_of result ≡ spec.searched pattern.now (value_of value.now) }
    ensures same { searches.new ≡ searches.old }
{
    match value {
        Value::Text(text) => Ok(Value::Bool(searches.finds(pattern, text))),
        Value::Made(text) => Ok(Value::Bool(searches.finds(pattern, text))),
        Value::Digits(digits) => Ok(Value::Bool(searches.finds(pattern, digits.as_str()))),
        Value::Int(number) => Ok(Value::Bool(number_is_match(pattern, *number, searches))),
        Value::Bool(truth) => Ok(Value::Bool(searches.finds(pattern, truth_text(*truth)))),
        Value::Nil => Ok(Value::Bool(false)),
        // OTTL makes a text of a float, of bytes, a list or a map (D-306).
        _ => Err(EvalError::NotAText),
    }
}
