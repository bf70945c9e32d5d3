//! Functions that convert, and parts of texts.
ghost use Rattle.std.specs.Prelude.{◌≡◌, ◌≤◌, length, IfSome};
ghost use Rattle.std.specs.Option.{option_map};
ghost use Rattle.ottl_condition.specs.Conversions as spec;
ghost use Rattle.ottl_condition.specs.Values.{value_of, answer_of};
ghost use Rattle.ottl_condition.specs.Values as values;
ghost use Rattle.ottl_text.specs.Literals as digits;
ghost use Rattle.std.specs.Fmt.{signed_decimal};

use crate::eval_error::EvalError;
use crate::paths::short_text;
use crate::value::Value;
use arrayvec::ArrayString;
use itoa::Buffer;
use ottl_duration::duration_of;
use ottl_text::{float_of, int_of};
use std::num::{nearest_i64_to_f64, saturating_f64_to_i64};

/// A truth value as a text.
pub(crate) fn truth_text(truth: bool) -> &'static str
    ensures { result.now ≡ values.truth_text truth }
{
    if truth { "true" } else { "false" }
}

/// 1 for true, 0 for false.
fn number_of(truth: bool) -> i64
    ensures { result ≡ spec.number_of truth }
{
    if truth { 1 } else { 0 }
}

/// `Int`: a float without its fraction, or the nearest whole number of 64 bits; the whole number that a text writes.
#[tactic(auto, unfolding(crate::specs::Conversions::as_int))]
pub(crate) fn as_int<'a, 'r>(value: &Value<'_, '_>) -> Value<'a, 'r>
    ensures { value_of result ≡ spec.as_int (value_of value.now) }
{
    match value {
        Value::Int(number) => Value::Int(*number),
        // The nearest number where it doesn't fit, and 0 of a NaN, where Go's answer depends on the machine (D-337).
        Value::Float(number) => Value::Int(saturating_f64_to_i64(*number)),
        Value::Bool(truth) => Value::Int(number_of(*truth)),
        Value::Text(text) => int_or_nil(text.as_bytes()),
        Value::Made(text) => int_or_nil(text.as_bytes()),
        Value::Digits(digits) => int_or_nil(digits.as_str().as_bytes()),
        _ => Value::Nil,
    }
}

fn int_or_nil<'a, 'r>(text: &[u8]) -> Value<'a, 'r>
    ensures { value_of result ≡ spec.int_or_nil (digits.int_of text.now) }
{
    match int_of(text) {
        Ok(number) => Value::Int(number),
        Err(_) => Value::Nil,
    }
}

/// `Double`: the nearest float to a whole number, or to what a text writes.
#[tactic(auto, unfolding(crate::specs::Conversions::as_float))]
pub(crate) fn as_float<'a, 'r>(value: &Value<'_, '_>) -> Value<'a, 'r>
    ensures { value_of result ≡ spec.as_float (value_of value.now) }
{
    match value {
        Value::Float(number) => Value::Float(*number),
        Value::Int(number) => Value::Float(nearest_i64_to_f64(*number)),
        Value::Bool(truth) => Value::Float(nearest_i64_to_f64(number_of(*truth))),
        Value::Text(text) => float_or_nil(text.as_bytes()),
        Value::Made(text) => float_or_nil(text.as_bytes()),
        Value::Digits(digits) => float_or_nil(digits.as_str().as_bytes()),
        _ => Value::Nil,
    }
}

fn float_or_nil<'a, 'r>(text: &[u8]) -> Value<'a, 'r>
    ensures { value_of result ≡ spec.float_or_nil (digits.float_of text.now) }
{
    match float_of(text) {
        Ok(number) => Value::Float(number),
        Err(_) => Value::Nil,
    }
}

/// The digits of a whole number.
fn decimal(number: i64) -> ArrayString<32>
    ensures { result.bytes ≡ signed_decimal number }
{
    let mut buffer = Buffer::new();
    short_text(buffer.format(number))
}

/// `String` of a text, a whole number or a truth value; `nil` stays `nil`.
#[tactic(auto, unfolding(crate::specs::Conversions::as_text))]
pub(crate) fn as_text<'a, 'r>(value: &Value<'a, 'r>) -> Result<Value<'a, 'r>, EvalError>
    ensures { answer_of result ≡ spec.as_text (value_of value.now) }
{
    match value {
        Value::Nil => Ok(Value::Nil),
        Value::Text(text) => Ok(Value::Text(text)),
        Value::Made(text) => Ok(Value::Made(text)),
        Value::Digits(digits) => Ok(Value::Digits(*digits)),
        Value::Int(number) => Ok(Value::Digits(decimal(*number))),
        Value::Bool(truth) => Ok(Value::Text(truth_text(*truth))),
        // The Collector makes a text of these, too (D-338).
        _ => Err(EvalError::NoText),
    }
}

/// The text that a value has in `Concat`: `<nil>` of `nil`.
#[tactic(auto, unfolding(crate::specs::Conversions::as_like))]
pub(crate) fn as_like<'a, 'r>(value: &Value<'a, 'r>) -> Result<Value<'a, 'r>, EvalError>
    ensures { answer_of result ≡ spec.as_like (value_of value.now) }
{
    match value {
        Value::Nil => Ok(Value::Text("<nil>")),
        _ => as_text(value),
    }
}

/// `Duration` of a text.
#[tactic(auto, unfolding(crate::specs::Conversions::as_duration))]
pub(crate) fn as_duration<'a, 'r>(value: &Value<'_, '_>) -> Result<Value<'a, 'r>, EvalError>
    ensures { answer_of result ≡ spec.as_duration (value_of value.now) }
{
    match value.text() {
        Some(text) => match duration_of(text.as_bytes()) {
            Some(nanoseconds) => Ok(Value::Duration(nanoseconds)),
            None => Err(EvalError::NotADuration),
        },
        None => Err(EvalError::NotAText),
    }
}

/// The `size` bytes of a text from a place on, where it has them, and they are whole characters.
fn piece(text: &[u8], start: usize, size: usize) -> Option<&str>
    ensures piece { option_map (λ found. found.now) result ≡ spec.piece text.now start size }
    ensures within { IfSome result (λ found. length found.now ≤ length text.now) }
{
    // In bytes, as in Go; a part of no byte is an error (D-339).
    if size == 0 || text.len() < size || text.len() - size < start {
        return None;
    }
    whole(&text[start..start + size])
}

/// Bytes that are whole characters.
fn whole(bytes: &[u8]) -> Option<&str>
    ensures whole { option_map (λ found. found.now) result ≡ spec.whole bytes.now }
    ensures within { IfSome result (λ found. length found.now ≤ length bytes.now) }
{
    match str::from_utf8(bytes) {
        Ok(found) => Some(found),
        Err(_) => None,
    }
}

/// The same with a place or a size that may be below 0.
#[tactic(auto, unfolding(crate::specs::Conversions::piece_of))]
fn piece_of(text: &[u8], start: i64, size: i64) -> Option<&str>
    ensures piece { option_map (λ found. found.now) result ≡ spec.piece_of text.now start size }
    ensures within { IfSome result (λ found. length found.now ≤ length text.now) }
{
    if start < 0 || size < 0 {
        None
    } else {
        piece(text, start as usize, size as usize)
    }
}

/// `Substring`: the `size` bytes of a text from a place on.
#[tactic(auto, unfolding(crate::specs::Conversions::part_of))]
pub(crate) fn part_of<'a, 'r>(
    of: &Value<'a, 'r>,
    start: &Value<'_, '_>,
    size: &Value<'_, '_>,
) -> Result<Value<'a, 'r>, EvalError>
    ensures { answer_of result ≡ spec.part_of (value_of of.now) (value_of start.now) (value_of size.now) }
{
    match (of, start, size) {
        (Value::Text(text), Value::Int(start), Value::Int(size)) => {
            match piece_of(text.as_bytes(), *start, *size) {
                Some(part) => Ok(Value::Text(part)),
                None => Err(EvalError::OutOfText),
            }
        }
        (Value::Made(text), Value::Int(start), Value::Int(size)) => {
            match piece_of(text.as_bytes(), *start, *size) {
                Some(part) => Ok(Value::Made(part)),
                None => Err(EvalError::OutOfText),
            }
        }
        (Value::Digits(digits), Value::Int(start), Value::Int(size)) => {
            match piece_of(digits.as_str().as_bytes(), *start, *size) {
                Some(part) => Ok(Value::Digits(short_text(part))),
                None => Err(EvalError::OutOfText),
            }
        }
        (Value::Text(_) | Value::Made(_) | Value::Digits(_), _, _) => Err(EvalError::NotANumber),
        _ => Err(EvalError::NotAText),
    }
}
