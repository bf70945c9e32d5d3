//! Doubles: JSON numbers, or texts (protobuf's JSON mapping).
ghost use Rattle.std.specs.Prelude.{◌≡◌, Some, None, true, false, option_map};
ghost use Rattle.serde_json.specs.Find.{to_float};
ghost use Rattle.serde_json.specs.Read.{number_of, number_from, float_of};
ghost use Rattle.serde_json.specs.View.{view};
ghost use Rattle.otlp_reading.specs.Reading.{double_of_text, double_of, kept_double};

use crate::kinds::first_byte;
use fast_float::Numeral;
use otlp_types::{AnyValue, Double};
use serde_json::Value;
use std::num::{nearest_i64_to_f64, nearest_u64_to_f64};

/// The double that is nearest to a number, or that a text is.
pub fn double_of(value: &Value) -> Option<f64>
    ensures { result ≡ double_of (view value.now) }
{
    match value {
        Value::Number(n) => n.as_f64(),
        Value::String(text) => double_of_text(text.as_str()),
        _ => None,
    }
}

/// A double that is kept.
pub fn kept_double(x: f64) -> Option<AnyValue>
    ensures { result ≡ kept_double x }
{
    Some(AnyValue::Double(Double::new(x)))
}

/// The double that a text names or writes.
pub fn double_of_text(text: &str) -> Option<f64>
    ensures { result ≡ double_of_text text.now }
{
    match text {
        "NaN" => Some(f64::NAN),
        "Infinity" => Some(f64::INFINITY),
        "-Infinity" => Some(f64::NEG_INFINITY),
        _ => if json::is_number(text) {
            double_of_number(text)
        } else {
            None
        },
    }
}

/// The double that is nearest to the number that a JSON number writes. `None` where it is infinite.
pub fn double_of_number(text: &str) -> Option<f64>
    ensures { result ≡ option_map to_float (number_of text.now) }
{
    let bytes = text.as_bytes();
    if first_byte(text) == b'-' {
        number_double(true, &Numeral::scan(&bytes[1..]))
    } else {
        number_double(false, &Numeral::scan(bytes))
    }
}

/// The same of a numeral behind its sign.
fn number_double(negative: bool, numeral: &Numeral<'_>) -> Option<f64>
    ensures { result ≡ option_map to_float (number_from negative numeral.now) }
{
    if negative {
        negative_double(numeral)
    } else {
        natural_double(numeral)
    }
}

/// The same where there is no sign.
fn natural_double(numeral: &Numeral<'_>) -> Option<f64>
    ensures { result ≡ option_map to_float (number_from false numeral.now) }
{
    match numeral.to_u64() {
        Some(n) => Some(nearest_u64_to_f64(n)),
        None => nearest(false, numeral),
    }
}

/// The same behind a minus sign. Zero keeps it.
fn negative_double(numeral: &Numeral<'_>) -> Option<f64>
    ensures { result ≡ option_map to_float (number_from true numeral.now) }
{
    if let Some(n) = numeral.to_i64(true) {
        if n < 0 {
            return Some(nearest_i64_to_f64(n));
        }
    }
    nearest(true, numeral)
}

/// The float nearest to a numeral, unless that is infinite.
fn nearest(negative: bool, numeral: &Numeral<'_>) -> Option<f64>
    ensures { result ≡ option_map to_float (float_of negative numeral.now) }
{
    let x: f64 = numeral.to_float(negative);
    if x.is_finite() { Some(x) } else { None }
}
