//! Values of expressions.
ghost use Rattle.std.specs.Prelude.{◌≡◌};
ghost use Rattle.std.specs.Option.{option_copied, option_map};
ghost use Rattle.ottl_equality.specs.Encoded.{bytes_of};
ghost use Rattle.ottl_condition.specs.Values as spec;

use crate::eval_error::EvalError;
use arrayvec::ArrayString;
use otlp_types::{AnyValue, KeyValue};
use ottl_equality::{Bytes, Part};
use ottl_text::Literal;

/// The value of an expression, which it borrows from the expression or the span, or from the room for texts.
#[derive(Drop)]
pub enum Value<'a, 'r> {
    Nil,
    Bool(bool),
    Int(i64),
    Float(f64),
    Text(&'a str),
    /// A text that was made in room for it.
    Made(&'r str),
    /// The hex digits of an id.
    Digits(ArrayString<32>),
    Bytes(&'a [u8]),
    /// The bytes of an attribute, by the base64 text that came.
    Encoded(&'a str),
    Map(&'a [KeyValue]),
    List(&'a [AnyValue]),
    /// A point in time, in nanoseconds since 1970.
    Time(i64),
    /// A length of time, in nanoseconds.
    Duration(i64),
}

impl<'a, 'r> Value<'a, 'r> {
    /// The value of an attribute.
    pub(crate) fn of_attribute(value: &'a AnyValue) -> Value<'a, 'r>
        ensures { spec.value_of result ≡ spec.any_value value.now }
    {
        match value {
            AnyValue::Empty => Value::Nil,
            AnyValue::Str(text) => Value::Text(text.as_str()),
            AnyValue::Bool(truth) => Value::Bool(*truth),
            AnyValue::Int(number) => Value::Int(*number),
            AnyValue::Double(number) => Value::Float(number.get()),
            AnyValue::Array(values) => Value::List(values.as_slice()),
            AnyValue::KvList(pairs) => Value::Map(pairs.as_slice()),
            AnyValue::Bytes(text) => Value::Encoded(text.as_str()),
        }
    }

    /// The value of a literal.
    pub(crate) fn of_literal(literal: &'a Literal) -> Value<'a, 'r>
        ensures { spec.value_of result ≡ spec.literal_value literal.now }
    {
        match literal {
            Literal::Nil => Value::Nil,
            Literal::Bool(truth) => Value::Bool(*truth),
            Literal::Int(number) => Value::Int(*number),
            Literal::Float(number) => Value::Float(*number),
            Literal::Text(text) => Value::Text(text.as_str()),
            Literal::Bytes(bytes) => Value::Bytes(bytes.as_slice()),
        }
    }
}

impl<'a, 'r> Value<'a, 'r> {
    /// The same value once more.
    pub(crate) fn again(&self) -> Value<'a, 'r>
        ensures { spec.value_of result ≡ spec.value_of self.now }
    {
        match self {
            Value::Nil => Value::Nil,
            Value::Bool(truth) => Value::Bool(*truth),
            Value::Int(number) => Value::Int(*number),
            Value::Float(number) => Value::Float(*number),
            Value::Text(text) => Value::Text(text),
            Value::Made(text) => Value::Made(text),
            Value::Digits(digits) => Value::Digits(*digits),
            Value::Bytes(bytes) => Value::Bytes(bytes),
            Value::Encoded(text) => Value::Encoded(text),
            Value::Map(pairs) => Value::Map(pairs),
            Value::List(values) => Value::List(values),
            Value::Time(nanoseconds) => Value::Time(*nanoseconds),
            Value::Duration(nanoseconds) => Value::Duration(*nanoseconds),
        }
    }
}

impl Value<'_, '_> {
    /// Whether it is true; an error where it is neither true nor false.
    pub(crate) fn truth(&self) -> Result<bool, EvalError>
        ensures { result ≡ spec.as_truth (spec.value_of self.now) }
    {
        match self {
            Value::Bool(truth) => Ok(*truth),
            _ => Err(EvalError::NotABool),
        }
    }

    /// The text that it is, if it is one.
    pub(crate) fn text(&self) -> Option<&str>
        ensures { option_copied result ≡ spec.text_in (spec.value_of self.now) }
    {
        match self {
            Value::Text(text) => Some(text),
            Value::Made(text) => Some(text),
            Value::Digits(digits) => Some(digits.as_str()),
            _ => None,
        }
    }

    /// The bytes that it is, if it is bytes.
    pub(crate) fn bytes(&self) -> Option<Bytes<'_>>
        ensures { option_map bytes_of result ≡ spec.bytes_in (spec.value_of self.now) }
    {
        match self {
            Value::Bytes(bytes) => Some(Bytes::Plain(bytes)),
            Value::Encoded(text) => Some(Bytes::Encoded(Part::First, text.as_bytes())),
            _ => None,
        }
    }
}
