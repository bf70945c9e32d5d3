//! Sums, differences, products and quotients of numbers, times and durations.
ghost use Rattle.std.specs.Prelude.{◌≡◌};
ghost use Rattle.ottl_condition.specs.Arithmetic as spec;
ghost use Rattle.ottl_condition.specs.Values.{value_of, answer_of};

use crate::eval_error::EvalError;
use crate::value::Value;
use ottl_text::Binary;
use std::num::nearest_i64_to_f64;

fn of_ints<'a, 'r>(binary: Binary, left: i64, right: i64) -> Result<Value<'a, 'r>, EvalError>
    ensures { answer_of result ≡ spec.of_ints binary left right }
{
    // They wrap, as in Go, and so does the quotient of -2^63 and -1 (D-307).
    match binary {
        Binary::Add => Ok(Value::Int(left.wrapping_add(right))),
        Binary::Subtract => Ok(Value::Int(left.wrapping_sub(right))),
        Binary::Multiply => Ok(Value::Int(left.wrapping_mul(right))),
        _ => {
            if right == 0 {
                Err(EvalError::DividedByZero)
            } else {
                Ok(Value::Int(left.wrapping_div(right)))
            }
        }
    }
}

fn of_floats<'a, 'r>(binary: Binary, left: f64, right: f64) -> Result<Value<'a, 'r>, EvalError>
    ensures { answer_of result ≡ spec.of_floats binary left right }
{
    match binary {
        Binary::Add => Ok(Value::Float(left + right)),
        Binary::Subtract => Ok(Value::Float(left - right)),
        Binary::Multiply => Ok(Value::Float(left * right)),
        _ => {
            // A quotient by 0 is an error of floats, too (D-307).
            if right == 0.0 {
                Err(EvalError::DividedByZero)
            } else {
                Ok(Value::Float(left / right))
            }
        }
    }
}

/// A difference of times is a duration, the nearest that there is.
fn of_times<'a, 'r>(binary: Binary, left: i64, right: i64) -> Result<Value<'a, 'r>, EvalError>
    ensures { answer_of result ≡ spec.of_times binary left right }
{
    match binary {
        Binary::Subtract => Ok(Value::Duration(left.saturating_sub(right))),
        _ => Err(EvalError::NotANumber),
    }
}

fn of_durations<'a, 'r>(binary: Binary, left: i64, right: i64) -> Result<Value<'a, 'r>, EvalError>
    ensures { answer_of result ≡ spec.of_durations binary left right }
{
    match binary {
        Binary::Add => Ok(Value::Duration(left.wrapping_add(right))),
        Binary::Subtract => Ok(Value::Duration(left.wrapping_sub(right))),
        _ => Err(EvalError::NotANumber),
    }
}

/// What an operator makes of two numbers, times or durations.
#[tactic(auto, unfolding(crate::specs::Arithmetic::calculated))]
pub(crate) fn calculated<'a, 'r>(
    binary: Binary,
    left: &Value<'_, '_>,
    right: &Value<'_, '_>,
) -> Result<Value<'a, 'r>, EvalError>
    ensures { answer_of result ≡ spec.calculated binary (value_of left.now) (value_of right.now) }
{
    match (left, right) {
        (Value::Int(left), Value::Int(right)) => of_ints(binary, *left, *right),
        (Value::Int(left), Value::Float(right)) => {
            of_floats(binary, nearest_i64_to_f64(*left), *right)
        }
        (Value::Float(left), Value::Int(right)) => {
            of_floats(binary, *left, nearest_i64_to_f64(*right))
        }
        (Value::Float(left), Value::Float(right)) => of_floats(binary, *left, *right),
        (Value::Time(left), Value::Time(right)) => of_times(binary, *left, *right),
        (Value::Duration(left), Value::Duration(right)) => of_durations(binary, *left, *right),
        _ => Err(EvalError::NotANumber),
    }
}
