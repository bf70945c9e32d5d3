//! Texts that are made.
ghost use Rattle.std.specs.Prelude.{◌≡◌, ◌+◌, ◌<◌, ◌≤◌, length};
ghost use Rattle.std.specs.Slice.Iter.{iter_mut_rest};
ghost use Rattle.ottl_condition.specs.Made as spec;
ghost use Rattle.ottl_condition.specs.Values.{value_of, answer_of};

use crate::eval_error::EvalError;
use crate::value::Value;
use ottl_made_texts::{TextRoom, in_case, joined};
use ottl_text::Case;
use std::slice::IterMut;

/// A text in a case, for which room is left.
#[tactic(auto, unfolding(crate::specs::Made::cased))]
pub(crate) fn cased<'a, 'r>(
    case: Case,
    value: &Value<'_, '_>,
    rooms: &mut IterMut<'r, TextRoom>,
) -> Result<Value<'a, 'r>, EvalError>
    requires { 0 < length (iter_mut_rest rooms.old) }
    ensures made { answer_of result ≡ spec.cased case (value_of value.now) }
    ensures rest { length (iter_mut_rest rooms.old) ≤ length (iter_mut_rest rooms.new) + 1 }
{
    match value.text() {
        Some(text) => match in_case(case, text, rooms) {
            Some(made) => Ok(Value::Made(made)),
            None => Err(EvalError::TextTooLong),
        },
        None => Err(EvalError::NotAText),
    }
}

/// Two texts with a delimiter between them, for which room is left.
#[tactic(auto, unfolding(crate::specs::Made::joined))]
pub(crate) fn values_joined<'a, 'r>(
    first: &Value<'_, '_>,
    delimiter: &str,
    others: &Value<'_, '_>,
    rooms: &mut IterMut<'r, TextRoom>,
) -> Result<Value<'a, 'r>, EvalError>
    requires { 0 < length (iter_mut_rest rooms.old) }
    ensures made { answer_of result ≡ spec.joined delimiter.now (value_of first.now) (value_of others.now) }
    ensures rest { length (iter_mut_rest rooms.old) ≤ length (iter_mut_rest rooms.new) + 1 }
{
    match (first.text(), others.text()) {
        (Some(first), Some(others)) => match joined(first, delimiter, others, rooms) {
            Some(made) => Ok(Value::Made(made)),
            None => Err(EvalError::TextTooLong),
        },
        _ => Err(EvalError::NotAText),
    }
}
