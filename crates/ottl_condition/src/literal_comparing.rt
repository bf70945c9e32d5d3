//! Comparisons of a path with a literal: most of what conditions ask. They make no value of what they compare, where it is an
//! attribute of the literal's type.
ghost use Rattle.std.specs.Prelude.{◌≡◌, Some, Ok};
ghost use Rattle.std.specs.Ordering.{nat_cmp};
ghost use Rattle.std.specs.Cmp.Lexicographic.{slice_cmp};
ghost use Rattle.ottl_condition.specs.Comparing as spec;
ghost use Rattle.ottl_condition.specs.Paths as paths;
ghost use Rattle.ottl_condition.specs.Subjects.{subject_of};
ghost use Rattle.ottl_condition.specs.Values.{literal_value};

use crate::comparing::{compared, holds};
use crate::eval_error::EvalError;
use crate::paths::{attributes_at, path_on};
use crate::subject::Subject;
use crate::value::Value;
use otlp_types::{AnyValue, KeyValue};
use ottl_equality::pair_of;
use ottl_text::{Binary, Key, Literal, Path};
use std::cmp::Ordering;

/// Whether a comparison holds of two texts.
#[tactic(auto, using(crate::proofs::Comparisons::equal_texts))]
fn texts_compared(binary: Binary, left: &str, right: &str) -> bool
    ensures { result ≡ spec.holds binary (Some (slice_cmp nat_cmp left.now right.now)) }
{
    match binary {
        Binary::Equal => left == right,
        Binary::NotEqual => left != right,
        _ => holds(binary, Some(left.cmp(right))),
    }
}

/// Whether a comparison holds of an attribute and a literal.
#[tactic(auto, unfolding(crate::specs::Comparing::compared))]
fn attribute_compared(binary: Binary, attribute: &KeyValue, literal: &Literal) -> bool
    ensures { result ≡ spec.compared binary (paths.value_in attribute.now) (literal_value literal.now) }
{
    match (&attribute.value, literal) {
        (AnyValue::Int(left), Literal::Int(right)) => holds(binary, Some(left.cmp(right))),
        (AnyValue::Str(left), Literal::Text(right)) => {
            texts_compared(binary, left.as_str(), right.as_str())
        }
        _ => other_compared(binary, attribute, literal),
    }
}

/// The same of any types. (It stands alone, since each call of a function pays for all values that the function may make.)
fn other_compared(binary: Binary, attribute: &KeyValue, literal: &Literal) -> bool
    ensures { result ≡ spec.compared binary (paths.value_in attribute.now) (literal_value literal.now) }
{
    let value = Value::of_attribute(&attribute.value);
    let literal = Value::of_literal(literal);
    compared(binary, &value, &literal)
}

/// Whether a comparison holds of what a key finds among pairs, which may be nothing, and a literal.
#[tactic(auto, unfolding(crate::specs::Comparing::compared))]
fn found_compared(binary: Binary, key: &str, pairs: &[KeyValue], literal: &Literal) -> bool
    ensures { result ≡ spec.compared binary (paths.or_nil (paths.look_up key.now pairs.now)) (literal_value literal.now) }
{
    match (pair_of(key, pairs), literal) {
        (Some(attribute), _) => attribute_compared(binary, attribute, literal),
        (None, Literal::Nil) => holds(binary, Some(Ordering::Equal)),
        (None, _) => holds(binary, None),
    }
}

/// Whether a comparison holds of what a path finds and a literal, both made values.
fn values_compared(
    binary: Binary,
    subject: &Subject<'_>,
    path: &Path,
    literal: &Literal,
) -> Result<bool, EvalError>
    ensures { result ≡ spec.comparison binary (paths.walk (paths.begun path.now.root (subject_of subject.now)) path.now.keys) (Ok (literal_value literal.now)) }
{
    match &path_on(subject, path) {
        Ok(found) => Ok(compared(binary, found, &Value::of_literal(literal))),
        Err(error) => Err(*error),
    }
}

/// Whether a comparison holds of what a path finds and a literal.
#[tactic(auto, using(crate::proofs::Comparisons::key_compared))]
pub(crate) fn path_compared(
    binary: Binary,
    subject: &Subject<'_>,
    path: &Path,
    literal: &Literal,
) -> Result<bool, EvalError>
    ensures { result ≡ spec.comparison binary (paths.walk (paths.begun path.now.root (subject_of subject.now)) path.now.keys) (Ok (literal_value literal.now)) }
{
    match (path.keys.as_slice(), attributes_at(path.root, subject)) {
        ([Key::Text(key)], Some(pairs)) => Ok(found_compared(binary, key.as_str(), pairs, literal)),
        _ => values_compared(binary, subject, path, literal),
    }
}
