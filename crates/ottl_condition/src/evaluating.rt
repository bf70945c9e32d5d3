//! What a condition says of a span or of an event.
ghost use Rattle.std.specs.Prelude.{◌≡◌, ◌+◌, ◌≤◌, true, length, IfSome};
ghost use Rattle.std.specs.Slice.Iter.{iter_mut_rest};
ghost use Rattle.expression.specs.Expressions.{are_known, is_known};
ghost use Rattle.ottl_text.specs.Syntax.{term_of, literal, path, binary};
ghost use Rattle.ottl_condition.specs.Comparing.{is_comparison};
ghost use Rattle.ottl_condition.specs.Subjects.{subject_of};
ghost use Rattle.ottl_condition.specs.Meaning as spec;
ghost use Rattle.ottl_condition.specs.Values.{value_of, answer_of};
ghost use Rattle.ottl_condition.specs.Workrooms.{Serves, IsAsBefore};

use crate::arithmetic::calculated;
use crate::comparing::compared;
use crate::conversions::part_of;
use crate::eval_error::EvalError;
use crate::functions::{begins, ends, made_of, searched};
use crate::literal_comparing::path_compared;
use crate::making::{cased, values_joined};
use crate::paths::{is_root, path_on};
use crate::subject::Subject;
use crate::value::Value;
use crate::workroom::Workroom;
use expression::Searches;
use ottl_made_texts::TextRoom;
use ottl_text::{Binary, Case, Expression, Literal, Path, Unary};
use std::slice::IterMut;

/// Whether a condition is true of a span or of an event, or its error. The workroom is one for it. It takes no memory that can be
/// refused.
#[tactic(auto, unfolding(crate::specs::Meaning::meaning))]
pub fn evaluate(
    condition: &Expression,
    subject: Subject<'_>,
    workroom: &mut Workroom,
) -> Result<bool, EvalError>
    requires { Serves workroom.old (term_of condition.now) }
    ensures meaning { result ≡ spec.meaning (term_of condition.now) (subject_of subject.entry) }
    ensures same { IsAsBefore workroom.old workroom.new }
{
    truth_on(&subject, condition, workroom)
}

/// Whether an expression is true; an error where it is neither true nor false. What a path is compared with, if it is a literal, is
/// compared in place, and no value is made of the connectives, since most conditions are made of these.
#[tactic(auto, using(crate::proofs::Connectives::by_or, crate::proofs::Connectives::by_and, crate::proofs::Connectives::by_not, crate::proofs::Comparisons::path_beside_literal))]
fn truth_on<'a>(
    subject: &Subject<'a>,
    expression: &'a Expression,
    workroom: &mut Workroom,
) -> Result<bool, EvalError>
    requires { Serves workroom.old (term_of expression.now) }
    ensures truth { result ≡ spec.truth_on (subject_of subject.now) (term_of expression.now) }
    ensures same { IsAsBefore workroom.old workroom.new }
{
    match expression {
        Expression::Binary(Binary::Or, left, right) => match truth_on(subject, left, workroom) {
            Ok(true) => Ok(true),
            Ok(false) => truth_on(subject, right, workroom),
            Err(error) => Err(error),
        },
        Expression::Binary(Binary::And, left, right) => match truth_on(subject, left, workroom) {
            Ok(true) => truth_on(subject, right, workroom),
            Ok(false) => Ok(false),
            Err(error) => Err(error),
        },
        Expression::Unary(Unary::Not, of) => match truth_on(subject, of, workroom) {
            Ok(truth) => Ok(!truth),
            Err(error) => Err(error),
        },
        Expression::IsRootSpan => Ok(is_root(subject.sent())),
        _ => match path_and_literal(expression) {
            Some((binary, path, literal)) => path_compared(binary, subject, path, literal),
            None => value_truth(subject, expression, workroom),
        },
    }
}

/// The same, of the value that the expression has. (It stands alone, since each call of a function pays for the values that it may
/// make.)
fn value_truth<'a>(
    subject: &Subject<'a>,
    expression: &'a Expression,
    workroom: &mut Workroom,
) -> Result<bool, EvalError>
    requires { Serves workroom.old (term_of expression.now) }
    ensures truth { result ≡ spec.truth_on (subject_of subject.now) (term_of expression.now) }
    ensures same { IsAsBefore workroom.old workroom.new }
{
    let rooms = workroom.rooms.as_mut_slice();
    truth_of_value(subject, expression, &mut workroom.searches, rooms)
}

/// The same with these searches, and with room for each text that is made.
fn truth_of_value<'a>(
    subject: &Subject<'a>,
    expression: &'a Expression,
    searches: &mut Searches,
    rooms: &mut [TextRoom],
) -> Result<bool, EvalError>
    requires known { are_known searches.old (spec.patterns_of (term_of expression.now)) ≡ true }
    requires room { spec.texts_made (term_of expression.now) ≤ length rooms.old }
    ensures truth { result ≡ spec.truth_on (subject_of subject.now) (term_of expression.now) }
    ensures same { searches.new ≡ searches.old }
{
    let mut left = rooms.iter_mut();
    match &value_on(subject, expression, searches, &mut left) {
        Ok(value) => value.truth(),
        Err(error) => Err(*error),
    }
}

/// The operator, the path and the literal of a comparison of a path with a literal.
fn path_and_literal(expression: &Expression) -> Option<(Binary, &Path, &Literal)>
    ensures compares { IfSome result (λ found. is_comparison found.0 ≡ true) }
    ensures parts { IfSome result (λ found. term_of expression.now ≡ binary found.0 (path found.1.now) (literal found.2.now)) }
{
    match expression {
        Expression::Binary(
            binary @ (Binary::Equal
            | Binary::NotEqual
            | Binary::Less
            | Binary::AtMost
            | Binary::Greater
            | Binary::AtLeast),
            left,
            right,
        ) => match (&**left, &**right) {
            (Expression::Path(path), Expression::Literal(literal)) => Some((
                *binary, path, literal,
            )),
            _ => None,
        },
        _ => None,
    }
}

/// The value of an expression.
#[cycle(value)]
fn value_on<'a, 'r>(
    subject: &Subject<'a>,
    expression: &'a Expression,
    searches: &mut Searches,
    rooms: &mut IterMut<'r, TextRoom>,
) -> Result<Value<'a, 'r>, EvalError>
    requires known { are_known searches.old (spec.patterns_of (term_of expression.now)) ≡ true }
    requires room { spec.texts_made (term_of expression.now) ≤ length (iter_mut_rest rooms.old) }
    ensures value { answer_of result ≡ spec.value_on (subject_of subject.now) (term_of expression.now) }
    ensures same { searches.new ≡ searches.old }
    ensures rest { length (iter_mut_rest rooms.old) ≤ length (iter_mut_rest rooms.new) + spec.texts_made (term_of expression.now) }
{
    match expression {
        Expression::Literal(literal) => Ok(Value::of_literal(literal)),
        Expression::Path(path) => path_on(subject, path),
        Expression::IsRootSpan => Ok(Value::Bool(is_root(subject.sent()))),
        Expression::Unary(unary, of) => made_on(subject, *unary, of, searches, rooms),
        Expression::Binary(binary, left, right) => match &value_on(subject, left, searches, rooms) {
            Ok(first) => beside(subject, *binary, first, right, searches, rooms),
            Err(of_first) => Err(*of_first),
        },
        Expression::IsMatch(of, pattern) => searched_on(
            subject,
            of,
            pattern.as_str(),
            searches,
            rooms,
        ),
        Expression::Cased(case, of) => cased_on(subject, *case, of, searches, rooms),
        Expression::Concat(first, delimiter, others) => {
            match &value_on(subject, first, searches, rooms) {
                Ok(first) => {
                    joined_on(subject, first, delimiter.as_str(), others, searches, rooms)
                }
                Err(error) => Err(*error),
            }
        }
        Expression::Substring(of, start, size) => match &value_on(subject, of, searches, rooms) {
            Ok(text) => match &value_on(subject, start, searches, rooms) {
                Ok(start) => match &value_on(subject, size, searches, rooms) {
                    Ok(size) => part_of(text, start, size),
                    Err(error) => Err(*error),
                },
                Err(error) => Err(*error),
            },
            Err(error) => Err(*error),
        },
    }
}

/// What a function of one value makes of that of an expression.
#[cycle(value)]
fn made_on<'a, 'r>(
    subject: &Subject<'a>,
    unary: Unary,
    of: &'a Expression,
    searches: &mut Searches,
    rooms: &mut IterMut<'r, TextRoom>,
) -> Result<Value<'a, 'r>, EvalError>
    requires known { are_known searches.old (spec.patterns_of (term_of of.now)) ≡ true }
    requires room { spec.texts_made (term_of of.now) ≤ length (iter_mut_rest rooms.old) }
    ensures value { answer_of result ≡ spec.made_on unary (spec.value_on (subject_of subject.now) (term_of of.now)) }
    ensures same { searches.new ≡ searches.old }
    ensures rest { length (iter_mut_rest rooms.old) ≤ length (iter_mut_rest rooms.new) + spec.texts_made (term_of of.now) }
{
    match &value_on(subject, of, searches, rooms) {
        Ok(value) => made_of(unary, value),
        Err(error) => Err(*error),
    }
}

/// Whether a regular expression has a match in the value of an expression.
#[cycle(value)]
fn searched_on<'a, 'r>(
    subject: &Subject<'a>,
    of: &'a Expression,
    pattern: &str,
    searches: &mut Searches,
    rooms: &mut IterMut<'r, TextRoom>,
) -> Result<Value<'a, 'r>, EvalError>
    requires known { are_known searches.old (spec.patterns_of (term_of of.now)) ≡ true }
    requires room { spec.texts_made (term_of of.now) ≤ length (iter_mut_rest rooms.old) }
    requires pattern { is_known searches.old pattern.now ≡ true }
    ensures value { answer_of result ≡ spec.searched_on pattern.now (spec.value_on (subject_of subject.now) (term_of of.now)) }
    ensures same { searches.new ≡ searches.old }
    ensures rest { length (iter_mut_rest rooms.old) ≤ length (iter_mut_rest rooms.new) + spec.texts_made (term_of of.now) }
{
    match &value_on(subject, of, searches, rooms) {
        Ok(value) => searched(pattern, value, searches),
        Err(error) => Err(*error),
    }
}

/// What `ConvertCase` makes of the value of an expression.
#[cycle(value)]
fn cased_on<'a, 'r>(
    subject: &Subject<'a>,
    case: Case,
    of: &'a Expression,
    searches: &mut Searches,
    rooms: &mut IterMut<'r, TextRoom>,
) -> Result<Value<'a, 'r>, EvalError>
    requires known { are_known searches.old (spec.patterns_of (term_of of.now)) ≡ true }
    requires room { spec.texts_made (term_of of.now) + 1 ≤ length (iter_mut_rest rooms.old) }
    ensures value { answer_of result ≡ spec.cased_on case (spec.value_on (subject_of subject.now) (term_of of.now)) }
    ensures same { searches.new ≡ searches.old }
    ensures rest { length (iter_mut_rest rooms.old) ≤ length (iter_mut_rest rooms.new) + (spec.texts_made (term_of of.now) + 1) }
{
    match &value_on(subject, of, searches, rooms) {
        Ok(value) => cased(case, value, rooms),
        Err(error) => Err(*error),
    }
}

/// What `Concat` makes of a text and of those behind it.
#[cycle(value)]
fn joined_on<'a, 'r>(
    subject: &Subject<'a>,
    first: &Value<'a, 'r>,
    delimiter: &str,
    others: &'a Expression,
    searches: &mut Searches,
    rooms: &mut IterMut<'r, TextRoom>,
) -> Result<Value<'a, 'r>, EvalError>
    requires known { are_known searches.old (spec.patterns_of (term_of others.now)) ≡ true }
    requires room { spec.texts_made (term_of others.now) + 1 ≤ length (iter_mut_rest rooms.old) }
    ensures value { answer_of result ≡ spec.joined_on delimiter.now (value_of first.now) (spec.value_on (subject_of subject.now) (term_of others.now)) }
    ensures same { searches.new ≡ searches.old }
    ensures rest { length (iter_mut_rest rooms.old) ≤ length (iter_mut_rest rooms.new) + (spec.texts_made (term_of others.now) + 1) }
{
    match &value_on(subject, others, searches, rooms) {
        Ok(others) => values_joined(first, delimiter, others, rooms),
        Err(error) => Err(*error),
    }
}

/// What an operator makes of a value and of the expression behind it, which `or` and `and` may not ask.
#[cycle(value)]
fn beside<'a, 'r>(
    subject: &Subject<'a>,
    binary: Binary,
    first: &Value<'a, 'r>,
    right: &'a Expression,
    searches: &mut Searches,
    rooms: &mut IterMut<'r, TextRoom>,
) -> Result<Value<'a, 'r>, EvalError>
    requires known { are_known searches.old (spec.patterns_of (term_of right.now)) ≡ true }
    requires room { spec.texts_made (term_of right.now) ≤ length (iter_mut_rest rooms.old) }
    ensures value { answer_of result ≡ spec.beside binary (value_of first.now) (spec.value_on (subject_of subject.now) (term_of right.now)) }
    ensures same { searches.new ≡ searches.old }
    ensures rest { length (iter_mut_rest rooms.old) ≤ length (iter_mut_rest rooms.new) + spec.texts_made (term_of right.now) }
{
    match binary {
        Binary::Or => match first.truth() {
            Ok(true) => Ok(Value::Bool(true)),
            Ok(false) => condition_on(subject, right, searches, rooms),
            Err(error) => Err(error),
        },
        Binary::And => match first.truth() {
            Ok(true) => condition_on(subject, right, searches, rooms),
            Ok(false) => Ok(Value::Bool(false)),
            Err(error) => Err(error),
        },
        _ => match &value_on(subject, right, searches, rooms) {
            Ok(second) => combined(binary, first, second),
            Err(error) => Err(*error),
        },
    }
}

/// The value of a condition, which is true or false, or an error.
#[cycle(value)]
fn condition_on<'a, 'r>(
    subject: &Subject<'a>,
    condition: &'a Expression,
    searches: &mut Searches,
    rooms: &mut IterMut<'r, TextRoom>,
) -> Result<Value<'a, 'r>, EvalError>
    requires known { are_known searches.old (spec.patterns_of (term_of condition.now)) ≡ true }
    requires room { spec.texts_made (term_of condition.now) ≤ length (iter_mut_rest rooms.old) }
    ensures value { answer_of result ≡ spec.condition_on (subject_of subject.now) (term_of condition.now) }
    ensures same { searches.new ≡ searches.old }
    ensures rest { length (iter_mut_rest rooms.old) ≤ length (iter_mut_rest rooms.new) + spec.texts_made (term_of condition.now) }
{
    match &value_on(subject, condition, searches, rooms) {
        Ok(value) => match value.truth() {
            Ok(truth) => Ok(Value::Bool(truth)),
            Err(error) => Err(error),
        },
        Err(error) => Err(*error),
    }
}

/// What an operator or a function makes of two values.
#[tactic(auto, unfolding(crate::specs::Meaning::combined))]
fn combined<'a, 'r>(
    binary: Binary,
    left: &Value<'_, '_>,
    right: &Value<'_, '_>,
) -> Result<Value<'a, 'r>, EvalError>
    ensures { answer_of result ≡ spec.combined binary (value_of left.now) (value_of right.now) }
{
    match binary {
        Binary::Add | Binary::Subtract | Binary::Multiply | Binary::Divide => {
            calculated(binary, left, right)
        }
        Binary::HasPrefix => begins(left, right),
        Binary::HasSuffix => ends(left, right),
        _ => Ok(Value::Bool(compared(binary, left, right))),
    }
}
