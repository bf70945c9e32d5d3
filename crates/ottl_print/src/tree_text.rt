//! The text of a tree, put behind another.
ghost use Rattle.std.specs.Prelude.{◌≡◌, [], ◌∷◌, ◌++◌, IfOk, OnOk, nat_lt, string_bytes};
ghost use Rattle.ottl_text.specs.Syntax.{term_of};
ghost use Rattle.ottl_print.specs.Names as named;
ghost use Rattle.ottl_print.specs.Printing as spec;
ghost use Rattle.ottl_print.specs.Sizes.{Fits};
ghost use Rattle.ottl_print.specs.Texts.{in_quotes};

use crate::names::{binary_name, case_name, is_operator, precedence, unary_name};
use crate::sizes::{ARGUMENT, MOST_LEVELS, has_parentheses, levels_at, size_of, tightness};
use crate::texts::{put_literal, put_path, put_quoted};
use ottl_text::{Binary, Context, Expression, Unary};
use std::alloc::{AllocError, Global};

/// How a tree is written.
#[derive(Clone, Copy)]
struct Manner {
    context: Context,
    /// Parentheses are put where they save levels, too.
    sparing: bool,
}

/// The text of a condition's tree, in the names of the context. `Err` only where memory was refused.
#[tactic(auto, unfolding(crate::specs::Printing::printed))]
pub fn print(alloc: Global, context: Context, condition: &Expression) -> Result<String, AllocError>
    ensures { IfOk result (λ text. string_bytes text ≡ spec.printed context (term_of condition.now)) }
{
    let sparing = is_sparing(condition);
    let mut text = String::new(alloc);
    put(alloc, &mut text, Manner { context, sparing }, condition)?;
    Ok(text)
}

/// Whether only parentheses that precedence doesn't need let the text be read.
fn is_sparing(condition: &Expression) -> bool
    ensures same { result ≡ spec.is_sparing (term_of condition.now) }
    ensures fits { Fits result (term_of condition.now) }
{
    if size_of(false, condition).levels <= MOST_LEVELS {
        return false;
    }
    size_of(true, condition).levels <= MOST_LEVELS
}

/// A tree.
#[cycle(put)]
#[tactic(auto, using(crate::proofs::Counted::within_unary, crate::proofs::Counted::within_left, crate::proofs::Counted::within_right, crate::proofs::Counted::within_match, crate::proofs::Counted::within_cased, crate::proofs::Counted::within_first, crate::proofs::Counted::within_second, crate::proofs::Counted::within_third, crate::proofs::Counted::within_value, crate::proofs::Counted::within_others))]
fn put(
    alloc: Global,
    text: &mut String,
    manner: Manner,
    expression: &Expression,
) -> Result<(), AllocError>
    requires { Fits manner.sparing (term_of expression.now) }
    ensures { OnOk result (string_bytes text.new ≡ string_bytes text.old ++ spec.text manner.sparing manner.context (term_of expression.now)) }
{
    match expression {
        Expression::Literal(literal) => put_literal(alloc, text, literal),
        Expression::Path(path) => put_path(text, manner.context, path),
        Expression::IsRootSpan => put_str(text, "IsRootSpan()"),
        Expression::Unary(unary, of) => put_one(alloc, text, manner, *unary, of),
        Expression::Binary(binary, left, right) => {
            let (left, right) = (&**left, &**right);
            if is_operator(*binary) {
                let least = least_on_the_left(manner.sparing, *binary, left, right);
                put_operand(alloc, text, manner, least, left)?;
                put_operator(text, *binary)?;
                put_operand(alloc, text, manner, precedence(*binary) + 1, right)
            } else {
                put_str(text, binary_name(*binary))?;
                put_first(alloc, text, manner, left)?;
                put_next(alloc, text, manner, right)?;
                put_str(text, ")")
            }
        }
        Expression::IsMatch(of, pattern) => {
            put_call(alloc, text, manner, "IsMatch", of, pattern.as_str())
        }
        Expression::Cased(case, of) => {
            put_call(alloc, text, manner, "ConvertCase", of, case_name(*case))
        }
        Expression::Substring(of, start, count) => {
            put_str(text, "Substring")?;
            put_first(alloc, text, manner, of)?;
            put_next(alloc, text, manner, start)?;
            put_next(alloc, text, manner, count)?;
            put_str(text, ")")
        }
        Expression::Concat(first, delimiter, others) => {
            put_str(text, "Concat([")?;
            put_values(alloc, text, manner, first)?;
            put_str(text, ", ")?;
            put_values(alloc, text, manner, others)?;
            put_str(text, "]")?;
            put_last(text, delimiter.as_str())
        }
    }
}

/// `not` or a function of one value.
#[cycle(put)]
fn put_one(
    alloc: Global,
    text: &mut String,
    manner: Manner,
    unary: Unary,
    of: &Expression,
) -> Result<(), AllocError>
    requires { Fits manner.sparing (term_of of.now) }
    ensures { OnOk result (string_bytes text.new ≡ string_bytes text.old ++ spec.one_text unary (term_of of.now) (spec.text manner.sparing manner.context (term_of of.now))) }
{
    match unary {
        Unary::Not => {
            put_str(text, "not ")?;
            put_operand(alloc, text, manner, 3, of)
        }
        Unary::Like => {
            put_str(text, "Concat([")?;
            put_operand(alloc, text, manner, ARGUMENT, of)?;
            put_str(text, "]")?;
            put_last(text, "")
        }
        _ => {
            put_str(text, unary_name(unary))?;
            put_first(alloc, text, manner, of)?;
            put_str(text, ")")
        }
    }
}

/// A function of a value and a text.
#[cycle(put)]
fn put_call(
    alloc: Global,
    text: &mut String,
    manner: Manner,
    name: &str,
    of: &Expression,
    last: &str,
) -> Result<(), AllocError>
    requires { Fits manner.sparing (term_of of.now) }
    ensures { OnOk result (string_bytes text.new ≡ string_bytes text.old ++ (name.now ++ spec.first_of (spec.operand_text spec.argument (term_of of.now) (spec.text manner.sparing manner.context (term_of of.now))) (spec.next_of (in_quotes last.now) spec.closing))) }
{
    put_str(text, name)?;
    put_first(alloc, text, manner, of)?;
    put_last(text, last)
}

/// A tree, in parentheses or not.
#[cycle(put)]
fn put_inside(
    alloc: Global,
    text: &mut String,
    manner: Manner,
    parentheses: bool,
    expression: &Expression,
) -> Result<(), AllocError>
    requires { Fits manner.sparing (term_of expression.now) }
    ensures { OnOk result (string_bytes text.new ≡ string_bytes text.old ++ spec.in_parentheses parentheses (spec.text manner.sparing manner.context (term_of expression.now))) }
{
    if !parentheses {
        return put(alloc, text, manner, expression);
    }
    put_str(text, "(")?;
    put(alloc, text, manner, expression)?;
    put_str(text, ")")
}

/// An operand whose operators have to bind at least so tight.
#[cycle(put)]
fn put_operand(
    alloc: Global,
    text: &mut String,
    manner: Manner,
    least: u8,
    operand: &Expression,
) -> Result<(), AllocError>
    requires { Fits manner.sparing (term_of operand.now) }
    ensures { OnOk result (string_bytes text.new ≡ string_bytes text.old ++ spec.operand_text least (term_of operand.now) (spec.text manner.sparing manner.context (term_of operand.now))) }
{
    let parentheses = tightness(operand) < least;
    put_inside(alloc, text, manner, parentheses, operand)
}

/// The first argument of a function, behind `(`.
#[cycle(put)]
fn put_first(
    alloc: Global,
    text: &mut String,
    manner: Manner,
    argument: &Expression,
) -> Result<(), AllocError>
    requires { Fits manner.sparing (term_of argument.now) }
    ensures { OnOk result (string_bytes text.new ≡ string_bytes text.old ++ (40 ∷ spec.operand_text spec.argument (term_of argument.now) (spec.text manner.sparing manner.context (term_of argument.now)))) }
{
    put_str(text, "(")?;
    put_operand(alloc, text, manner, ARGUMENT, argument)
}

/// Another argument, behind a comma.
#[cycle(put)]
fn put_next(
    alloc: Global,
    text: &mut String,
    manner: Manner,
    argument: &Expression,
) -> Result<(), AllocError>
    requires { Fits manner.sparing (term_of argument.now) }
    ensures { OnOk result (string_bytes text.new ≡ string_bytes text.old ++ (44 ∷ 32 ∷ spec.operand_text spec.argument (term_of argument.now) (spec.text manner.sparing manner.context (term_of argument.now)))) }
{
    put_str(text, ", ")?;
    put_operand(alloc, text, manner, ARGUMENT, argument)
}

/// The values of `Concat`.
#[cycle(put)]
#[tactic(auto, using(crate::proofs::Counted::within_unary, crate::proofs::Counted::within_value, crate::proofs::Counted::within_others))]
fn put_values(
    alloc: Global,
    text: &mut String,
    manner: Manner,
    values: &Expression,
) -> Result<(), AllocError>
    requires { Fits manner.sparing (term_of values.now) }
    ensures { OnOk result (string_bytes text.new ≡ string_bytes text.old ++ spec.values_text manner.sparing manner.context (term_of values.now)) }
{
    match values {
        Expression::Unary(_, of) => put_operand(alloc, text, manner, ARGUMENT, of),
        Expression::Concat(first, _, others) => {
            put_values(alloc, text, manner, first)?;
            put_str(text, ", ")?;
            put_values(alloc, text, manner, others)
        }
        _ => Ok(()),
    }
}

/// How tight the operand on the left has to bind.
fn least_on_the_left(sparing: bool, binary: Binary, left: &Expression, right: &Expression) -> u8
    requires { Fits sparing (term_of left.now) }
    ensures { nat_lt (spec.tightness (term_of left.now)) result ≡ spec.has_parentheses sparing binary (term_of left.now) (spec.size sparing (term_of left.now)) (spec.levels_at (spec.right_of binary) (term_of right.now) (spec.size sparing (term_of right.now)).levels) }
{
    let size = size_of(sparing, left);
    let levels = size_of(sparing, right).levels;
    let levels = levels_at(precedence(binary) + 1, right, levels);
    if has_parentheses(sparing, binary, left, size, levels) {
        tightness(left) + 1
    } else {
        0
    }
}

/// An operator, with a space on each side.
fn put_operator(text: &mut String, binary: Binary) -> Result<(), AllocError>
    ensures { OnOk result (string_bytes text.new ≡ string_bytes text.old ++ (32 ∷ (named.binary_name binary ++ (32 ∷ [])))) }
{
    put_str(text, " ")?;
    put_str(text, binary_name(binary))?;
    put_str(text, " ")
}

/// The last argument, which is a text, and the end of the function.
fn put_last(text: &mut String, said: &str) -> Result<(), AllocError>
    ensures { OnOk result (string_bytes text.new ≡ string_bytes text.old ++ spec.next_of (in_quotes said.now) spec.closing) }
{
    put_str(text, ", ")?;
    put_quoted(text, said)?;
    put_str(text, ")")
}

/// A text behind another.
fn put_str(text: &mut String, more: &str) -> Result<(), AllocError>
    ensures { OnOk result (string_bytes text.new ≡ string_bytes text.old ++ more.now) }
{
    text.push_str(more)?;
    Ok(())
}
