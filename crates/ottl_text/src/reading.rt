//! Expressions by their texts.
ghost use Rattle.std.specs.Prelude.{◌≡◌, Ok};
ghost use Rattle.ottl_text.specs.Gives.{GivesAs};
ghost use Rattle.ottl_text.specs.Grammar as spec;
ghost use Rattle.ottl_text.specs.Syntax.{term_of};
ghost use Rattle.ottl_text.specs.Syntax as syntax;
ghost use Rattle.ottl_text.specs.Tokens.{piece_of};

use crate::depths::both_within;
use crate::expression::{Binary, Context, Expression, Literal, Unary};
use crate::fault::{FaultKind, ParseError};
use crate::names::{binary_of, enumeration_of, operator_of, root_of, unary_of};
use crate::path_reading::path_at;
use crate::pieces::{
    after_sign, case_at, delimiter_at, is_the_sign, literal_at, next_at, no_values_at, pattern_at,
    refused,
};
use crate::token::Token;
use crate::trees::{before, both, in_case, one, part};
use otlp_types::Text;
use std::alloc::Global;

/// So deep is a tree of operands and the operator between them at most, so that asking it takes little stack.
const MOST_DEEP: usize = 400;

/// `IsRootSpan`, behind its name.
#[tactic(auto, unfolding(crate::specs::Grammar::root_span_at))]
fn root_span_at(behind: usize, bytes: &[u8]) -> Result<(Expression, &[u8]), ParseError>
    ensures { GivesAs (λ found. (term_of found.0, found.1.now)) result (spec.root_span_at behind bytes.now) }
{
    let rest = after_sign(behind, b'(', FaultKind::NoOpening, bytes)?;
    let rest = after_sign(behind, b')', FaultKind::NoClosing, rest)?;
    Ok((Expression::IsRootSpan, rest))
}

/// Two expressions joined by an operator, with which the bytes begin.
#[tactic(auto, unfolding(crate::specs::Grammar::joined))]
fn joined(
    alloc: Global,
    behind: usize,
    binary: Binary,
    left: Expression,
    right: Expression,
    bytes: &[u8],
) -> Result<Expression, ParseError>
    ensures { GivesAs term_of result (spec.joined behind binary (term_of left) (term_of right) bytes.now) }
{
    if !binary.suits(&left) || !binary.suits(&right) {
        return Err(refused(behind, binary.misplaced(), bytes));
    }
    if both_within(MOST_DEEP, &left, &right) {
        both(alloc, binary, left, right)
    } else {
        Err(refused(behind, FaultKind::TooDeep, bytes))
    }
}

/// An expression whose operators bind at least so tight, and what is left.
#[cycle(expression)]
#[tactic(auto, unfolding(crate::specs::Grammar::expression))]
pub(crate) fn expression(
    alloc: Global,
    behind: usize,
    context: Context,
    levels: usize,
    least: u8,
    bytes: &[u8],
) -> Result<(Expression, &[u8]), ParseError>
    ensures { GivesAs (λ found. (term_of found.0, found.1.now)) result (spec.expression behind context levels least bytes.now) }
{
    if levels == 0 {
        return Err(refused(behind, FaultKind::TooDeep, bytes));
    }
    let (first, rest) = operand(alloc, behind, context, levels - 1, bytes)?;
    operators(alloc, behind, context, levels - 1, least, first, rest)
}

/// What operators behind an expression make of it, from left to right.
#[cycle(expression)]
#[tactic(auto, unfolding(crate::specs::Grammar::operators))]
fn operators(
    alloc: Global,
    behind: usize,
    context: Context,
    levels: usize,
    least: u8,
    left: Expression,
    bytes: &[u8],
) -> Result<(Expression, &[u8]), ParseError>
    ensures { GivesAs (λ found. (term_of found.0, found.1.now)) result (spec.operators behind context levels least (term_of left) bytes.now) }
{
    if levels == 0 {
        return Err(refused(behind, FaultKind::TooDeep, bytes));
    }
    let (token, rest) = next_at(behind, bytes)?;
    match operator_of(token) {
        Some(binary) if least <= binary.precedence() => {
            let least_inside = binary.precedence() + 1;
            let (right, rest) = expression(alloc, behind, context, levels - 1, least_inside, rest)?;
            let both = joined(alloc, behind, binary, left, right, bytes)?;
            operators(alloc, behind, context, levels - 1, least, both, rest)
        }
        _ => Ok((left, bytes)),
    }
}

/// An operand, whose parts nest at most `levels` deep, and what is left.
#[cycle(expression)]
#[tactic(auto, unfolding(crate::specs::Grammar::operand))]
fn operand(
    alloc: Global,
    behind: usize,
    context: Context,
    levels: usize,
    bytes: &[u8],
) -> Result<(Expression, &[u8]), ParseError>
    ensures { GivesAs (λ found. (term_of found.0, found.1.now)) result (spec.operand behind (spec.expression behind context levels) levels context (spec.values behind context levels) bytes.now) }
{
    let (token, rest) = next_at(behind, bytes)?;
    match token {
        Token::Word(word) => word_at(alloc, behind, context, levels, word, bytes, rest),
        Token::Sign(sign) => {
            if sign == b'(' {
                inner_at(alloc, behind, context, levels, rest)
            } else {
                Err(refused(behind, FaultKind::NoValueHere, bytes))
            }
        }
        _ => {
            let literal = literal_at(alloc, behind, token, bytes)?;
            Ok((Expression::Literal(literal), rest))
        }
    }
}

/// What is in parentheses, behind the first.
#[cycle(expression)]
#[tactic(auto, unfolding(crate::specs::Grammar::inner_at))]
fn inner_at(
    alloc: Global,
    behind: usize,
    context: Context,
    levels: usize,
    bytes: &[u8],
) -> Result<(Expression, &[u8]), ParseError>
    ensures { GivesAs (λ found. (term_of found.0, found.1.now)) result (spec.inner_at behind (spec.expression behind context levels) bytes.now) }
{
    let (inner, rest) = expression(alloc, behind, context, levels, 1, bytes)?;
    let rest = after_sign(behind, b')', FaultKind::NoClosing, rest)?;
    Ok((inner, rest))
}

/// What a name is, with which the bytes begin, and `rest` is left behind it.
#[cycle(expression)]
#[tactic(auto, unfolding(crate::specs::Grammar::word_at))]
fn word_at<'a>(
    alloc: Global,
    behind: usize,
    context: Context,
    levels: usize,
    word: &[u8],
    bytes: &[u8],
    rest: &'a [u8],
) -> Result<(Expression, &'a [u8]), ParseError>
    ensures { GivesAs (λ found. (term_of found.0, found.1.now)) result (spec.word_at behind (spec.expression behind context levels) levels context (spec.values behind context levels) word.now bytes.now rest.now) }
{
    if word == b"not".as_slice() {
        not_at(alloc, behind, context, levels, rest)
    } else if word == b"nil".as_slice() {
        Ok((Expression::Literal(Literal::Nil), rest))
    } else if word == b"true".as_slice() {
        Ok((Expression::Literal(Literal::Bool(true)), rest))
    } else if word == b"false".as_slice() {
        Ok((Expression::Literal(Literal::Bool(false)), rest))
    } else if word == b"IsRootSpan".as_slice() {
        root_span_at(behind, rest)
    } else if word == b"IsMatch".as_slice() {
        match_at(alloc, behind, context, levels, rest)
    } else if word == b"Substring".as_slice() {
        substring_at(alloc, behind, context, levels, rest)
    } else if word == b"ConvertCase".as_slice() {
        cased_at(alloc, behind, context, levels, rest)
    } else if word == b"Concat".as_slice() {
        concat_at(alloc, behind, context, levels, rest)
    } else {
        named_at(alloc, behind, context, levels, word, bytes, rest)
    }
}

/// A function, an enumeration or a path.
#[cycle(expression)]
#[tactic(auto, unfolding(crate::specs::Grammar::named_at))]
fn named_at<'a>(
    alloc: Global,
    behind: usize,
    context: Context,
    levels: usize,
    word: &[u8],
    bytes: &[u8],
    rest: &'a [u8],
) -> Result<(Expression, &'a [u8]), ParseError>
    ensures { GivesAs (λ found. (term_of found.0, found.1.now)) result (spec.named_at behind (spec.expression behind context levels) levels context word.now bytes.now rest.now) }
{
    if let Some(unary) = unary_of(word) {
        return unary_at(alloc, behind, context, levels, unary, rest);
    }
    if let Some(binary) = binary_of(word) {
        return binary_at(alloc, behind, context, levels, binary, rest);
    }
    // A number like any other, so it stands in sums and products, too (D-342).
    if let Some(number) = enumeration_of(word) {
        return Ok((Expression::Literal(Literal::Int(number)), rest));
    }
    match root_of(context, word) {
        Some(root) => path_at(alloc, behind, levels, root, rest),
        None => Err(refused(behind, FaultKind::UnknownName, bytes)),
    }
}

/// Behind `not`.
#[cycle(expression)]
#[tactic(auto, unfolding(crate::specs::Grammar::not_at))]
fn not_at(
    alloc: Global,
    behind: usize,
    context: Context,
    levels: usize,
    bytes: &[u8],
) -> Result<(Expression, &[u8]), ParseError>
    ensures { GivesAs (λ found. (term_of found.0, found.1.now)) result (spec.not_at behind (spec.expression behind context levels) bytes.now) }
{
    // Comparisons bind tighter than `not`, and another `not` may stand behind it (D-292).
    let (of, rest) = expression(alloc, behind, context, levels, 3, bytes)?;
    if !of.is_condition() {
        return Err(refused(behind, FaultKind::NotACondition, bytes));
    }
    let not = one(alloc, Unary::Not, of)?;
    Ok((not, rest))
}

/// A value that is given to a function, and what is left.
#[cycle(expression)]
#[tactic(auto, unfolding(crate::specs::Grammar::argument_at))]
fn argument_at(
    alloc: Global,
    behind: usize,
    context: Context,
    levels: usize,
    bytes: &[u8],
) -> Result<(Expression, &[u8]), ParseError>
    ensures { GivesAs (λ found. (term_of found.0, found.1.now)) result (spec.argument_at behind (spec.expression behind context levels) bytes.now) }
{
    let (value, rest) = expression(alloc, behind, context, levels, 4, bytes)?;
    if value.is_value() {
        Ok((value, rest))
    } else {
        Err(refused(behind, FaultKind::NotAValue, bytes))
    }
}

/// A function of one value, behind its name.
#[cycle(expression)]
#[tactic(auto, unfolding(crate::specs::Grammar::unary_at))]
fn unary_at(
    alloc: Global,
    behind: usize,
    context: Context,
    levels: usize,
    unary: Unary,
    bytes: &[u8],
) -> Result<(Expression, &[u8]), ParseError>
    ensures { GivesAs (λ found. (term_of found.0, found.1.now)) result (spec.unary_at behind (spec.expression behind context levels) unary bytes.now) }
{
    let rest = after_sign(behind, b'(', FaultKind::NoOpening, bytes)?;
    let (of, rest) = argument_at(alloc, behind, context, levels, rest)?;
    let rest = after_sign(behind, b')', FaultKind::NoClosing, rest)?;
    let call = one(alloc, unary, of)?;
    Ok((call, rest))
}

/// A function of two values, behind its name.
#[cycle(expression)]
#[tactic(auto, unfolding(crate::specs::Grammar::binary_at))]
fn binary_at(
    alloc: Global,
    behind: usize,
    context: Context,
    levels: usize,
    binary: Binary,
    bytes: &[u8],
) -> Result<(Expression, &[u8]), ParseError>
    ensures { GivesAs (λ found. (term_of found.0, found.1.now)) result (spec.binary_at behind (spec.expression behind context levels) binary bytes.now) }
{
    let rest = after_sign(behind, b'(', FaultKind::NoOpening, bytes)?;
    let (left, rest) = argument_at(alloc, behind, context, levels, rest)?;
    let rest = after_sign(behind, b',', FaultKind::NoComma, rest)?;
    let (right, rest) = argument_at(alloc, behind, context, levels, rest)?;
    let rest = after_sign(behind, b')', FaultKind::NoClosing, rest)?;
    let call = both(alloc, binary, left, right)?;
    Ok((call, rest))
}

/// `IsMatch`, behind its name.
#[cycle(expression)]
#[tactic(auto, unfolding(crate::specs::Grammar::match_at))]
fn match_at(
    alloc: Global,
    behind: usize,
    context: Context,
    levels: usize,
    bytes: &[u8],
) -> Result<(Expression, &[u8]), ParseError>
    ensures { GivesAs (λ found. (term_of found.0, found.1.now)) result (spec.match_at behind (spec.expression behind context levels) bytes.now) }
{
    let rest = after_sign(behind, b'(', FaultKind::NoOpening, bytes)?;
    let (value, rest) = argument_at(alloc, behind, context, levels, rest)?;
    let rest = after_sign(behind, b',', FaultKind::NoComma, rest)?;
    let (pattern, rest) = pattern_at(alloc, behind, rest)?;
    let rest = after_sign(behind, b')', FaultKind::NoClosing, rest)?;
    let value = Box::new(alloc, value)?;
    Ok((Expression::IsMatch(value, pattern), rest))
}

/// `Substring`, behind its name.
#[cycle(expression)]
#[tactic(auto, unfolding(crate::specs::Grammar::substring_at))]
fn substring_at(
    alloc: Global,
    behind: usize,
    context: Context,
    levels: usize,
    bytes: &[u8],
) -> Result<(Expression, &[u8]), ParseError>
    ensures { GivesAs (λ found. (term_of found.0, found.1.now)) result (spec.substring_at behind (spec.expression behind context levels) bytes.now) }
{
    let rest = after_sign(behind, b'(', FaultKind::NoOpening, bytes)?;
    let (text, rest) = argument_at(alloc, behind, context, levels, rest)?;
    let rest = after_sign(behind, b',', FaultKind::NoComma, rest)?;
    let (start, rest) = argument_at(alloc, behind, context, levels, rest)?;
    let rest = after_sign(behind, b',', FaultKind::NoComma, rest)?;
    let (size, rest) = argument_at(alloc, behind, context, levels, rest)?;
    let rest = after_sign(behind, b')', FaultKind::NoClosing, rest)?;
    let call = part(alloc, text, start, size)?;
    Ok((call, rest))
}

/// `ConvertCase`, behind its name.
#[cycle(expression)]
#[tactic(auto, unfolding(crate::specs::Grammar::cased_at))]
fn cased_at(
    alloc: Global,
    behind: usize,
    context: Context,
    levels: usize,
    bytes: &[u8],
) -> Result<(Expression, &[u8]), ParseError>
    ensures { GivesAs (λ found. (term_of found.0, found.1.now)) result (spec.cased_at behind (spec.expression behind context levels) bytes.now) }
{
    let rest = after_sign(behind, b'(', FaultKind::NoOpening, bytes)?;
    let (text, rest) = argument_at(alloc, behind, context, levels, rest)?;
    let rest = after_sign(behind, b',', FaultKind::NoComma, rest)?;
    let (case, rest) = case_at(behind, rest)?;
    let rest = after_sign(behind, b')', FaultKind::NoClosing, rest)?;
    let call = in_case(alloc, case, text)?;
    Ok((call, rest))
}

/// `Concat`, behind its name.
#[cycle(expression)]
#[tactic(auto, unfolding(crate::specs::Grammar::concat_at))]
fn concat_at(
    alloc: Global,
    behind: usize,
    context: Context,
    levels: usize,
    bytes: &[u8],
) -> Result<(Expression, &[u8]), ParseError>
    ensures { GivesAs (λ found. (term_of found.0, found.1.now)) result (spec.concat_at behind (spec.values behind context levels) bytes.now) }
{
    let rest = after_sign(behind, b'(', FaultKind::NoOpening, bytes)?;
    let values = after_sign(behind, b'[', FaultKind::NoOpeningBracket, rest)?;
    let (token, rest) = next_at(behind, values)?;
    if is_the_sign(b']', token) {
        return no_values_at(alloc, behind, rest);
    }
    let (joined, _, rest) = values_at(alloc, behind, context, levels, values)?;
    Ok((joined, rest))
}

/// What `Concat` makes of the values that the bytes begin with, its delimiter, and what is left behind its call.
#[cycle(expression)]
#[tactic(auto, unfolding(crate::specs::Grammar::values))]
fn values_at(
    alloc: Global,
    behind: usize,
    context: Context,
    levels: usize,
    bytes: &[u8],
) -> Result<(Expression, Text, &[u8]), ParseError>
    ensures { GivesAs (λ found. (term_of found.0, found.1, found.2.now)) result (spec.values behind context levels bytes.now) }
{
    if levels == 0 {
        return Err(refused(behind, FaultKind::TooDeep, bytes));
    }
    let (value, behind_value) = argument_at(alloc, behind, context, levels - 1, bytes)?;
    let (token, rest) = next_at(behind, behind_value)?;
    if is_the_sign(b',', token) {
        let (others, delimiter, rest) = values_at(alloc, behind, context, levels - 1, rest)?;
        let joined = before(alloc, value, &delimiter, others)?;
        Ok((joined, delimiter, rest))
    } else if is_the_sign(b']', token) {
        let (delimiter, rest) = delimiter_at(alloc, behind, rest)?;
        let last = one(alloc, Unary::Like, value)?;
        Ok((last, delimiter, rest))
    } else {
        Err(refused(behind, FaultKind::NoClosingBracket, behind_value))
    }
}
