//! Trees that are made of trees.
ghost use Rattle.std.specs.Prelude.{Ok};
ghost use Rattle.ottl_text.specs.Gives.{GivesAs};
ghost use Rattle.ottl_text.specs.Syntax.{term_of};
ghost use Rattle.ottl_text.specs.Syntax as syntax;

use crate::expression::{Binary, Case, Expression, Unary};
use crate::fault::ParseError;
use otlp_types::{Text, TryClone};
use std::alloc::Global;

/// What is made of two expressions.
pub(crate) fn both(
    alloc: Global,
    binary: Binary,
    left: Expression,
    right: Expression,
) -> Result<Expression, ParseError>
    ensures { GivesAs term_of result (Ok (syntax.binary binary (term_of left) (term_of right))) }
{
    let left = Box::new(alloc, left)?;
    let right = Box::new(alloc, right)?;
    Ok(Expression::Binary(binary, left, right))
}

/// What is made of one expression.
pub(crate) fn one(alloc: Global, unary: Unary, of: Expression) -> Result<Expression, ParseError>
    ensures { GivesAs term_of result (Ok (syntax.unary unary (term_of of))) }
{
    Ok(Expression::Unary(unary, Box::new(alloc, of)?))
}

/// A part of a text.
pub(crate) fn part(
    alloc: Global,
    text: Expression,
    start: Expression,
    size: Expression,
) -> Result<Expression, ParseError>
    ensures { GivesAs term_of result (Ok (syntax.substring (term_of text) (term_of start) (term_of size))) }
{
    let text = Box::new(alloc, text)?;
    let start = Box::new(alloc, start)?;
    let size = Box::new(alloc, size)?;
    Ok(Expression::Substring(text, start, size))
}

/// A text in another case.
pub(crate) fn in_case(alloc: Global, case: Case, text: Expression) -> Result<Expression, ParseError>
    ensures { GivesAs term_of result (Ok (syntax.cased case (term_of text))) }
{
    Ok(Expression::Cased(case, Box::new(alloc, text)?))
}

/// A value before others, with a copy of the delimiter between them.
pub(crate) fn before(
    alloc: Global,
    value: Expression,
    delimiter: &Text,
    others: Expression,
) -> Result<Expression, ParseError>
    ensures { GivesAs term_of result (Ok (syntax.concat (syntax.unary Unary.Like (term_of value)) delimiter.now (term_of others))) }
{
    let first = one(alloc, Unary::Like, value)?;
    let delimiter = delimiter.try_clone(alloc)?;
    let first = Box::new(alloc, first)?;
    let others = Box::new(alloc, others)?;
    Ok(Expression::Concat(first, delimiter, others))
}
