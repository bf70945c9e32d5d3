//! Conditions by their texts.
ghost use Rattle.ottl_text.specs.Gives.{GivesAs};
ghost use Rattle.ottl_text.specs.Grammar.{condition_of};
ghost use Rattle.ottl_text.specs.Syntax.{term_of};

use crate::expression::{Context, Expression};
use crate::fault::{FaultKind, ParseError};
use crate::pieces::{is_end, next_at, refused};
use crate::reading::expression;
use std::alloc::Global;

/// The most levels that may nest, and the most operators in a row (D-310).
const MOST_LEVELS: usize = 200;

/// The condition on a span, or on an event of a span, that a text is, or its first fault, from left to right. `NoMemory`
/// only where memory was refused.
#[tactic(auto, unfolding(crate::specs::Grammar::condition_of))]
pub fn parse(alloc: Global, context: Context, text: &[u8]) -> Result<Expression, ParseError>
    ensures { GivesAs term_of result (condition_of context text.now) }
{
    // A fault's column is counted from here back, by what is left of the text.
    let behind = text.len() + 1;
    let (condition, rest) = expression(alloc, behind, context, MOST_LEVELS, 1, text)?;
    let (token, _) = next_at(behind, rest)?;
    if !is_end(token) {
        return Err(refused(behind, FaultKind::GoesOn, rest));
    }
    if condition.is_condition() {
        Ok(condition)
    } else {
        Err(refused(behind, FaultKind::NotACondition, text))
    }
}
