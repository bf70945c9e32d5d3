//! What is wrong with a condition's text.
ghost use Rattle.std.specs.Prelude.{◌≡◌, true, IfOk, IfErr};
ghost use Rattle.std.specs.List.{list_all};
ghost use Rattle.expression.specs.Expressions.{is_expression};
ghost use Rattle.ottl_text.specs.Syntax.{term_of};
ghost use Rattle.ottl_condition.specs.Meaning.{patterns_of};
ghost use Rattle.ottl_lists.specs.Texts.{is_condition, IsFaultOf, PatternsFail};

use expression::ExpressionFault;
use otlp_types::{List, Text};
use ottl_condition::put_patterns;
use ottl_text::{Context, Expression, Fault, ParseError, parse};
use std::alloc::{AllocError, Global};

/// Why a text is no condition that a policy can have.
#[derive(Clone, Copy, Debug, PartialEq, Eq, Drop)]
pub enum ConditionFault {
    /// The text isn't one, by its first fault.
    NotACondition(Fault),
    /// A regular expression in it isn't one.
    NotAnExpression,
    /// A regular expression in it, compiled, would take more than about 1 MiB.
    ExpressionTooBig,
    /// Memory was refused.
    NoMemory,
}

/// Tells whether a text is a condition on this that a policy can have.
#[tactic(auto, unfolding(crate::specs::Texts::is_condition))]
pub fn check(alloc: Global, context: Context, text: &str) -> Result<(), ConditionFault>
    ensures condition { IfOk result (λ _. is_condition context text.now ≡ true) }
    ensures fault { IfErr result (λ fault. IsFaultOf fault context text.now) }
{
    match parse(alloc, context, text.as_bytes()) {
        Ok(read) => check_patterns(alloc, &read),
        Err(ParseError::Refused(fault)) => Err(ConditionFault::NotACondition(fault)),
        Err(ParseError::NoMemory) => Err(ConditionFault::NoMemory),
    }
}

/// Tells whether the regular expressions of a condition are ones that a policy can have.
fn check_patterns(alloc: Global, read: &Expression) -> Result<(), ConditionFault>
    ensures ok { IfOk result (λ _. list_all is_expression (patterns_of (term_of read.now)) ≡ true) }
    ensures fault { IfErr result (λ fault. PatternsFail fault (patterns_of (term_of read.now))) }
{
    let mut patterns = List::new(alloc);
    match put_patterns(alloc, read, &mut patterns) {
        Ok(()) => check_texts(alloc, patterns.as_slice()),
        Err(AllocError) => Err(ConditionFault::NoMemory),
    }
}

/// The same of these texts.
fn check_texts(alloc: Global, texts: &[Text]) -> Result<(), ConditionFault>
    ensures ok { IfOk result (λ _. list_all is_expression texts.now ≡ true) }
    ensures fault { IfErr result (λ fault. PatternsFail fault texts.now) }
{
    let mut is_big = false;
    for text in texts {
        match expression::check(alloc, text.as_str()) {
            Ok(()) => {}
            // A later text may be no expression, and that fault goes first (D-211).
            Err(ExpressionFault::TooBig) => is_big = true,
            Err(ExpressionFault::NotAnExpression) => return Err(ConditionFault::NotAnExpression),
            Err(ExpressionFault::NoMemory) => return Err(ConditionFault::NoMemory),
        }
    }
    if is_big {
        Err(ConditionFault::ExpressionTooBig)
    } else {
        Ok(())
    }
}
