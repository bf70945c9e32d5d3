//! The regular expressions and the conditions of policies (tailsamplingprocessor README, `string_attribute`,
//! `enabled_regex_matching`; `ottl_condition`).
ghost use Rattle.std.specs.Prelude.{◌≡◌, ◌≢◌, [], true, false, Err, IfOk, IfErr};
ghost use Rattle.expression.specs.declared.expression.ExpressionFault.TheVariants as faults;
ghost use Rattle.config_faults.specs.declared.fault.ConfigFault.TheVariants.{NoMemory, NotAnExpression, ExpressionTooBig};
ghost use Rattle.tsc_config.specs.Reading.{expressions_among, is_one, some_is_none};

use config_faults::ConfigFault;
use expression::ExpressionFault;
use ottl_lists::ConditionFault;
use policy_tree::{ExpressionKind, Policies, PolicyExpression};
use std::alloc::{AllocError, Global};

/// Looks at each expression of policies: `NotAnExpression` where one is none; else `ExpressionTooBig` where one takes
/// too much memory.
pub fn check_expressions(alloc: Global, policies: &Policies) -> Result<(), ConfigFault>
    ensures ok { IfOk result (λ _. some_is_none (expressions_among policies.now) ≡ false) }
    ensures no_expression { result ≡ Err NotAnExpression → some_is_none (expressions_among policies.now) ≡ true }
    ensures too_big { result ≡ Err ExpressionTooBig → some_is_none (expressions_among policies.now) ≡ false }
    ensures some { result ≡ Err ExpressionTooBig → expressions_among policies.now ≢ [] }
    ensures others { IfErr result (λ fault. fault ≢ NoMemory → fault ≢ ExpressionTooBig → fault ≡ NotAnExpression) }
{
    match policies.expressions(alloc) {
        Ok(expressions) => check_all(alloc, expressions.as_slice()),
        Err(AllocError) => Err(ConfigFault::NoMemory),
    }
}

/// The same of these.
fn check_all(alloc: Global, expressions: &[PolicyExpression]) -> Result<(), ConfigFault>
    ensures ok { IfOk result (λ _. some_is_none expressions.now ≡ false) }
    ensures no_expression { result ≡ Err NotAnExpression → some_is_none expressions.now ≡ true }
    ensures too_big { result ≡ Err ExpressionTooBig → some_is_none expressions.now ≡ false }
    ensures some { result ≡ Err ExpressionTooBig → expressions.now ≢ [] }
    ensures others { IfErr result (λ fault. fault ≢ NoMemory → fault ≢ ExpressionTooBig → fault ≡ NotAnExpression) }
{
    let mut is_big = false;
    for expression in expressions {
        match check(alloc, expression) {
            Ok(()) => {}
            // A later text may be no expression, and that fault goes first (D-211).
            Err(ExpressionFault::TooBig) => is_big = true,
            Err(ExpressionFault::NotAnExpression) => return Err(ConfigFault::NotAnExpression),
            Err(ExpressionFault::NoMemory) => return Err(ConfigFault::NoMemory),
        }
    }
    if is_big {
        Err(ConfigFault::ExpressionTooBig)
    } else {
        Ok(())
    }
}

/// Tells whether the text of an expression is what it is to be.
fn check(alloc: Global, expression: &PolicyExpression) -> Result<(), ExpressionFault>
    ensures one { IfOk result (λ _. is_one expression.now ≡ true) }
    ensures none { result ≡ Err faults.NotAnExpression → is_one expression.now ≡ false }
    ensures big { result ≡ Err faults.TooBig → is_one expression.now ≡ true }
{
    let text = expression.text.as_str();
    match expression.kind {
        ExpressionKind::Regular => expression::check(alloc, text),
        ExpressionKind::Condition(context) => match ottl_lists::check(alloc, context, text) {
            Ok(()) => Ok(()),
            Err(ConditionFault::NotACondition(_) | ConditionFault::NotAnExpression) => {
                Err(ExpressionFault::NotAnExpression)
            }
            Err(ConditionFault::ExpressionTooBig) => Err(ExpressionFault::TooBig),
            Err(ConditionFault::NoMemory) => Err(ExpressionFault::NoMemory),
        },
    }
}
