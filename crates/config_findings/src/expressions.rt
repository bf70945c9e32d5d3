//! The faults of the regular expressions and the conditions of policies (tailsamplingprocessor README, `string_attribute`,
//! `enabled_regex_matching`; `ottl_condition`).
ghost use Rattle.std.specs.Prelude.{◌≡◌, ◌++◌, ◌+◌, ◌≤◌, OnOk, if◌then◌else◌, length, count_by};
ghost use Rattle.config_findings.specs.FaultLists as spec;
ghost use Rattle.tsc_config.specs.Reading.{expressions_among, is_one, is_one_as};
ghost use Rattle.policy_tree.specs.declared.expressions.ExpressionKind.TheVariants.{Regular, Condition};

use crate::finding_texts::{big_expression_text, condition_text, no_expression_text, pattern_text};
use crate::findings::Findings;
use config_faults::ConfigFault;
use expression::{ExpressionFault, check};
use ottl_lists::ConditionFault;
use ottl_text::Context;
use policy_places::condition_place;
use policy_tree::{ExpressionKind, Policies, PolicyExpression};
use std::alloc::{AllocError, Global};
use toml::Table;

/// Adds the faults of each expression of policies, which stand in the table of a configuration, and what is said of those
/// that are too big.
pub fn add_expressions(
    alloc: Global,
    table: &Table,
    policies: &Policies,
    findings: &mut Findings,
    big: &mut Vec<String>,
) -> Result<(), AllocError>
    ensures faults { OnOk result (findings.new ≡ findings.old ++ spec.expressions_faults (expressions_among policies.now)) }
    ensures big { OnOk result (length big.new.items ≤ length big.old.items + count_by is_one (expressions_among policies.now)) }
{
    let expressions = policies.expressions(alloc)?;
    add_all(alloc, table, expressions.as_slice(), findings, big)
}

/// Adds the faults of each of these, and what is said of those that are too big.
fn add_all(
    alloc: Global,
    table: &Table,
    expressions: &[PolicyExpression],
    findings: &mut Findings,
    big: &mut Vec<String>,
) -> Result<(), AllocError>
    ensures faults { OnOk result (findings.new ≡ findings.old ++ spec.expressions_faults expressions.now) }
    ensures big { OnOk result (length big.new.items ≤ length big.old.items + count_by is_one expressions.now) }
{
    for expression in expressions {
        let text = expression.text.as_str();
        match expression.kind {
            ExpressionKind::Regular => add_text(alloc, text, findings, big)?,
            ExpressionKind::Condition(context) => {
                add_condition(alloc, table, context, text, findings, big)?
            }
        }
    }
    Ok(())
}

/// Adds the fault of a text that is wanted to be a regular expression, where it has one, or what is said of one that is too
/// big.
fn add_text(
    alloc: Global,
    text: &str,
    findings: &mut Findings,
    big: &mut Vec<String>,
) -> Result<(), AllocError>
    ensures faults { OnOk result (findings.new ≡ findings.old ++ spec.faults_as Regular text.now) }
    ensures big { OnOk result (length big.new.items ≤ length big.old.items + (if is_one_as Regular text.now then 1 else 0)) }
{
    match check(alloc, text) {
        Ok(()) => Ok(()),
        Err(ExpressionFault::NotAnExpression) => findings.add(
            ConfigFault::NotAnExpression,
            no_expression_text(alloc, text)?,
        ),
        Err(ExpressionFault::TooBig) => {
            big.push(big_expression_text(alloc, text)?)?;
            Ok(())
        }
        Err(ExpressionFault::NoMemory) => Err(AllocError),
    }
}

/// The same of a text that is wanted to be a condition on this.
fn add_condition(
    alloc: Global,
    table: &Table,
    context: Context,
    text: &str,
    findings: &mut Findings,
    big: &mut Vec<String>,
) -> Result<(), AllocError>
    ensures faults { OnOk result (findings.new ≡ findings.old ++ spec.faults_as (Condition context) text.now) }
    ensures big { OnOk result (length big.new.items ≤ length big.old.items + (if is_one_as (Condition context) text.now then 1 else 0)) }
{
    match ottl_lists::check(alloc, context, text) {
        Ok(()) => Ok(()),
        Err(ConditionFault::NotACondition(fault)) => {
            let place = place_of(alloc, table, context, text)?;
            let said = condition_text(alloc, place.as_str(), text, fault)?;
            findings.add(ConfigFault::NotAnExpression, said)
        }
        Err(ConditionFault::NotAnExpression) => {
            let place = place_of(alloc, table, context, text)?;
            let said = pattern_text(alloc, place.as_str(), text)?;
            findings.add(ConfigFault::NotAnExpression, said)
        }
        Err(ConditionFault::ExpressionTooBig) => {
            let told = big_expression_text(alloc, text)?;
            big.push(told)?;
            Ok(())
        }
        Err(ConditionFault::NoMemory) => Err(AllocError),
    }
}

/// Where in the table of a configuration a condition stands first.
fn place_of(
    alloc: Global,
    table: &Table,
    context: Context,
    text: &str,
) -> Result<String, AllocError> {
    let key = match context {
        Context::Span => "span",
        Context::SpanEvent => "spanevent",
    };
    match condition_place(alloc, table, key, text)? {
        Some(place) => Ok(place),
        None => String::from_str(alloc, "policies"),
    }
}
