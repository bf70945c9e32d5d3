//! The regular expressions and the conditions of policies.
ghost use Rattle.std.specs.Prelude.{◌≡◌, ◌++◌, map, OnOk};
ghost use Rattle.policy_tree.specs.Meaning.{meaning, policy_meaning};
ghost use Rattle.policy_tree.specs.Expressions.{of_kind, expressions_of_leaf, expressions_of, expressions_in};

use crate::policy::{Leaf, Policy, PolicyKind, Wanted};
use otlp_types::{List, Text, TryClone};
use ottl_text::Context;
use std::alloc::{AllocError, Global};

/// What the text of an expression is to be.
#[derive(Clone, Copy, PartialEq, Eq)]
pub enum ExpressionKind {
    /// A regular expression (tailsamplingprocessor README, `enabled_regex_matching`).
    Regular,
    /// An OTTL condition that is asked of this (tailsamplingprocessor README, `ottl_condition`).
    Condition(Context),
}

/// An expression of a policy by its text.
#[derive(Drop)]
pub struct PolicyExpression {
    pub kind: ExpressionKind,
    pub text: Text,
}

/// Puts the expressions of a leaf last.
fn put_expressions_of_leaf(
    alloc: Global,
    leaf: &Leaf,
    found: &mut List<PolicyExpression>,
) -> Result<(), AllocError>
    ensures { OnOk result (found.new ≡ found.old ++ expressions_of_leaf leaf.now) }
{
    match leaf {
        Leaf::Attribute {
            wanted: Wanted::StringMatching(values),
            ..
        } => put_texts(alloc, ExpressionKind::Regular, values.as_slice(), found),
        Leaf::OttlCondition {
            on_span,
            on_event,
            ..
        } => {
            let of_span = ExpressionKind::Condition(Context::Span);
            put_texts(alloc, of_span, on_span.as_slice(), found)?;
            let of_event = ExpressionKind::Condition(Context::SpanEvent);
            put_texts(alloc, of_event, on_event.as_slice(), found)
        }
        _ => Ok(()),
    }
}

/// Puts the expressions of this kind and these texts last.
fn put_texts(
    alloc: Global,
    kind: ExpressionKind,
    texts: &[Text],
    found: &mut List<PolicyExpression>,
) -> Result<(), AllocError>
    ensures { OnOk result (found.new ≡ found.old ++ map (of_kind kind) texts.now) }
{
    for text in texts {
        found.push(PolicyExpression {
            kind,
            text: text.try_clone(alloc)?,
        })?;
    }
    Ok(())
}

/// Puts the expressions of a policy last.
#[cycle(expressions)]
fn put_expressions(
    alloc: Global,
    policy: &Policy,
    found: &mut List<PolicyExpression>,
) -> Result<(), AllocError>
    ensures { OnOk result (found.new ≡ found.old ++ expressions_of (policy_meaning policy.now)) }
{
    match &policy.kind {
        PolicyKind::Leaf(leaf) => put_expressions_of_leaf(alloc, leaf, found),
        PolicyKind::Limiting(_) => Ok(()),
        PolicyKind::Joined { policies, .. } => {
            put_expressions_in(alloc, policies.as_slice(), found)
        }
    }
}

/// Puts the expressions of policies last.
#[cycle(expressions)]
pub fn put_expressions_in(
    alloc: Global,
    list: &[Policy],
    found: &mut List<PolicyExpression>,
) -> Result<(), AllocError>
    ensures { OnOk result (found.new ≡ found.old ++ expressions_in (meaning list.now)) }
{
    for policy in list {
        put_expressions(alloc, policy, found)?;
    }
    Ok(())
}
