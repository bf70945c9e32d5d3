//! Faults of single policies: bounds that have crossed, lists with no value.
ghost use Rattle.std.specs.Prelude.{◌≡◌};
ghost use Rattle.policy_tree.specs.Tree.{some_leaf, some_leaf_in};
ghost use Rattle.policy_tree.specs.Faults.{has_leaf_fault};
ghost use Rattle.policy_tree.specs.Meaning.{meaning, policy_meaning};

use crate::policy::{Leaf, Policy, PolicyKind, Wanted};

/// A fault that a leaf may have.
#[derive(Clone, Copy)]
pub enum LeafFault {
    /// Its bounds leave nothing.
    CrossedBounds,
    /// It looks for one of no values.
    NoValues,
}

/// Whether the leaf has this fault.
fn leaf_has_fault(leaf: &Leaf, fault: LeafFault) -> bool
    ensures { result ≡ has_leaf_fault fault leaf.now }
{
    match (leaf, fault) {
        (
            Leaf::Latency {
                threshold_ms,
                upper_threshold_ms,
            },
            LeafFault::CrossedBounds,
        ) => *upper_threshold_ms != 0 && upper_threshold_ms <= threshold_ms,
        (
            Leaf::SpanCount {
                min_spans,
                max_spans,
            },
            LeafFault::CrossedBounds,
        ) => *max_spans != 0 && max_spans < min_spans,
        (
            Leaf::Attribute {
                wanted: Wanted::NumberWithin {
                    min_value,
                    max_value,
                },
                ..
            },
            LeafFault::CrossedBounds,
        ) => max_value < min_value,
        (Leaf::StatusCode { codes }, LeafFault::NoValues) => codes.is_empty(),
        (
            Leaf::Attribute {
                wanted: Wanted::StringAmong(values) | Wanted::StringMatching(values),
                ..
            },
            LeafFault::NoValues,
        ) => values.is_empty(),
        (Leaf::TraceState { values, .. }, LeafFault::NoValues) => values.is_empty(),
        (
            Leaf::OttlCondition {
                on_span,
                on_event,
                ..
            },
            LeafFault::NoValues,
        ) => on_span.is_empty() && on_event.is_empty(),
        _ => false,
    }
}

/// Whether a leaf inside the policy has this fault.
#[cycle(leaves)]
fn has_fault(policy: &Policy, fault: LeafFault) -> bool
    ensures { result ≡ some_leaf (has_leaf_fault fault) (policy_meaning policy.now) }
{
    match &policy.kind {
        PolicyKind::Leaf(leaf) => leaf_has_fault(leaf, fault),
        PolicyKind::Limiting(_) => false,
        PolicyKind::Joined { policies, .. } => some_has_fault(policies.as_slice(), fault),
    }
}

/// Whether a leaf inside one of the policies has this fault.
#[cycle(leaves)]
pub fn some_has_fault(list: &[Policy], fault: LeafFault) -> bool
    ensures { result ≡ some_leaf_in (has_leaf_fault fault) (meaning list.now) }
{
    for policy in list {
        if has_fault(policy, fault) {
            return true;
        }
    }
    false
}
