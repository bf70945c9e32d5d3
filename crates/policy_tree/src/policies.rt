//! Policies within their limits.
ghost use Rattle.std.specs.Prelude.{◌≡◌, ◌≤◌, ◌+◌, ◌++◌, false, None, IfOk};
ghost use Rattle.std.specs.Result.{result_err};
ghost use Rattle.policy_tree.specs.Tree.{nodes, nodes_in, depth_in, has_empty_list, limits, limits_in, limiters};
ghost use Rattle.policy_tree.specs.Meaning.{meaning, policy_meaning};
ghost use Rattle.policy_tree.specs.Expressions.{expressions_in};
ghost use Rattle.policy_tree.specs.Faults.{fault_of_policies};

use crate::expressions::{PolicyExpression, put_expressions_in};
use crate::fault::PolicyFault;
use crate::leaves::{LeafFault, some_has_fault};
use crate::limiter_node::LimiterNode;
use crate::names::has_doubled_names;
use crate::policy::{Policy, PolicyKind};
use crate::shape::{count_in, depth_in, has_empty_list};
use otlp_types::{List, TryClone};
use std::alloc::{AllocError, Global};
use std::marker::Model;

/// The greatest number of levels of policies. A top policy is at level 1.
const MOST_LEVELS: usize = 8;

/// The greatest number of policies in all, each `and` counted too.
const MOST_POLICIES: usize = 64;

/// A list of policies within its limits: no list is empty, there are at most 8 levels and at most 64 policies in all,
/// no two policies of one list have the same name, none has crossed bounds, and none has no values to look for.
#[derive(Drop)]
pub struct Policies {
    list: Vec<Policy>,
}

impl Model for Policies {
    ghost use Rattle.std.specs.Prelude.{List, ◌≡◌, None};
    ghost use Rattle.policy_tree.specs.declared.policy.Policy.{Policy};
    ghost use Rattle.std.specs.Coded.{codes};
    ghost use Rattle.policy_tree.specs.contracts.policy.PolicyKind as kind;

    ghost Value = { List Policy };

    ghost coded = { Prim.hlevel (codes, kind.the_row.coded) };

    ghost use Rattle.policy_tree.specs.Faults.{fault_of_policies};

    ghost view = { λ it. it.list.items };

    ghost invariant = { λ it. fault_of_policies it.list.items ≡ None };
}

impl Policies {
    /// The policies of the list, in order, or the least fault that the list has. It takes no memory, so `NoMemory`
    /// isn't answered. Its recursion goes as deep as the list is nested: a caller that reads lists bounds that first.
    pub fn new(_alloc: Global, list: Vec<Policy>) -> Result<Policies, PolicyFault>
        ensures policies { IfOk result (λ policies. policies ≡ list.items) }
        ensures fault { result_err result ≡ fault_of_policies list.items }
    {
        // It takes no memory; the allocator stays in its signature (D-045).
        match fault_of(&list) {
            Some(fault) => Err(fault),
            None => Ok(Policies { list }),
        }
    }

    /// The policies, in order.
    pub fn as_slice(&self) -> &[Policy]
        ensures policies { result.now ≡ self.now }
        ensures faultless { fault_of_policies self.now ≡ None }
        ensures no_empty_list { has_empty_list (meaning self.now) ≡ false }
        ensures levels { depth_in (meaning self.now) ≤ 8 }
        ensures number { nodes_in (meaning self.now) ≤ 64 }
    {
        self.list.as_slice()
    }

    /// The policies that ask a limiter, with their limits, in the order of their numbers.
    pub fn limiters(&self, alloc: Global) -> Result<Vec<LimiterNode>, AllocError>
        ensures { IfOk result (λ found. found.items ≡ limiters (meaning self.now)) }
    {
        let mut found = Vec::new(alloc);
        put_limiters_in(self.as_slice(), 0, &mut found)?;
        Ok(found)
    }

    /// The regular expressions and the conditions in the policies, each as often as it stands there.
    pub fn expressions(&self, alloc: Global) -> Result<List<PolicyExpression>, AllocError>
        ensures { IfOk result (λ found. found ≡ expressions_in (meaning self.now)) }
    {
        let mut found = List::new(alloc);
        put_expressions_in(alloc, self.as_slice(), &mut found)?;
        Ok(found)
    }
}

impl TryClone for Policies {
    fn try_clone(&self, alloc: Global) -> Result<Policies, AllocError> {
        let mut list = Vec::new(alloc);
        for policy in &self.list {
            list.push(policy.try_clone(alloc)?)?;
        }
        Ok(Policies { list })
    }
}

fn fault_of(list: &[Policy]) -> Option<PolicyFault>
    ensures { result ≡ fault_of_policies list.now }
{
    // The shape first: so names are compared only within 64 policies and 8 levels (D-045).
    if has_empty_list(list) {
        Some(PolicyFault::EmptyList)
    } else if depth_in(list) > MOST_LEVELS {
        Some(PolicyFault::TooDeep)
    } else if count_in(list) > MOST_POLICIES {
        Some(PolicyFault::TooMany)
    } else if has_doubled_names(list) {
        Some(PolicyFault::SameName)
    } else if some_has_fault(list, LeafFault::CrossedBounds) {
        Some(PolicyFault::CrossedBounds)
    } else if some_has_fault(list, LeafFault::NoValues) {
        Some(PolicyFault::NoValues)
    } else {
        None
    }
}

/// Puts the limiter nodes of the policy of this number last, and gives the number behind the policy's own.
#[cycle(limiters)]
fn put_limiters(policy: &Policy, node: u16, found: &mut Vec<LimiterNode>) -> Result<u16, AllocError>
    requires { node + nodes (policy_meaning policy.now) ≤ 64 }
    ensures next { IfOk result (λ next. next ≡ node + nodes (policy_meaning policy.now)) }
    ensures found { IfOk result (λ next. found.new.items ≡ found.old.items ++ limits (policy_meaning policy.now) node) }
{
    match &policy.kind {
        PolicyKind::Limiting(limit) => {
            found.push(LimiterNode {
                node,
                limit: *limit,
            })?;
            Ok(node + 1)
        }
        PolicyKind::Joined { policies, .. } => put_limiters_in(
            policies.as_slice(),
            node + 1,
            found,
        ),
        _ => Ok(node + 1),
    }
}

/// Puts the limiter nodes of policies last, of which the first has this number, and gives the number behind theirs.
#[cycle(limiters)]
fn put_limiters_in(
    list: &[Policy],
    node: u16,
    found: &mut Vec<LimiterNode>,
) -> Result<u16, AllocError>
    requires { node + nodes_in (meaning list.now) ≤ 64 }
    ensures next { IfOk result (λ next. next ≡ node + nodes_in (meaning list.now)) }
    ensures found { IfOk result (λ next. found.new.items ≡ found.old.items ++ limits_in (meaning list.now) node) }
{
    let mut next = node;
    for policy in list {
        next = put_limiters(policy, next, found)?;
    }
    Ok(next)
}
