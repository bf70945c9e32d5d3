//! How many policies a tree has, how deep it is, and whether some list of it is empty.
ghost use Rattle.std.specs.Prelude.{◌≡◌, min};
ghost use Rattle.policy_tree.specs.Tree.{nodes, nodes_in, depth, depth_in, has_empty_inside, has_empty_list};
ghost use Rattle.policy_tree.specs.Meaning.{meaning, policy_meaning};

use crate::policy::{Policy, PolicyKind};

impl Policy {
    /// How many policies there are in this one, itself too, where they are fewer than 2^64.
    pub fn count(&self) -> usize
        ensures { result ≡ min (nodes (policy_meaning self.now)) usize.MAX }
    {
        measure(self).number
    }
}

/// Whether a list inside the policy has no part.
#[cycle(empty)]
fn has_empty_inside(policy: &Policy) -> bool
    ensures { result ≡ has_empty_inside (policy_meaning policy.now) }
{
    match &policy.kind {
        PolicyKind::Joined { policies, .. } => has_empty_list(policies.as_slice()),
        _ => false,
    }
}

/// Whether the list is empty, or one inside it.
#[cycle(empty)]
#[tactic(auto, using(crate::proofs::Lists::list_is_empty))]
pub fn has_empty_list(list: &[Policy]) -> bool
    ensures { result ≡ has_empty_list (meaning list.now) }
{
    if list.is_empty() {
        return true;
    }
    for policy in list {
        if has_empty_inside(policy) {
            return true;
        }
    }
    false
}

/// How deep and how many policies are, each number at most 2^64 - 1.
#[derive(Clone, Copy)]
struct Size {
    levels: usize,
    number: usize,
}

/// The size of this policy, itself too.
#[cycle(measure)]
fn measure(policy: &Policy) -> Size
    ensures levels { result.levels ≡ min (depth (policy_meaning policy.now)) usize.MAX }
    ensures number { result.number ≡ min (nodes (policy_meaning policy.now)) usize.MAX }
{
    match &policy.kind {
        PolicyKind::Joined { policies, .. } => {
            let inside = measure_in(policies.as_slice());
            Size {
                levels: inside.levels.saturating_add(1),
                number: inside.number.saturating_add(1),
            }
        }
        _ => Size {
            levels: 1,
            number: 1,
        },
    }
}

/// The size of all of these together.
#[cycle(measure)]
fn measure_in(list: &[Policy]) -> Size
    ensures levels { result.levels ≡ min (depth_in (meaning list.now)) usize.MAX }
    ensures number { result.number ≡ min (nodes_in (meaning list.now)) usize.MAX }
{
    let mut levels = 0usize;
    let mut number = 0usize;
    for policy in list {
        let one = measure(policy);
        levels = levels.max(one.levels);
        number = number.saturating_add(one.number);
    }
    Size { levels, number }
}

/// How many levels of policies there are in these.
pub fn depth_in(list: &[Policy]) -> usize
    ensures { result ≡ min (depth_in (meaning list.now)) usize.MAX }
{
    measure_in(list).levels
}

/// How many policies there are in all of these.
pub fn count_in(list: &[Policy]) -> usize
    ensures { result ≡ min (nodes_in (meaning list.now)) usize.MAX }
{
    measure_in(list).number
}
