//! Whether two policies of one list have the same name.
ghost use Rattle.std.specs.Prelude.{◌≡◌, map};
ghost use Rattle.policy_tree.specs.Faults.{named, has_name, has_same_names, has_doubled_names};

use crate::policy::{Policy, PolicyKind};

/// Whether two policies of a list inside the policy have the same name.
#[cycle(names)]
fn has_doubled_names_inside(policy: &Policy) -> bool
    ensures { result ≡ (named policy.now).doubled }
{
    match &policy.kind {
        PolicyKind::Joined { policies, .. } => has_doubled_names(policies.as_slice()),
        _ => false,
    }
}

/// Whether two policies of the list, or of a list inside it, have the same name.
#[cycle(names)]
pub fn has_doubled_names(list: &[Policy]) -> bool
    ensures { result ≡ has_doubled_names list.now }
{
    if has_same_names(list) {
        return true;
    }
    for policy in list {
        if has_doubled_names_inside(policy) {
            return true;
        }
    }
    false
}

fn has_same_names(list: &[Policy]) -> bool
    ensures { result ≡ has_same_names (map named list.now) }
{
    let mut left = list;
    while let Some((first, rest)) = left.split_first() {
        if has_name(rest, first.name.as_str()) {
            return true;
        }
        left = rest;
    }
    false
}

fn has_name(list: &[Policy], name: &str) -> bool
    ensures { result ≡ has_name name.now (map named list.now) }
{
    for policy in list {
        if policy.name.as_str() == name {
            return true;
        }
    }
    false
}
