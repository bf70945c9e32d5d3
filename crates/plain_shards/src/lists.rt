//! Lists of one policy.
use otlp_types::{List, Text};
use policy_tree::{Leaf, Policies, Policy, PolicyKind};
use std::alloc::{AllocError, Global};

/// One policy of this kind. `AllocError` where the policy is refused, too.
pub fn one_policy(alloc: Global, kind: PolicyKind) -> Result<Policies, AllocError> {
    let policy = Policy {
        name: Text::from_str(alloc, "one")?,
        kind,
    };
    match Policies::new(alloc, vec![in alloc; policy]?) {
        Ok(policies) => Ok(policies),
        Err(_) => Err(AllocError),
    }
}

/// One policy: on this status code, or one that samples each trace.
pub fn policy_on(alloc: Global, code: Option<i32>) -> Result<Policies, AllocError> {
    let kind = match code {
        None => PolicyKind::Leaf(Leaf::AlwaysSample),
        Some(code) => PolicyKind::Leaf(Leaf::StatusCode {
            codes: List::from_vec(vec![in alloc; code]?),
        }),
    };
    one_policy(alloc, kind)
}
