//! What searches for the expressions of policies.
ghost use Rattle.std.specs.Prelude.{◌≡◌, true, IfOk};
ghost use Rattle.policy_eval.specs.Searches.{are_known};
ghost use Rattle.policy_tree.specs.Expressions.{expressions_in};
ghost use Rattle.policy_tree.specs.Meaning.{meaning};

use crate::searches::Searches;
use policy_tree::Policies;
use std::alloc::{AllocError, Global};

/// What searches for the expressions of these policies. `Err` where memory was refused, or a text is no expression.
pub fn searches_for(alloc: Global, policies: &Policies) -> Result<Searches, AllocError>
    ensures { IfOk result (λ searches. are_known searches (expressions_in (meaning policies.now)) ≡ true) }
{
    let expressions = policies.expressions(alloc)?;
    // Once for a shard: policies hold texts and nothing compiled, so that they can be compared (D-048).
    let mut searches = Searches::new(alloc);
    for expression in expressions.as_slice() {
        searches.add(alloc, expression)?;
    }
    Ok(searches)
}
