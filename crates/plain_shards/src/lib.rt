//! Shards of one policy, each with a limiter of its own, and what they take: for tests, and for programs that measure.
#![tactic(auto)]

ghost use Rattle.std.specs.Prelude.{◌<◌, IfOk};
ghost use Rattle.plain_shards.specs.Plain.{HasTakenNothing};

mod items;
mod lists;

pub use items::{Event, event_item, span_item};
pub use lists::{one_policy, policy_on};
use policy_tree::PolicyKind;
use rate_budget::Budgets;
use shard_core::{Shard, ShardSetup};
use std::alloc::{AllocError, Global};

/// A shard that decides by one policy of this kind, when a trace has waited so many milliseconds; it has room for so
/// many traces, and remembers no decision. Beside it the limiter of that policy. `AllocError` where the policy is
/// refused, too.
pub fn plain_shard(
    alloc: Global,
    kind: PolicyKind,
    decision_wait: u64,
    traces: usize,
    senders: usize,
) -> Result<(Shard, Budgets), AllocError>
    requires waits { 0 < decision_wait }
    requires keeps_a_trace { 0 < traces }
    requires has_senders { 0 < senders }
    ensures { IfOk result (λ made. HasTakenNothing made.0 made.1) }
{
    let policies = one_policy(alloc, kind)?;
    let limiter = Budgets::new(alloc, &policies)?;
    let shard = Shard::new(
        alloc,
        policies,
        ShardSetup::plain(decision_wait, traces, senders),
    )?;
    Ok((shard, limiter))
}
