//! A shard with a limiter of its own.
ghost use Rattle.std.specs.Prelude.{◌≡◌, ◌<◌, true, false};
ghost use Rattle.plain_shards.specs.Plain.{HasNodes};
ghost use Rattle.shard_core.specs.Held.{has_due, is_finished};
ghost use Rattle.journal_theory.specs.Journal.{has_ids};

use otlp_types::Item;
use policy_tree::Policies;
use rate_budget::Budgets;
use shard_core::{Decided, Shard, ShardSetup, Taken};
use std::alloc::{AllocError, Global};

/// The numbers that a shard is made with: times in milliseconds, sizes in traces.
#[derive(Clone, Copy)]
pub struct Numbers {
    pub decision_wait: u64,
    pub root_wait: u64,
    pub maximum_trace_size: u64,
    pub num_traces: usize,
    pub sampled: usize,
    pub non_sampled: usize,
    pub senders: usize,
    ghost waits: { 0 < decision_wait },
    ghost keeps_a_trace: { 0 < num_traces },
    ghost has_senders: { 0 < senders },
}

/// A shard, and the limiter that it asks, which is one of its policies.
#[derive(Drop)]
pub struct LimitedShard {
    shard: Shard,
    limiter: Budgets,
    ghost nodes: { HasNodes limiter shard.policies },
}

impl LimitedShard {
    /// A shard that has taken nothing, and a limiter that has not been asked.
    pub fn new(
        alloc: Global,
        policies: Policies,
        numbers: Numbers,
    ) -> Result<LimitedShard, AllocError> {
        let limiter = Budgets::new(alloc, &policies)?;
        let mut setup = ShardSetup::plain(
            numbers.decision_wait,
            numbers.num_traces,
            numbers.senders,
        );
        setup.waits.root_wait = numbers.root_wait;
        setup.waits.maximum_trace_size = numbers.maximum_trace_size;
        setup.sampled_cache_size = numbers.sampled;
        setup.non_sampled_cache_size = numbers.non_sampled;
        let shard = Shard::new(alloc, policies, setup)?;
        Ok(LimitedShard { shard, limiter })
    }

    pub fn has_due(&self) -> bool
        ensures { result ≡ has_due self.now.shard }
    {
        self.shard.has_due()
    }

    pub fn finished(&self) -> bool
        ensures { result ≡ is_finished self.now.shard }
    {
        self.shard.finished()
    }

    pub fn take(&mut self, item: Item) -> Taken
        requires nothing_due { has_due self.old.shard ≡ false }
        requires running { is_finished self.old.shard ≡ false }
        requires ids { has_ids item ≡ true }
    {
        self.shard.take(item, true)
    }

    pub fn decide(&mut self) -> Decided {
        self.shard.decide(&mut self.limiter)
    }
}
