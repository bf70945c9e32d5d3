//! How the shards of a configuration are made.
ghost use Rattle.std.specs.Prelude.{◌≡◌, All, length, vec_len, IfOk};
ghost use Rattle.config_shards.specs.Shards.{CanMakeShards, IsNewShard};

use otlp_types::TryClone;
use shard_core::{Shard, ShardSetup, Waits};
use std::alloc::{AllocError, Global};
use trace_hash::TraceHashing;
use tsc_config::Config;

/// The shards of a configuration, which have taken nothing.
pub fn new_shards(
    alloc: Global,
    hashing: TraceHashing,
    config: &Config,
) -> Result<Vec<Shard>, AllocError>
    requires ranges { CanMakeShards config.now }
    ensures count { IfOk result (λ made. vec_len made ≡ config.now.shards) }
    ensures length { IfOk result (λ made. length made.items ≡ config.now.shards) }
    ensures new { IfOk result (λ made. All (IsNewShard config.now) made.items) }
{
    let mut made = Vec::with_capacity(alloc, config.shards)?;
    for _shard in 0..config.shards {
        made.push_reserved(new_shard(alloc, hashing, config)?);
    }
    Ok(made)
}

/// A shard with its share of the traces and of the caches, whose senders are the lanes and the ticker.
fn new_shard(alloc: Global, hashing: TraceHashing, config: &Config) -> Result<Shard, AllocError>
    requires ranges { CanMakeShards config.now }
    ensures { IfOk result (IsNewShard config.now) }
{
    let policies = config.policies.try_clone(alloc)?;
    let setup = ShardSetup {
        hashing,
        waits: Waits {
            decision_wait: config.decision_wait,
            root_wait: config.root_wait,
            maximum_trace_size: config.maximum_trace_size,
        },
        num_traces: config.traces_per_shard(),
        sampled_cache_size: config.sampled_cache_per_shard(),
        non_sampled_cache_size: config.non_sampled_cache_per_shard(),
        // The lanes, and the ticker, which has the number of lanes (D-094).
        senders: config.lanes as usize + 1,
    };
    Shard::new(alloc, policies, setup)
}
