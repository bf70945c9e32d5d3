//! What a shard is made with.
ghost use Rattle.std.specs.Prelude.{◌≡◌, ◌<◌, [], false, replicate, IfOk};
ghost use Rattle.decision_cache.specs.Lists.{empty_lists};

use decision_cache::DecisionCache;
use span_ids::Moment;
use std::alloc::{AllocError, Global};
use trace_buffer::TraceBuffer;
use trace_hash::TraceHashing;

/// How long the traces of a shard wait, and how large they may grow.
#[derive(Clone, Copy)]
pub struct Waits {
    /// How long a trace waits for its decision, in milliseconds.
    pub decision_wait: Moment,
    /// How long a trace waits once its first root was taken, in milliseconds; 0 is off.
    pub root_wait: Moment,
    /// The greatest size of a trace that waits, in bytes of its spans; 0 is none. One that grows beyond it is decided
    /// at once.
    pub maximum_trace_size: u64,
}

/// What a shard is made with, beside its policies.
#[derive(Clone, Copy)]
pub struct ShardSetup {
    /// How the index of traces and the caches hash trace ids.
    pub hashing: TraceHashing,
    /// How long its traces wait, and how large they may grow.
    pub waits: Waits,
    /// The most traces in the buffer.
    pub num_traces: usize,
    /// The most traces that are remembered as sampled once they left the buffer; 0 is off.
    pub sampled_cache_size: usize,
    /// The same of those that are not sampled.
    pub non_sampled_cache_size: usize,
    /// Senders have the numbers below this one.
    pub senders: usize,
}

impl ShardSetup {
    /// What a shard is made with of which no more is asked: its traces wait so many milliseconds, whatever they hold; it
    /// has room for so many, and remembers no decision; and all hash trace ids alike. Tests change what they are about.
    pub fn plain(decision_wait: Moment, num_traces: usize, senders: usize) -> ShardSetup
        ensures { result ≡ record {
          hashing = TraceHashing.Fixed;
          waits = record { decision_wait = decision_wait; root_wait = 0; maximum_trace_size = 0 };
          num_traces = num_traces;
          sampled_cache_size = 0;
          non_sampled_cache_size = 0;
          senders = senders;
        } }
    {
        ShardSetup {
            hashing: TraceHashing::Fixed,
            waits: Waits {
                decision_wait,
                root_wait: 0,
                maximum_trace_size: 0,
            },
            num_traces,
            sampled_cache_size: 0,
            non_sampled_cache_size: 0,
            senders,
        }
    }
}

/// The buffer and the cache of a shard that has taken nothing, and which of its senders have ended: none.
pub(crate) fn nothing_held(
    alloc: Global,
    setup: ShardSetup,
) -> Result<(TraceBuffer, DecisionCache, Vec<bool>), AllocError>
    requires { 0 < setup.num_traces }
    ensures buffer { IfOk result (λ held. held.0 ≡ record { episodes = []; num_traces = setup.num_traces }) }
    ensures cache { IfOk result (λ held. held.1 ≡ empty_lists setup.sampled_cache_size setup.non_sampled_cache_size) }
    ensures ends { IfOk result (λ held. held.2.items ≡ replicate setup.senders false) }
{
    let ends = vec![in alloc; false; setup.senders]?;
    let cache = DecisionCache::new(
        alloc,
        setup.hashing,
        setup.sampled_cache_size,
        setup.non_sampled_cache_size,
    )?;
    let buffer = TraceBuffer::new(alloc, setup.hashing, setup.num_traces)?;
    Ok((buffer, cache, ends))
}
