//! What a shard is made with.
ghost use Rattle.std.specs.Prelude.{◌≡◌, None};

use policy_tree::Policies;
use span_ids::Moment;

/// The settings of a shard.
#[derive(Drop)]
pub struct Settings {
    pub policies: Policies,
    /// How long a trace waits for its decision, in milliseconds.
    pub decision_wait: Moment,
    /// How long after its first root a trace is due, where that is sooner, in milliseconds: 0 is off.
    pub root_wait: Moment,
    /// The greatest size of a trace, in bytes: 0 is none.
    pub maximum_trace_size: u64,
    /// The most traces in the buffer: `None` is no limit.
    pub num_traces: Option<usize>,
    /// For how many traces decided as sampled the cache has room: 0 is off.
    pub sampled_cache_size: usize,
    /// For how many traces decided as not sampled the cache has room: 0 is off.
    pub non_sampled_cache_size: usize,
    /// The senders have the numbers below.
    pub senders: usize,
}

impl Settings {
    /// These policies, this wait in milliseconds and so many senders; the rest is off or without a limit. Tests change
    /// what they are about.
    pub fn plain(policies: Policies, decision_wait: Moment, senders: usize) -> Settings
        ensures { result ≡ record {
          policies = policies;
          decision_wait = decision_wait;
          root_wait = 0;
          maximum_trace_size = 0;
          num_traces = None;
          sampled_cache_size = 0;
          non_sampled_cache_size = 0;
          senders = senders;
        } }
    {
        Settings {
            policies,
            decision_wait,
            root_wait: 0,
            maximum_trace_size: 0,
            num_traces: None,
            sampled_cache_size: 0,
            non_sampled_cache_size: 0,
            senders,
        }
    }
}
