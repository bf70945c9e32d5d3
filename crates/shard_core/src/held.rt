//! What a shard holds of one trace.
ghost use Rattle.std.specs.Prelude.{◌≡◌, option_copied};
ghost use Rattle.decision_cache.specs.Lists.{asked};
ghost use Rattle.shard_core.specs.HeldTrace.{held_by, held_in_cache};

use decision_cache::DecisionCache;
use decision_line::TraceHeld;
use span_ids::{TraceId, Verdict};
use trace_buffer::Episode;

/// What is held of a trace: what its episode in the buffer tells, else what a cache remembers.
pub(crate) fn held_by(episode: Option<&Episode>, cache: &DecisionCache, trace: TraceId) -> TraceHeld
    ensures { result ≡ held_by (option_copied episode.entry) (asked trace cache.now) }
{
    let Some(episode) = episode else {
        return held_in_cache(cache.peek(trace));
    };
    match episode.verdict() {
        Some(verdict) => TraceHeld::Decided(verdict),
        None => TraceHeld::Waiting {
            since: episode.moment(),
            spans: episode.spans().len() as u64,
        },
    }
}

/// What is held of a trace without an episode, by what a cache remembers of it.
fn held_in_cache(remembered: Option<Verdict>) -> TraceHeld
    ensures { result ≡ held_in_cache remembered }
{
    match remembered {
        Some(verdict) => TraceHeld::Remembered(verdict),
        None => TraceHeld::Unknown,
    }
}
