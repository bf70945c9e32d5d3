//! What a shard answers to a span that is to wait.
ghost use Rattle.std.specs.Prelude.{◌≡◌, true, IfOk};
ghost use Rattle.shard_core.specs.Holding.{KeepsAs, OpensAs, answer_to_append, leaves_forgotten};

use crate::answer::Taken;
use decision_cache::DecisionCache;
use otlp_types::Arrival;
use span_ids::Reason;
use std::alloc::AllocError;
use trace_buffer::Evicted;

/// What is answered to a span that was appended to its trace's episode, or found no memory.
pub fn appended(done: Result<(), (Arrival, AllocError)>) -> Taken
    ensures { result ≡ answer_to_append done }
{
    match done {
        Ok(()) => Taken::Kept {
            evicted: None,
            cache: None,
        },
        Err(_) => Taken::Dropped(Reason::NoMemory),
    }
}

/// What is answered to a span that opened an episode, or found no memory.
pub fn opened(
    cache: &mut DecisionCache,
    done: Result<Option<Evicted>, (Arrival, AllocError)>,
) -> Taken
    requires { IfOk done (λ evicted. leaves_forgotten evicted cache.old ≡ true) }
    ensures { OpensAs done cache.old result cache.new }
{
    match done {
        Ok(evicted) => keep(cache, evicted),
        Err(_back) => Taken::Dropped(Reason::NoMemory),
    }
}

/// What is answered to a span that opened an episode: the verdict of a decided episode that left is put.
fn keep(cache: &mut DecisionCache, evicted: Option<Evicted>) -> Taken
    requires { leaves_forgotten evicted cache.old ≡ true }
    ensures { KeepsAs evicted cache.old result cache.new }
{
    let Some(left) = evicted else {
        return Taken::Kept {
            evicted: None,
            cache: None,
        };
    };
    let Some(verdict) = left.verdict else {
        return Taken::Kept {
            evicted: Some(left),
            cache: None,
        };
    };
    // It may be lost for want of memory, or the cache be off: nothing else changes then (D-075, D-076).
    let put = cache.remember(left.trace, verdict);
    Taken::Kept {
        evicted: Some(left),
        cache: Some(put),
    }
}
