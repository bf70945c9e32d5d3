//! How a trace ended.
ghost use Rattle.std.specs.Prelude.{◌≡◌, map, option_map, string_bytes};
ghost use Rattle.run_comparison.specs.Ends.{decided_end, end_behind, evicted_end, policy_of};

use decision_line::{DecidedTrace, DueCause, EvictedTrace};
use span_ids::Verdict;

/// How a trace's last stay in the buffer ended.
#[derive(Clone, Copy)]
pub enum HowEnded {
    /// It was decided.
    Decided {
        /// What was decided.
        verdict: Verdict,
        /// Why it was decided then.
        cause: DueCause,
        /// The place of the policy that decided among the policies, from 0, where one did.
        decider: Option<usize>,
    },
    /// It left the full buffer undecided.
    Evicted,
}

/// The last end of a trace.
#[derive(Clone, Copy)]
pub struct TraceEnd {
    /// How it ended.
    pub how: HowEnded,
    /// How many spans it had then.
    pub spans: u64,
    /// When, in milliseconds, by the clock of its shard.
    pub moment: u64,
    /// Whether this or an earlier decision kept the trace.
    pub kept: bool,
}

impl TraceEnd {
    /// This end behind an earlier one of the same trace, where there was one: a trace that was kept once stays kept.
    pub fn behind(self, earlier: Option<TraceEnd>) -> TraceEnd
        ensures { result ≡ end_behind earlier self }
    {
        let kept = match earlier {
            Some(earlier) => earlier.kept || self.kept,
            None => self.kept,
        };
        TraceEnd { kept, ..self }
    }

    /// The name of the policy that decided, where one did, of the names of all.
    pub fn policy<'a>(&self, names: &'a [String]) -> Option<&'a str>
        ensures { option_map (λ name. name.now) result ≡ policy_of self.now (map string_bytes names.now) }
    {
        match self.how {
            HowEnded::Decided {
                decider: Some(place),
                ..
            } => Some(names.get(place)?.as_str()),
            _ => None,
        }
    }
}

/// The end of a trace that was decided.
pub fn decided_end(decision: &DecidedTrace) -> TraceEnd
    ensures { result ≡ decided_end decision.now }
{
    TraceEnd {
        how: HowEnded::Decided {
            verdict: decision.verdict,
            cause: decision.cause,
            decider: decision.decider,
        },
        spans: decision.spans,
        moment: decision.moment,
        kept: matches!(decision.verdict, Verdict::Sampled),
    }
}

/// The end of a trace that was evicted.
pub fn evicted_end(evicted: &EvictedTrace) -> TraceEnd
    ensures { result ≡ evicted_end evicted.now }
{
    TraceEnd {
        how: HowEnded::Evicted,
        spans: evicted.spans,
        moment: evicted.moment,
        kept: false,
    }
}
