//! What is held of a trace.
use span_ids::Verdict;

/// What a shard holds of a trace, when it is asked.
#[derive(Clone, Copy, PartialEq, Eq)]
pub enum TraceHeld {
    /// It waits for its decision.
    Waiting {
        /// When its first span came, in milliseconds, by the clock of its shard.
        since: u64,
        /// How many spans it has.
        spans: u64,
    },
    /// It was decided so, and is among the last traces that came.
    Decided(Verdict),
    /// It was decided so, has left these, and a cache of decisions remembers it.
    Remembered(Verdict),
    /// It isn't known: it never came, or it was forgotten.
    Unknown,
}
