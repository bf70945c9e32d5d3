//! What is told of a trace that was decided, or evicted.
use span_ids::{TraceId, Verdict};

/// What a policy said of a trace (tailsamplingprocessor README, sampling decisions).
#[derive(Clone, Copy, Debug, PartialEq, Eq)]
pub enum Said {
    /// The trace is sampled.
    Sampled,
    /// The trace isn't sampled by this policy.
    NotSampled,
    /// The trace is sampled, as the policy's condition is inverted.
    InvertedSampled,
    /// The trace isn't sampled, whatever other policies say, as the policy's condition is inverted.
    InvertedNotSampled,
    /// The trace is dropped, whatever other policies say.
    Dropped,
    /// The policy wasn't asked.
    NotAsked,
}

impl Default for Said {
    /// Nothing is said yet.
    fn default() -> Self {
        Said::NotAsked
    }
}

/// Why a trace was decided when it was.
#[derive(Clone, Copy, Debug, PartialEq, Eq)]
pub enum DueCause {
    /// It had waited as long as traces wait.
    Wait,
    /// Its root had come, and it had waited as long as traces wait then.
    RootWait,
    /// Its spans had more bytes than a trace may have (`maximum_trace_size_bytes`).
    Size,
    /// The collector closed.
    Close,
}

/// A trace that was decided. Moments are milliseconds, by the clock of its shard.
#[derive(Clone, Copy)]
pub struct DecidedTrace {
    pub trace: TraceId,
    /// When it was decided.
    pub moment: u64,
    /// When its first span came.
    pub opened: u64,
    /// How many spans it had then.
    pub spans: u64,
    /// What was decided.
    pub verdict: Verdict,
    /// Why it was decided then.
    pub cause: DueCause,
    /// The place of the policy that decided among the policies, from 0, where one did.
    pub decider: Option<usize>,
}

/// A trace that left the full buffer undecided.
#[derive(Clone, Copy)]
pub struct EvictedTrace {
    pub trace: TraceId,
    /// When it left, in milliseconds, by the clock of its shard.
    pub moment: u64,
    /// How many spans it had then.
    pub spans: u64,
}

/// Spans of one trace that came after it was decided, one after the other.
#[derive(Clone, Copy)]
pub struct LateSpans {
    pub trace: TraceId,
    /// When the last of them came, in milliseconds, by the clock of its shard.
    pub moment: u64,
    /// The verdict that they met: sampled ones are handed over.
    pub verdict: Verdict,
    /// How many they are.
    pub spans: u64,
}
