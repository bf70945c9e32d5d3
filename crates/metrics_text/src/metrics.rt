//! The numbers that are told.
use drop_ledger::Report;
use otlp_types::Text;

/// The numbers of a collector at one moment.
#[derive(Clone, Copy, PartialEq, Eq)]
pub struct Metrics {
    /// How many spans were received, handed over, and given up for each reason.
    pub report: Report,
    /// How many connections are open.
    pub open_connections: u64,
    /// For how many seconds the collector has been at work.
    pub uptime_seconds: u64,
    /// How many spans wait: they were received, and were neither handed over nor given up.
    pub spans_waiting: u64,
    /// How many bytes came from clients.
    pub received_bytes: u64,
    /// How many bytes of answers there were.
    pub sent_bytes: u64,
    /// How many lines the output took whole.
    pub lines: u64,
    /// How many bytes the output took.
    pub output_bytes: u64,
    /// How much memory the process takes, in bytes.
    pub memory_bytes: u64,
    /// How many requests were answered 200.
    pub answered_200: u64,
    /// How many requests were answered 400.
    pub answered_400: u64,
    /// How many requests were answered 404.
    pub answered_404: u64,
    /// How many requests were answered 405.
    pub answered_405: u64,
    /// How many requests were answered 408.
    pub answered_408: u64,
    /// How many requests were answered 413.
    pub answered_413: u64,
    /// How many requests were answered 415.
    pub answered_415: u64,
    /// How many requests were answered 431.
    pub answered_431: u64,
    /// How many requests were answered 503.
    pub answered_503: u64,
    /// How many spans came to a trace that was decided before as sampled.
    pub late_sampled: u64,
    /// How many spans came to a trace that was decided before as not sampled.
    pub late_not_sampled: u64,
    /// How many spans of lines that were delivered the backend rejected.
    pub rejected: u64,
    /// How many attempts to send a line were answered 200.
    pub attempts_taken: u64,
    /// How many attempts to send a line were answered otherwise.
    pub attempts_refused: u64,
    /// How many attempts to send a line had no answer.
    pub attempts_unanswered: u64,
    /// For how many seconds the write or delivery has been under way that is now; 0 where none is.
    pub output_stalled_seconds: u64,
    /// For how many seconds the trace has waited that has waited the longest, as the shards told last; 0 where none waits.
    pub oldest_waiting_seconds: u64,
    /// How many lines of the log warned.
    pub log_warnings: u64,
    /// How many lines of the log told an error.
    pub log_errors: u64,
    /// How often the wall clock was seen to jump.
    pub clock_jumps: u64,
    /// How many connections were closed for others, since they had waited the longest.
    pub closed_idle: u64,
    /// How many spans came of which attributes were left out, by their sender or as they hold a double.
    pub incomplete: u64,
}

/// What a policy decided.
#[derive(Drop)]
pub struct PolicyNumbers {
    /// Its name; no text stands for the traces that no policy decided.
    pub name: Text,
    /// Of a policy whose name is empty, its place in the configuration, from 0 on.
    pub place: Option<usize>,
    /// How many traces it decided as sampled.
    pub sampled: u64,
    /// How many traces it decided as not sampled.
    pub not_sampled: u64,
}

/// What a shard holds, as it told last.
#[derive(Clone, Copy, PartialEq, Eq)]
pub struct ShardNumbers {
    /// How many items wait in its queues.
    pub queued: u64,
    /// How many traces wait for their decision.
    pub traces: u64,
    /// How many spans these traces have.
    pub spans: u64,
}
