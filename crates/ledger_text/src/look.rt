//! What was found in a ledger's folder.
use line_entries::TakenRequest;

/// The numbers of what is in a folder. A request is pending if one of its spans has no end, a trace if one of its spans is.
#[derive(Clone, Copy, PartialEq, Eq)]
pub struct LedgerNumbers {
    /// Runs of which there are files.
    pub runs: u64,
    /// Segments of which there are files.
    pub segments: u64,
    /// Files of requests and of notes.
    pub files: u64,
    /// Of these, those whose end isn't read.
    pub cut_files: u64,
    /// Bytes of all of them.
    pub bytes: u64,
    /// Requests, pending or not.
    pub requests: u64,
    /// Requests that are pending.
    pub pending_requests: u64,
    /// Spans that have no end.
    pub pending_spans: u64,
    /// Traces of these spans.
    pub pending_traces: u64,
    /// When the first of the pending requests came, in milliseconds since 1970, if one is pending.
    pub oldest: Option<u64>,
    /// When the last of them came.
    pub newest: Option<u64>,
}

/// What was found.
#[derive(Drop)]
pub struct LedgerLook {
    pub numbers: LedgerNumbers,
    /// What is pending, in the order in which it would be received again: with each request its pending spans alone.
    pub requests: Vec<TakenRequest>,
}
