//! The numbers that are told.
use drop_ledger::Report;

/// What had become of the spans at a moment.
#[derive(Clone, Copy)]
pub struct HistoryRow {
    /// The moment, in milliseconds since 1970.
    pub at: u64,
    /// How many spans had been received, handed over, and given up for each reason.
    pub report: Report,
}

/// What waits for a backend to which batches are sent.
#[derive(Clone, Copy)]
pub struct Backlog {
    /// How many spans have left their shards, and were neither handed over nor given up.
    pub waiting: u64,
    /// For how many whole seconds the batch that is sent now has been under way; 0 where none is.
    pub under_way: u64,
    /// How many tries to send that batch have failed.
    pub failed_tries: u64,
    /// How many batches were given up.
    pub given_up: u64,
}

/// What has become of the spans so far.
#[derive(Clone, Copy)]
pub struct Status {
    /// The moment, in milliseconds since 1970.
    pub now: u64,
    /// How many spans were received, handed over, and given up for each reason.
    pub report: Report,
    /// How many spans wait: they were received, and were neither handed over nor given up.
    pub waiting: u64,
    /// What waits for the backend, where there is one.
    pub backlog: Option<Backlog>,
}
