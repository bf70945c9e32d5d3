//! How attempts and deliveries end.

/// How an attempt ended.
#[derive(Clone, Copy, PartialEq, Eq)]
pub enum AttemptOutcome {
    /// It was answered with this status, and asked to wait for this number of milliseconds, or for none.
    Answered(u16, Option<u64>),
    /// It was not answered: there was no connection, it broke, or its time was over.
    NoAnswer,
}

/// What became of a batch.
#[derive(Clone, Copy, PartialEq, Eq)]
pub enum BatchFate {
    /// The backend took it: it answered 200.
    Delivered,
    /// It was given up.
    GivenUp,
}
