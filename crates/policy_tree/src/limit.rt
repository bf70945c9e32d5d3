//! How much a limiter grants (tailsamplingprocessor README, `rate_limiting`, `bytes_limiting`).

/// How much a limiter grants, and of what.
#[derive(Clone, Copy, PartialEq, Eq)]
pub enum Limit {
    /// The most spans in each second.
    Spans { per_second: u64 },
    /// Bytes out of a bucket that holds `burst` of them, is full at first, and gets `per_second` back with each second.
    Bytes { per_second: u64, burst: u64 },
}
