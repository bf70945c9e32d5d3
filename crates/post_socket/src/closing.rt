//! How long a backend is tried, before and once the collector closes.
ghost use Rattle.std.specs.Prelude.{◌≡◌};
ghost use Rattle.post_socket.specs.Closing.{attempt_limit, closing_since, milliseconds_asked, next_sleep, time_left};

/// The longest sleep in a wait, between two looks whether the collector closes, in milliseconds.
pub(crate) const SLICE: u64 = 50;

/// Since when the collector closes, after a look at a moment: the first look that found it so counts.
pub(crate) fn closing_since(before: Option<u64>, is_closing: bool, now: u64) -> Option<u64>
    ensures { result ≡ closing_since before is_closing now }
{
    if before.is_none() && is_closing {
        return Some(now);
    }
    before
}

/// How many milliseconds are left at a moment, once the collector closes; so many are given from then on.
pub(crate) fn time_left(since: Option<u64>, close_wait: u64, now: u64) -> Option<u64>
    ensures { result ≡ time_left since close_wait now }
{
    let since = since?;
    Some(close_wait.saturating_sub(now.saturating_sub(since)))
}

/// How long an attempt may take, which is at least a millisecond.
pub(crate) fn attempt_limit(left: Option<u64>, timeout: u64) -> u64
    ensures { result ≡ attempt_limit left timeout }
{
    let limit = match left {
        Some(left) => left.min(timeout),
        None => timeout,
    };
    limit.max(1)
}

/// How long is slept next in a wait of which this much has passed; `None`: it is over.
pub(crate) fn next_sleep(milliseconds: u64, waited: u64, left: Option<u64>) -> Option<u64>
    ensures { result ≡ next_sleep milliseconds waited left }
{
    if milliseconds <= waited || left == Some(0) {
        return None;
    }
    Some((milliseconds - waited).min(SLICE))
}

/// What a backend asked for, in milliseconds.
pub(crate) fn milliseconds_asked(seconds: Option<u64>) -> Option<u64>
    ensures { result ≡ milliseconds_asked seconds }
{
    match seconds {
        Some(seconds) => Some(seconds.saturating_mul(1000)),
        None => None,
    }
}
