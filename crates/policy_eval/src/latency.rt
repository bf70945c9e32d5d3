//! The duration of a trace, and the bounds of the latency and span count policies.
ghost use Rattle.std.specs.Prelude.{◌≡◌};
ghost use Rattle.policy_eval.specs.Policies.{latest_end, earliest_start, duration_ms, is_slow, is_within};

use otlp_types::Arrival;

/// Whether the spans' latency, in milliseconds, is within its bounds.
pub fn is_slow(threshold: u64, upper: u64, spans: &[Arrival]) -> bool
    ensures { result ≡ is_slow threshold upper (duration_ms spans.now) }
{
    let duration = latest_end(spans).saturating_sub(earliest_start(spans)) / 1_000_000;
    // As in the processor: where there is an upper bound, the lower one itself is too fast.
    if upper == 0 {
        threshold <= duration
    } else {
        threshold < duration && duration <= upper
    }
}

fn latest_end(spans: &[Arrival]) -> u64
    ensures { result ≡ latest_end spans.now }
{
    let mut latest = 0;
    for arrival in spans {
        latest = arrival.rec.span.get().end_time_unix_nano.max(latest);
    }
    latest
}

fn earliest_start(spans: &[Arrival]) -> u64
    ensures { result ≡ earliest_start spans.now }
{
    let Some((first, rest)) = spans.split_first() else {
        return 0;
    };
    let mut earliest = first.rec.span.get().start_time_unix_nano;
    for arrival in rest {
        earliest = arrival.rec.span.get().start_time_unix_nano.min(earliest);
    }
    earliest
}

/// Whether a number is within its bounds, where a greatest one of 0 is none.
pub fn is_within(least: u64, most: u64, number: u64) -> bool
    ensures { result ≡ is_within least most number }
{
    least <= number && (most == 0 || number <= most)
}
