//! Runs that are told decisions.
use decision_line::{DecidedTrace, DueCause, EvictedTrace};
use otlp_flatten::flatten;
use otlp_json::decode;
use otlp_types::Arrival;
use run_comparison::KeptRun;
use span_ids::{ArrivalKey, ConnKey, TraceId, Verdict};
use std::alloc::{AllocError, Global};
use std::test::Fail;

/// The spans of a request in JSON.
pub fn spans_of(alloc: Global, request: &str) -> Result<Vec<Arrival>, Fail> {
    let request = decode(alloc, false, request.as_bytes())?;
    let mut spans = Vec::new(alloc);
    for rec in flatten(alloc, request)? {
        let conn = ConnKey {
            lane: 0,
            ordinal: 0,
        };
        let key = ArrivalKey { conn, number: 0 };
        spans.push(Arrival {
            key,
            moment: 0,
            rec,
        })?;
    }
    Ok(spans)
}

/// A trace by the last digit of its id.
pub fn trace_of(digit: u8) -> Option<TraceId> {
    TraceId::from_bytes(&[0, 0, 0, 0, 0, 0, 0, 0, 0, 0, 0, 0, 0, 0, 0, digit])
}

/// A decision on a trace.
pub fn decision_of(
    trace: TraceId,
    moment: u64,
    spans: u64,
    decider: Option<usize>,
    verdict: Verdict,
) -> DecidedTrace {
    DecidedTrace {
        trace,
        moment,
        opened: 0,
        spans,
        verdict,
        cause: DueCause::Wait,
        decider,
    }
}

/// The names of policies.
pub fn names_of(alloc: Global, names: &[&str]) -> Result<Vec<String>, AllocError> {
    let mut copies = Vec::new(alloc);
    for name in names {
        copies.push(String::from_str(alloc, *name)?)?;
    }
    Ok(copies)
}

/// Two spans of the cart and one of a resource without a name, of trace 1.
pub fn three_spans() -> &'static str {
    r#"{"resourceSpans":[{"resource":{"attributes":[{"key":"a","value":{"stringValue":"b"}},{"key":"service.name","value":{"stringValue":"cart"}}]},"scopeSpans":[{"spans":[{"name":"a","spanId":"eee19b7ec3c1b174","traceId":"00000000000000000000000000000001"},{"name":"<bc>","spanId":"eee19b7ec3c1b175","traceId":"00000000000000000000000000000001"}]}]},{"scopeSpans":[{"spans":[{"spanId":"eee19b7ec3c1b176","traceId":"00000000000000000000000000000001"}]}]}]}"#
}

/// A late span of the cart, of trace 1.
pub fn late_span() -> &'static str {
    r#"{"resourceSpans":[{"resource":{"attributes":[{"key":"service.name","value":{"stringValue":"cart"}}]},"scopeSpans":[{"spans":[{"name":"late","spanId":"eee19b7ec3c1b177","traceId":"00000000000000000000000000000001"}]}]}]}"#
}

/// A span of the stock, of trace 2.
pub fn stock_span() -> &'static str {
    r#"{"resourceSpans":[{"resource":{"attributes":[{"key":"service.name","value":{"stringValue":"stock"}}]},"scopeSpans":[{"spans":[{"spanId":"eee19b7ec3c1b178","traceId":"00000000000000000000000000000002"}]}]}]}"#
}

/// The old run: it keeps trace 1 by its second policy, with a late span, and not trace 2; trace 3 is evicted.
pub fn old_run(alloc: Global) -> Result<KeptRun, Fail> {
    let mut run = KeptRun::new(alloc, names_of(alloc, &["errors", "slow"])?)?;
    let spans = spans_of(alloc, three_spans())?;
    for digit in 1..4u8 {
        let Some(trace) = trace_of(digit) else {
            return Ok(run);
        };
        if digit == 1 {
            run.decided(
                &decision_of(trace, 5_000, 3, Some(1), Verdict::Sampled),
                &spans,
            )?;
        } else if digit == 2 {
            run.decided(
                &decision_of(trace, 6_500, 1, None, Verdict::NotSampled),
                &[],
            )?;
        } else {
            run.evicted(&EvictedTrace {
                trace,
                moment: 7_000,
                spans: 9,
            })?;
        }
    }
    for span in &spans_of(alloc, late_span())? {
        run.kept_late(8_200, span)?;
    }
    Ok(run)
}

/// The new run: it keeps trace 2 by its first policy, and not traces 1 and 4.
pub fn new_run(alloc: Global) -> Result<KeptRun, Fail> {
    let mut run = KeptRun::new(alloc, names_of(alloc, &["slow", "rest"])?)?;
    let spans = spans_of(alloc, stock_span())?;
    for digit in [1, 2, 4] {
        let Some(trace) = trace_of(digit) else {
            return Ok(run);
        };
        if digit == 2 {
            run.decided(
                &decision_of(trace, 4_100, 1, Some(0), Verdict::Sampled),
                &spans,
            )?;
        } else {
            run.decided(
                &decision_of(trace, 5_100, 3, None, Verdict::NotSampled),
                &[],
            )?;
        }
    }
    Ok(run)
}
