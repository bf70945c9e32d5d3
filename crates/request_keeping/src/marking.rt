//! Which spans of an earlier run are received again.
use crate::pending_request::PendingRequest;
use request_ledger::{LedgerEnd, LedgerSpan, ended_of, is_over};
use span_ids::{SpanId, TraceId};
use std::alloc::{AllocError, Global};
use std::collections::HashMap;

/// A span of a request, by its place among the requests and its number in document order.
#[derive(Clone, Copy)]
pub struct SpanPlace {
    pub trace: TraceId,
    pub moment: u64,
    pub request: usize,
    pub number: usize,
    pub span: SpanId,
}

/// Marks in the requests the spans of those traces of which a span has no end, by what was told of them: such a trace is
/// received again whole. It answers how many these traces are.
pub fn mark_pending(
    alloc: Global,
    spans: &mut Vec<SpanPlace>,
    ends: &HashMap<TraceId, Vec<LedgerEnd>>,
    requests: &mut Vec<PendingRequest>,
) -> Result<u64, AllocError> {
    // Those of a trace together, as they came; in one moment as they stand in the files.
    spans.sort_by_key(|place| (place.trace, place.moment, place.request, place.number))?;
    let mut traces: u64 = 0;
    let mut of_trace = Vec::new(alloc);
    for place in spans.iter() {
        if !of_trace
            .first()
            .is_none_or(|first: &SpanPlace| first.trace == place.trace)
        {
            let is_pending = mark_trace(alloc, &of_trace, ends, requests)?;
            traces = traces.saturating_add(u64::from(is_pending));
            of_trace.clear();
        }
        of_trace.push(*place)?;
    }
    let is_pending = mark_trace(alloc, &of_trace, ends, requests)?;
    Ok(traces.saturating_add(u64::from(is_pending)))
}

/// Marks the spans of one trace, if one of them has no end, and answers whether that is so.
fn mark_trace(
    alloc: Global,
    spans: &[SpanPlace],
    ends: &HashMap<TraceId, Vec<LedgerEnd>>,
    requests: &mut Vec<PendingRequest>,
) -> Result<bool, AllocError> {
    let Some(first) = spans.first() else {
        return Ok(false);
    };
    if let Some(told) = ends.get(&first.trace) {
        let mut of_ledger = Vec::with_capacity(alloc, spans.len())?;
        for place in spans {
            of_ledger.push(LedgerSpan {
                span: place.span,
                moment: place.moment,
            })?;
        }
        if is_over(alloc, &of_ledger, told)? {
            return Ok(false);
        }
        let handed = ended_of(alloc, &of_ledger, handed_alone(alloc, told)?.as_slice())?;
        count_handed(spans, &handed, requests);
    }
    for place in spans {
        mark(place, requests);
    }
    Ok(true)
}

/// Of what was told of a trace, which of its spans were handed over.
fn handed_alone(alloc: Global, told: &[LedgerEnd]) -> Result<Vec<LedgerEnd>, AllocError> {
    let mut handed = Vec::new(alloc);
    for end in told {
        if let LedgerEnd::Handed(_) = end {
            handed.push(*end)?;
        }
    }
    Ok(handed)
}

/// Counts in their requests those spans that were handed over, and come again.
fn count_handed(spans: &[SpanPlace], handed: &[bool], requests: &mut Vec<PendingRequest>) {
    let mut flags = handed.iter();
    for place in spans {
        if !flags.next().copied().unwrap_or(false) {
            continue;
        }
        if let Some(request) = requests.get_mut(place.request) {
            request.handed = request.handed.saturating_add(1);
        }
    }
}

/// Marks a span in its request.
fn mark(place: &SpanPlace, requests: &mut Vec<PendingRequest>) {
    let Some(request) = requests.get_mut(place.request) else {
        return;
    };
    if let Some(pending) = request.pending.get_mut(place.number) {
        *pending = true;
        request.spans = request.spans.saturating_add(1);
    }
}
