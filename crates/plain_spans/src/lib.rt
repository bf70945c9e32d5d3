//! Spans of which nothing is told but ids, status code and times: for tests, and for programs that measure.
#![tactic(auto)]

ghost use Rattle.std.specs.Prelude.{◌≡◌, Some, is_none, IfOk, IfSome};
ghost use Rattle.span_ids.specs.Id.{id_of};

use otlp_types::{Arrival, Boxed, Ids, Record, Resource, Scope, Shared, Span, Text};
use span_ids::{ArrivalKey, ConnKey, SpanId, TraceId};
use std::alloc::{AllocError, Global};

/// The ids of a span of this trace, whose parent, if it has one, is itself. None where the text is no trace's id.
pub fn plain_ids(trace: &str, is_root: bool) -> Option<Ids>
    ensures trace { IfSome result (λ ids. Some ids.trace ≡ id_of 16 trace.now) }
    ensures root { IfSome result (λ ids. is_none ids.parent ≡ is_root) }
{
    let trace = TraceId::parse(trace)?;
    let span = SpanId::parse("eee19b7ec3c1b174")?;
    let parent = if is_root { None } else { Some(span) };
    Some(Ids {
        trace,
        span,
        parent,
    })
}

/// The same for the trace of this number, from 1 to 6, which is the last digit of its id.
pub fn numbered_ids(trace: u8, is_root: bool) -> Option<Ids>
    ensures root { IfSome result (λ ids. is_none ids.parent ≡ is_root) }
{
    let text = match trace {
        1 => "00000000000000000000000000000001",
        2 => "00000000000000000000000000000002",
        3 => "00000000000000000000000000000003",
        4 => "00000000000000000000000000000004",
        5 => "00000000000000000000000000000005",
        6 => "00000000000000000000000000000006",
        _ => return None,
    };
    plain_ids(text, is_root)
}

/// A span with these ids and this status code, its start and its end in nanoseconds, of an empty resource and scope.
pub fn plain_record(
    alloc: Global,
    ids: Option<Ids>,
    code: i32,
    start: u64,
    end: u64,
) -> Result<Record, AllocError>
    ensures ids { IfOk result (λ rec. rec.span.ids ≡ ids) }
    ensures code { IfOk result (λ rec. rec.span.status.code ≡ code) }
    ensures start { IfOk result (λ rec. rec.span.start_time_unix_nano ≡ start) }
    ensures end { IfOk result (λ rec. rec.span.end_time_unix_nano ≡ end) }
{
    let resource = Shared::new(alloc, Resource::empty(alloc))?;
    let resource_schema_url = Shared::new(alloc, Text::new(alloc))?;
    let scope = Shared::new(alloc, Scope::empty(alloc))?;
    let scope_schema_url = Shared::new(alloc, Text::new(alloc))?;
    let mut span = Span::empty(alloc);
    span.ids = ids;
    span.status.code = code;
    span.start_time_unix_nano = start;
    span.end_time_unix_nano = end;
    Ok(Record {
        resource,
        resource_schema_url,
        scope,
        scope_schema_url,
        span: Boxed::new(alloc, span)?,
    })
}

/// A record as it was received on a lane's first connection: with this number there, at this moment in milliseconds.
pub fn received(lane: u16, number: u64, moment: u64, rec: Record) -> Arrival
    ensures key { result.key ≡ record { conn = record { lane = lane; ordinal = 0 }; number = number } }
    ensures moment { result.moment ≡ moment }
    ensures rec { result.rec ≡ rec }
{
    let conn = ConnKey { lane, ordinal: 0 };
    Arrival {
        key: ArrivalKey { conn, number },
        moment,
        rec,
    }
}
