//! Spans and what they hold.
ghost use Rattle.std.specs.Prelude.{◌≡◌, ◌+◌, ◌-◌, ◌^◌, min, Some, IfOk, OnOk, option_map};
ghost use Rattle.serde_json.specs.View.{view, members_view};
ghost use Rattle.otlp_reading.specs.Gives.{Gives};
ghost use Rattle.otlp_reading.specs.Reading.{attributes, parent_of, valid_ids, ids, status, event, link, span};
ghost use Rattle.otlp_reading.specs.SpanParts.{context, kind_and_times, held_fields};

use crate::decode_error::DecodeError;
use crate::kinds;
use crate::message::{Message, inner, list_of};
use crate::value::key_values;
use otlp_types::{Event, Ids, KeyValue, Link, List, Span, Status, Text};
use serde_json::{Map, Value};
use span_ids::{SpanId, TraceId};
use std::alloc::Global;

/// `serde_json` reads no text that nests deeper.
const LEVELS: usize = 127;

/// The attributes that are kept, and how many were dropped.
pub fn attributes(
    alloc: Global,
    keeps_doubles: bool,
    members: &Map<String, Value>,
) -> Result<(List<KeyValue>, u32), DecodeError>
    ensures { Gives result (attributes keeps_doubles (members_view members.now.entries)) }
{
    let items = kinds::items(members, "attributes")?;
    let (kept, discarded) = key_values(alloc, keeps_doubles, items, LEVELS)?;
    let counted = kinds::u32(members, "droppedAttributesCount")?;
    Ok((kept, dropped(counted, discarded)))
}

/// How many attributes were dropped: at most what the count can hold.
pub fn dropped(counted: u32, discarded: usize) -> u32
    ensures { result ≡ min (counted + discarded) (2 ^ 32 - 1) }
{
    match u32::try_from(discarded) {
        Ok(more) => counted.saturating_add(more),
        Err(_) => u32::MAX,
    }
}

/// The parent that a text names, if it is valid: an empty text, or one of sixteen zeros, is a root's.
pub fn parent_of(text: &str) -> Option<Option<SpanId>>
    ensures { result ≡ parent_of text.now }
{
    if text.is_empty() || text == "0000000000000000" {
        Some(None)
    } else {
        match SpanId::parse(text) {
            Some(id) => Some(Some(id)),
            None => None,
        }
    }
}

/// The ids, where all of them are valid.
fn valid_ids(trace_id: &str, span_id: &str, parent_id: &str) -> Option<Ids>
    ensures { result ≡ valid_ids trace_id.now span_id.now parent_id.now }
{
    let trace = TraceId::parse(trace_id)?;
    let span = SpanId::parse(span_id)?;
    let parent = parent_of(parent_id)?;
    Some(Ids {
        trace,
        span,
        parent,
    })
}

/// The ids of a span. A request stands with a span whose ids are invalid.
fn ids(members: &Map<String, Value>) -> Result<Option<Ids>, DecodeError>
    ensures { Gives result (ids (members_view members.now.entries)) }
{
    let trace_id = kinds::borrowed_text(members, "traceId")?;
    let span_id = kinds::borrowed_text(members, "spanId")?;
    let parent_id = kinds::borrowed_text(members, "parentSpanId")?;
    Ok(valid_ids(trace_id, span_id, parent_id))
}

impl Message for Status {
    ghost meaning = { λ _. status };

    fn read(
        alloc: Global,
        keeps_doubles: bool,
        members: &Map<String, Value>,
    ) -> Result<Status, DecodeError> {
        let message = kinds::text(alloc, members, "message")?;
        let code = kinds::enumeration(members, "code")?;
        Ok(Status { message, code })
    }
}

impl Message for Event {
    ghost meaning = { event };

    fn read(
        alloc: Global,
        keeps_doubles: bool,
        members: &Map<String, Value>,
    ) -> Result<Event, DecodeError> {
        let time_unix_nano = kinds::u64(members, "timeUnixNano")?;
        let name = kinds::text(alloc, members, "name")?;
        let (attributes, dropped_attributes_count) = attributes(alloc, keeps_doubles, members)?;
        Ok(Event {
            time_unix_nano,
            name,
            attributes,
            dropped_attributes_count,
        })
    }
}

impl Message for Link {
    ghost meaning = { link };

    fn read(
        alloc: Global,
        keeps_doubles: bool,
        members: &Map<String, Value>,
    ) -> Result<Link, DecodeError> {
        let trace_id = kinds::text(alloc, members, "traceId")?;
        let span_id = kinds::text(alloc, members, "spanId")?;
        let trace_state = kinds::text(alloc, members, "traceState")?;
        let (attributes, dropped_attributes_count) = attributes(alloc, keeps_doubles, members)?;
        let flags = kinds::u32(members, "flags")?;
        Ok(Link {
            trace_id,
            span_id,
            trace_state,
            attributes,
            dropped_attributes_count,
            flags,
        })
    }
}

/// The ids of a span, its trace state and its flags.
#[derive(Drop)]
struct SpanContext {
    ids: Option<Ids>,
    trace_state: Text,
    flags: u32,
}

fn context(alloc: Global, members: &Map<String, Value>) -> Result<SpanContext, DecodeError>
    ensures { Gives result (context (members_view members.now.entries)) }
{
    let ids = ids(members)?;
    let trace_state = kinds::text(alloc, members, "traceState")?;
    let flags = kinds::u32(members, "flags")?;
    Ok(SpanContext {
        ids,
        trace_state,
        flags,
    })
}

/// The kind of a span, and when it started and ended.
fn kind_and_times(members: &Map<String, Value>) -> Result<(i32, u64, u64), DecodeError>
    ensures { Gives result (kind_and_times (members_view members.now.entries)) }
{
    let kind = kinds::enumeration(members, "kind")?;
    let start = kinds::u64(members, "startTimeUnixNano")?;
    let end = kinds::u64(members, "endTimeUnixNano")?;
    Ok((kind, start, end))
}

/// What a span holds, but for its attributes.
#[derive(Drop)]
struct HeldFields {
    events: List<Event>,
    dropped_events: u32,
    links: List<Link>,
    dropped_links: u32,
    status: Status,
}

fn held_fields(
    alloc: Global,
    keeps_doubles: bool,
    members: &Map<String, Value>,
) -> Result<HeldFields, DecodeError>
    ensures { Gives result (held_fields keeps_doubles (members_view members.now.entries)) }
{
    let events = list_of(alloc, keeps_doubles, members, "events")?;
    let dropped_events = kinds::u32(members, "droppedEventsCount")?;
    let links = list_of(alloc, keeps_doubles, members, "links")?;
    let dropped_links = kinds::u32(members, "droppedLinksCount")?;
    let status = inner(alloc, keeps_doubles, members, "status")?;
    Ok(HeldFields {
        events,
        dropped_events,
        links,
        dropped_links,
        status,
    })
}

impl Message for Span {
    ghost meaning = { span };

    fn read(
        alloc: Global,
        keeps_doubles: bool,
        members: &Map<String, Value>,
    ) -> Result<Span, DecodeError> {
        let context = context(alloc, members)?;
        let name = kinds::text(alloc, members, "name")?;
        let (kind, start_time_unix_nano, end_time_unix_nano) = kind_and_times(members)?;
        let (attributes, dropped_attributes_count) = attributes(alloc, keeps_doubles, members)?;
        let held = held_fields(alloc, keeps_doubles, members)?;
        Ok(Span {
            ids: context.ids,
            trace_state: context.trace_state,
            flags: context.flags,
            name,
            kind,
            start_time_unix_nano,
            end_time_unix_nano,
            attributes,
            dropped_attributes_count,
            events: held.events,
            dropped_events_count: held.dropped_events,
            links: held.links,
            dropped_links_count: held.dropped_links,
            status: held.status,
        })
    }
}
