//! Spans and what they hold, read from tokens.
ghost use Rattle.std.specs.Prelude.{◌≡◌, ℕ, Some, IfOk, option_and_then};
ghost use Rattle.otlp_types.specs.declared.span.Ids.{Ids};
ghost use Rattle.otlp_reading.specs.Reading.{status, event, link, span};
ghost use Rattle.otlp_stream.specs.Taking.{TakesAs, present};
ghost use Rattle.otlp_stream.specs.SoFar.{trace_field, id_field, parent_field, StatusSoFar, EventSoFar, LinkSoFar, SpanSoFar};

use crate::attributes::AttributesPart;
use crate::stream::{Building, list_of, message};
use crate::take::{Declined, enumeration, number_u32, number_u64, piece, put, skip, text};
use json::Reader;
use otlp_reading::parent_of;
use otlp_types::{Event, Ids, Link, Span, Status, Text};
use span_ids::{SpanId, TraceId};
use std::alloc::Global;

/// The trace's id in a field, if it is valid.
#[inline(always)]
fn trace_id(reader: &mut Reader<'_>) -> Result<Option<TraceId>, Declined>
    ensures { IfOk result (λ x. (depth : ℕ) → TakesAs (present trace_field) depth reader.old reader.new x) }
{
    let text = piece(reader)?;
    Ok(TraceId::parse(text))
}

/// A span's id in a field, if it is valid.
#[inline(always)]
fn span_id(reader: &mut Reader<'_>) -> Result<Option<SpanId>, Declined>
    ensures { IfOk result (λ x. (depth : ℕ) → TakesAs (present id_field) depth reader.old reader.new x) }
{
    let text = piece(reader)?;
    Ok(SpanId::parse(text))
}

/// The parent in a field, if it is valid.
#[inline(always)]
fn parent_id(reader: &mut Reader<'_>) -> Result<Option<Option<SpanId>>, Declined>
    ensures { IfOk result (λ x. (depth : ℕ) → TakesAs (present parent_field) depth reader.old reader.new x) }
{
    let text = piece(reader)?;
    Ok(parent_of(text))
}

/// The ids, where all of them are valid.
fn valid_ids(
    trace: Option<TraceId>,
    span: Option<SpanId>,
    parent: Option<Option<SpanId>>,
) -> Option<Ids>
    ensures { result ≡ option_and_then (λ t. option_and_then (λ s. option_and_then
        (λ p. Some (record { trace = t; span = s; parent = p })) parent) span) trace }
{
    let trace = trace?;
    let span = span?;
    let parent = parent?;
    Some(Ids {
        trace,
        span,
        parent,
    })
}

impl Building for Status {
    type Message = Status;

    ghost meaning = { λ _. status };

    ghost so_far = { StatusSoFar };

    fn start(alloc: Global) -> Status {
        Status {
            message: Text::new(alloc),
            code: 0,
        }
    }

    fn field(
        &mut self,
        alloc: Global,
        keeps_doubles: bool,
        reader: &mut Reader<'_>,
        depth: usize,
        name: &str,
    ) -> Result<(), Declined> {
        match name {
            "message" => put(&mut self.message, text(alloc, reader)),
            "code" => put(&mut self.code, enumeration(reader)),
            _ => skip(reader, depth),
        }
    }

    fn build(self) -> Status {
        self
    }
}

/// `Event`, as far as it is read.
#[derive(Drop)]
pub struct EventParts {
    time: u64,
    name: Text,
    rest: AttributesPart,
}

impl Building for EventParts {
    type Message = Event;

    ghost meaning = { event };

    ghost so_far = { EventSoFar };

    fn start(alloc: Global) -> EventParts {
        EventParts {
            time: 0,
            name: Text::new(alloc),
            rest: AttributesPart::start(alloc),
        }
    }

    #[inline(always)]
    fn field(
        &mut self,
        alloc: Global,
        keeps_doubles: bool,
        reader: &mut Reader<'_>,
        depth: usize,
        name: &str,
    ) -> Result<(), Declined> {
        match name {
            "timeUnixNano" => put(&mut self.time, number_u64(reader)),
            "name" => put(&mut self.name, text(alloc, reader)),
            _ => self.rest.field(alloc, keeps_doubles, reader, depth, name),
        }
    }

    fn build(self) -> Event {
        let rest = self.rest.build();
        Event {
            time_unix_nano: self.time,
            name: self.name,
            attributes: rest.attributes,
            dropped_attributes_count: rest.dropped_attributes_count,
        }
    }
}

/// `Link`, as far as it is read.
#[derive(Drop)]
pub struct LinkParts {
    trace_id: Text,
    span_id: Text,
    trace_state: Text,
    flags: u32,
    rest: AttributesPart,
}

impl Building for LinkParts {
    type Message = Link;

    ghost meaning = { link };

    ghost so_far = { LinkSoFar };

    fn start(alloc: Global) -> LinkParts {
        LinkParts {
            trace_id: Text::new(alloc),
            span_id: Text::new(alloc),
            trace_state: Text::new(alloc),
            flags: 0,
            rest: AttributesPart::start(alloc),
        }
    }

    #[inline(always)]
    fn field(
        &mut self,
        alloc: Global,
        keeps_doubles: bool,
        reader: &mut Reader<'_>,
        depth: usize,
        name: &str,
    ) -> Result<(), Declined> {
        match name {
            "traceId" => put(&mut self.trace_id, text(alloc, reader)),
            "spanId" => put(&mut self.span_id, text(alloc, reader)),
            "traceState" => put(&mut self.trace_state, text(alloc, reader)),
            "flags" => put(&mut self.flags, number_u32(reader)),
            _ => self.rest.field(alloc, keeps_doubles, reader, depth, name),
        }
    }

    fn build(self) -> Link {
        let rest = self.rest.build();
        Link {
            trace_id: self.trace_id,
            span_id: self.span_id,
            trace_state: self.trace_state,
            flags: self.flags,
            attributes: rest.attributes,
            dropped_attributes_count: rest.dropped_attributes_count,
        }
    }
}

/// `Span`, as far as it is read: its ids and attributes, and all else of it.
#[derive(Drop)]
pub struct SpanParts {
    trace: Option<TraceId>,
    id: Option<SpanId>,
    parent: Option<Option<SpanId>>,
    rest: AttributesPart,
    span: Span,
}

impl Building for SpanParts {
    type Message = Span;

    ghost meaning = { span };

    ghost so_far = { SpanSoFar };

    fn start(alloc: Global) -> SpanParts {
        SpanParts {
            trace: None,
            id: None,
            parent: Some(None),
            rest: AttributesPart::start(alloc),
            span: Span::empty(alloc),
        }
    }

    #[inline(always)]
    fn field(
        &mut self,
        alloc: Global,
        keeps_doubles: bool,
        reader: &mut Reader<'_>,
        depth: usize,
        name: &str,
    ) -> Result<(), Declined> {
        match name {
            "traceId" => put(&mut self.trace, trace_id(reader)),
            "spanId" => put(&mut self.id, span_id(reader)),
            "parentSpanId" => put(&mut self.parent, parent_id(reader)),
            "traceState" => put(&mut self.span.trace_state, text(alloc, reader)),
            "flags" => put(&mut self.span.flags, number_u32(reader)),
            "name" => put(&mut self.span.name, text(alloc, reader)),
            "kind" => put(&mut self.span.kind, enumeration(reader)),
            "startTimeUnixNano" => put(&mut self.span.start_time_unix_nano, number_u64(reader)),
            "endTimeUnixNano" => put(&mut self.span.end_time_unix_nano, number_u64(reader)),
            "events" => put(
                &mut self.span.events,
                list_of::<EventParts>(alloc, keeps_doubles, reader, depth),
            ),
            "droppedEventsCount" => put(&mut self.span.dropped_events_count, number_u32(reader)),
            "links" => put(
                &mut self.span.links,
                list_of::<LinkParts>(alloc, keeps_doubles, reader, depth),
            ),
            "droppedLinksCount" => put(&mut self.span.dropped_links_count, number_u32(reader)),
            "status" => put(
                &mut self.span.status,
                message::<Status>(alloc, keeps_doubles, reader, depth),
            ),
            _ => self.rest.field(alloc, keeps_doubles, reader, depth, name),
        }
    }

    fn build(self) -> Span {
        let rest = self.rest.build();
        let mut span = self.span;
        span.ids = valid_ids(self.trace, self.id, self.parent);
        span.attributes = rest.attributes;
        span.dropped_attributes_count = rest.dropped_attributes_count;
        span
    }
}
