//! Spans and what they hold, written.
ghost use Rattle.std.specs.Prelude.{◌≡◌, IfOk, OnOk, codes, true};
ghost use Rattle.otlp_reading.specs.Reading.{status, span};
ghost use Rattle.otlp_json.specs.Tokens.{Adds, AddsField, span_counts, span_head, span_tail};
ghost use Rattle.otlp_json.specs.Writing.{trace_field, span_field, parent_field, status_fields, event_fields, link_fields, span_fields, message_field};
ghost use Rattle.otlp_json.specs.ReadsBack.{ReadsBack, StatusReadsBack, EventReadsBack, LinkReadsBack, TraceReadsBack, IdReadsBack, ParentReadsBack, CountsReadBack, HeadReadsBack, TailReadsBack};

use crate::writing;
use crate::writing::{Written, list};
use json::Writer;
use otlp_types::{Event, Ids, Link, Span, Status};
use std::alloc::{AllocError, Global};

/// The field `traceId`.
fn trace_id(alloc: Global, out: &mut Writer, ids: &Option<Ids>) -> Result<(), AllocError>
    ensures field { OnOk result (AddsField out.old out.new (codes "traceId") (trace_field ids.now)) }
    ensures back { OnOk result (TraceReadsBack ids.now) }
{
    let Some(ids) = ids else {
        return Ok(());
    };
    let text = ids.trace.text(alloc)?;
    out.key("traceId")?;
    out.string(text.as_str())?;
    Ok(())
}

/// The field `spanId`.
fn span_id(alloc: Global, out: &mut Writer, ids: &Option<Ids>) -> Result<(), AllocError>
    ensures field { OnOk result (AddsField out.old out.new (codes "spanId") (span_field ids.now)) }
    ensures back { OnOk result (IdReadsBack ids.now) }
{
    let Some(ids) = ids else {
        return Ok(());
    };
    let text = ids.span.text(alloc)?;
    out.key("spanId")?;
    out.string(text.as_str())?;
    Ok(())
}

/// The field `parentSpanId`, which a root has not.
fn parent_span_id(alloc: Global, out: &mut Writer, ids: &Option<Ids>) -> Result<(), AllocError>
    ensures field { OnOk result (AddsField out.old out.new (codes "parentSpanId") (parent_field ids.now)) }
    ensures back { OnOk result (ParentReadsBack ids.now) }
{
    let Some(ids) = ids else {
        return Ok(());
    };
    let Some(parent) = &ids.parent else {
        return Ok(());
    };
    let text = parent.text(alloc)?;
    out.key("parentSpanId")?;
    out.string(text.as_str())?;
    Ok(())
}

impl Written for Status {
    ghost fields = { status_fields };

    ghost reads_back = { StatusReadsBack };

    fn write(&self, alloc: Global, out: &mut Writer) -> Result<(), AllocError> {
        out.begin_object()?;
        writing::enumeration(out, "code", self.code)?;
        writing::text(out, "message", &self.message)?;
        out.end_object()?;
        Ok(())
    }
}

/// The field `status`, unless all its fields are left out.
fn status_of(alloc: Global, out: &mut Writer, status: &Status) -> Result<(), AllocError>
    ensures field { OnOk result (AddsField out.old out.new (codes "status") (message_field (status_fields status.now))) }
    ensures back { OnOk result (StatusReadsBack status.now) }
{
    if status.code == 0 && status.message.as_str().is_empty() {
        return Ok(());
    }
    out.key("status")?;
    status.write(alloc, out)?;
    Ok(())
}

impl Written for Event {
    ghost fields = { event_fields };

    ghost reads_back = { EventReadsBack };

    fn write(&self, alloc: Global, out: &mut Writer) -> Result<(), AllocError> {
        out.begin_object()?;
        list(alloc, out, "attributes", self.attributes.as_slice())?;
        writing::u32(out, "droppedAttributesCount", self.dropped_attributes_count)?;
        writing::text(out, "name", &self.name)?;
        writing::u64(out, "timeUnixNano", self.time_unix_nano)?;
        out.end_object()?;
        Ok(())
    }
}

impl Written for Link {
    ghost fields = { link_fields };

    ghost reads_back = { LinkReadsBack };

    fn write(&self, alloc: Global, out: &mut Writer) -> Result<(), AllocError> {
        out.begin_object()?;
        list(alloc, out, "attributes", self.attributes.as_slice())?;
        writing::u32(out, "droppedAttributesCount", self.dropped_attributes_count)?;
        writing::u32(out, "flags", self.flags)?;
        writing::text(out, "spanId", &self.span_id)?;
        writing::text(out, "traceId", &self.trace_id)?;
        writing::text(out, "traceState", &self.trace_state)?;
        out.end_object()?;
        Ok(())
    }
}

impl Written for Span {
    ghost fields = { span_fields };

    ghost reads_back = { ReadsBack span_fields (span true) };

    fn write(&self, alloc: Global, out: &mut Writer) -> Result<(), AllocError> {
        out.begin_object()?;
        write_counts(alloc, out, self)?;
        write_head(alloc, out, self)?;
        write_tail(alloc, out, self)?;
        out.end_object()?;
        Ok(())
    }
}

/// The attributes and the counts.
fn write_counts(alloc: Global, out: &mut Writer, span: &Span) -> Result<(), AllocError>
    ensures fields { OnOk result (Adds out.old out.new (span_counts span.now)) }
    ensures back { OnOk result (CountsReadBack span.now) }
{
    list(alloc, out, "attributes", span.attributes.as_slice())?;
    writing::u32(out, "droppedAttributesCount", span.dropped_attributes_count)?;
    writing::u32(out, "droppedEventsCount", span.dropped_events_count)?;
    writing::u32(out, "droppedLinksCount", span.dropped_links_count)?;
    Ok(())
}

/// The fields from `endTimeUnixNano` to `kind`.
fn write_head(alloc: Global, out: &mut Writer, span: &Span) -> Result<(), AllocError>
    ensures fields { OnOk result (Adds out.old out.new (span_head span.now)) }
    ensures back { OnOk result (HeadReadsBack span.now) }
{
    writing::u64(out, "endTimeUnixNano", span.end_time_unix_nano)?;
    list(alloc, out, "events", span.events.as_slice())?;
    writing::u32(out, "flags", span.flags)?;
    writing::enumeration(out, "kind", span.kind)?;
    Ok(())
}

/// The fields from `links` on, in order of their names.
fn write_tail(alloc: Global, out: &mut Writer, span: &Span) -> Result<(), AllocError>
    ensures fields { OnOk result (Adds out.old out.new (span_tail span.now)) }
    ensures back { OnOk result (TailReadsBack span.now) }
{
    list(alloc, out, "links", span.links.as_slice())?;
    writing::text(out, "name", &span.name)?;
    parent_span_id(alloc, out, &span.ids)?;
    span_id(alloc, out, &span.ids)?;
    writing::u64(out, "startTimeUnixNano", span.start_time_unix_nano)?;
    status_of(alloc, out, &span.status)?;
    trace_id(alloc, out, &span.ids)?;
    writing::text(out, "traceState", &span.trace_state)?;
    Ok(())
}
