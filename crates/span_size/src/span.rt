//! Spans and what they hold, counted.
ghost use Rattle.std.specs.Prelude.{◌≡◌, ◌++◌, codes};
ghost use Rattle.otlp_json.specs.Tokens.{field_tokens, span_counts, span_head, span_tail};
ghost use Rattle.otlp_json.specs.Writing.{attributes_field, u32_field, trace_field, span_field, parent_field, status_fields, event_fields, link_fields, span_fields, message_field};
ghost use Rattle.span_size.specs.Counting.{Adds, AddsField};

use crate::counter::ByteCounter;
use crate::counting;
use crate::counting::{HasSize, list};
use otlp_types::{Event, Ids, KeyValue, Link, List, Span, Status};

/// The field `parentSpanId`, which a root has not.
fn parent_span_id(out: &mut ByteCounter, ids: &Option<Ids>)
    ensures { AddsField out.old out.new (codes "parentSpanId") (parent_field ids.now) }
{
    if let Some(ids) = ids {
        if let Some(parent) = &ids.parent {
            out.id_member("parentSpanId", &parent.bytes());
        }
    }
}

/// The field `spanId`.
fn span_id(out: &mut ByteCounter, ids: &Option<Ids>)
    ensures { AddsField out.old out.new (codes "spanId") (span_field ids.now) }
{
    if let Some(ids) = ids {
        out.id_member("spanId", &ids.span.bytes());
    }
}

/// The field `traceId`.
fn trace_id(out: &mut ByteCounter, ids: &Option<Ids>)
    ensures { AddsField out.old out.new (codes "traceId") (trace_field ids.now) }
{
    if let Some(ids) = ids {
        out.id_member("traceId", &ids.trace.bytes());
    }
}

impl HasSize for Status {
    ghost fields = { status_fields };

    fn count(&self, out: &mut ByteCounter) {
        out.begin_nested();
        counting::enumeration(out, "code", self.code);
        counting::text(out, "message", &self.message);
        out.end_nested();
    }
}

/// The field `status`, unless all its fields are left out.
fn status_of(out: &mut ByteCounter, status: &Status)
    ensures { AddsField out.old out.new (codes "status") (message_field (status_fields status.now)) }
{
    if status.code == 0 && status.message.as_str().is_empty() {
        return;
    }
    out.key("status");
    status.count(out);
}

/// The attributes, and how many were dropped.
fn attributes(out: &mut ByteCounter, attributes: &List<KeyValue>, dropped: u32)
    ensures { Adds out.old out.new (field_tokens (codes "attributes") (attributes_field attributes.now)
        ++ field_tokens (codes "droppedAttributesCount") (u32_field dropped)) }
{
    list(out, "attributes", attributes.as_slice());
    counting::u32(out, "droppedAttributesCount", dropped);
}

impl HasSize for Event {
    ghost fields = { event_fields };

    fn count(&self, out: &mut ByteCounter) {
        out.begin_nested();
        attributes(out, &self.attributes, self.dropped_attributes_count);
        counting::text(out, "name", &self.name);
        counting::u64(out, "timeUnixNano", self.time_unix_nano);
        out.end_nested();
    }
}

impl HasSize for Link {
    ghost fields = { link_fields };

    fn count(&self, out: &mut ByteCounter) {
        out.begin_nested();
        attributes(out, &self.attributes, self.dropped_attributes_count);
        counting::u32(out, "flags", self.flags);
        counting::text(out, "spanId", &self.span_id);
        counting::text(out, "traceId", &self.trace_id);
        counting::text(out, "traceState", &self.trace_state);
        out.end_nested();
    }
}

impl HasSize for Span {
    ghost fields = { span_fields };

    fn count(&self, out: &mut ByteCounter) {
        out.begin_nested();
        count_counts(out, self);
        count_head(out, self);
        count_tail(out, self);
        out.end_nested();
    }
}

/// The attributes and the counts.
fn count_counts(out: &mut ByteCounter, span: &Span)
    ensures { Adds out.old out.new (span_counts span.now) }
{
    attributes(out, &span.attributes, span.dropped_attributes_count);
    counting::u32(out, "droppedEventsCount", span.dropped_events_count);
    counting::u32(out, "droppedLinksCount", span.dropped_links_count);
}

/// The fields from `endTimeUnixNano` to `kind`.
fn count_head(out: &mut ByteCounter, span: &Span)
    ensures { Adds out.old out.new (span_head span.now) }
{
    counting::u64(out, "endTimeUnixNano", span.end_time_unix_nano);
    list(out, "events", span.events.as_slice());
    counting::u32(out, "flags", span.flags);
    counting::enumeration(out, "kind", span.kind);
}

/// The fields from `links` on, in order of their names.
fn count_tail(out: &mut ByteCounter, span: &Span)
    ensures { Adds out.old out.new (span_tail span.now) }
{
    list(out, "links", span.links.as_slice());
    counting::text(out, "name", &span.name);
    parent_span_id(out, &span.ids);
    span_id(out, &span.ids);
    counting::u64(out, "startTimeUnixNano", span.start_time_unix_nano);
    status_of(out, &span.status);
    trace_id(out, &span.ids);
    counting::text(out, "traceState", &span.trace_state);
}
