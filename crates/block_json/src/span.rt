//! Spans and what they hold, told from their messages.
ghost use Rattle.std.specs.Prelude.{◌≡◌, List, map, codes};
ghost use Rattle.protobuf_writer.specs.Writing.{message_bytes};
ghost use Rattle.serde_json.specs.Data.{object};
ghost use Rattle.otlp_types.specs.declared.span.Status.{Status};
ghost use Rattle.otlp_types.specs.declared.span.Event.{Event};
ghost use Rattle.otlp_types.specs.declared.span.Link.{Link};
ghost use Rattle.otlp_types.specs.declared.span.Span.{Span};
ghost use Rattle.otlp_protobuf.specs.Values.{most_levels};
ghost use Rattle.otlp_protobuf_encode.specs.Writing as wire;
ghost use Rattle.otlp_json.specs.Tokens.{field_tokens, value_tokens, span_counts, span_head, span_tail};
ghost use Rattle.otlp_json.specs.Writing.{message_field, list_field, status_fields, event_fields, link_fields, span_fields};
ghost use Rattle.span_block.specs.Holds.{StatusHolds};
ghost use Rattle.span_block.specs.Typed.{EventIsTyped, LinkIsTyped};
ghost use Rattle.block_json.specs.Messages.{IsOf, AreIn};
ghost use Rattle.block_json.specs.Parts.{IsSpan, HasParts};

use crate::members;
use crate::parts::{SpanParts, int64, parts, uint32};
use crate::sink::TokenSink;
use crate::values::pairs;
use message_cursor::Cursor;

/// How deep a value may nest.
const MOST_LEVELS: u32 = 29;

/// The object of an event.
fn event<S: TokenSink>(out: &mut S, message: &[u8])
    ensures { (e : Event) → IsOf wire.event_fields (EventIsTyped most_levels) message.now e
        → S.adds out.old out.new (value_tokens (object (event_fields e))) }
{
    let _room = message.len();
    let mut cursor = Cursor::of(message);
    let time = cursor.fixed64(1);
    let name = cursor.bytes(2);
    let attributes = cursor.rest;
    let dropped = uint32(cursor.number(4));
    out.begin_object();
    pairs(out, "attributes", MOST_LEVELS, 3, attributes);
    members::count(out, "droppedAttributesCount", dropped);
    members::text(out, "name", name);
    members::time(out, "timeUnixNano", time);
    out.end_object();
}

/// The object of a link.
fn link<S: TokenSink>(out: &mut S, message: &[u8])
    ensures { (l : Link) → IsOf wire.link_fields (LinkIsTyped most_levels) message.now l
        → S.adds out.old out.new (value_tokens (object (link_fields l))) }
{
    let _room = message.len();
    let mut cursor = Cursor::of(message);
    let trace_id = cursor.bytes(1);
    let span_id = cursor.bytes(2);
    let trace_state = cursor.bytes(3);
    let attributes = cursor.rest;
    let dropped = uint32(cursor.number(5));
    let flags = cursor.fixed32(6);
    out.begin_object();
    pairs(out, "attributes", MOST_LEVELS, 4, attributes);
    members::count(out, "droppedAttributesCount", dropped);
    members::count(out, "flags", flags);
    members::hex(out, "spanId", span_id);
    members::hex(out, "traceId", trace_id);
    members::text(out, "traceState", trace_state);
    out.end_object();
}

/// The events of a span, unless there are none.
fn events<S: TokenSink>(out: &mut S, message: &[u8])
    ensures { (es : List Event) → AreIn wire.event_fields (EventIsTyped most_levels) 11 message.now es
        → S.adds out.old out.new (field_tokens (codes "events") (list_field (map event_fields es))) }
{
    let mut items = Cursor::of(message);
    let Some(first) = items.message(11) else {
        return;
    };
    out.key("events");
    out.begin_array();
    event(out, first);
    'items: while let Some(item) = items.message(11) {
        event(out, item);
    }
    out.end_array();
}

/// The links of a span, unless there are none.
fn links<S: TokenSink>(out: &mut S, message: &[u8])
    ensures { (ls : List Link) → AreIn wire.link_fields (LinkIsTyped most_levels) 13 message.now ls
        → S.adds out.old out.new (field_tokens (codes "links") (list_field (map link_fields ls))) }
{
    let mut items = Cursor::of(message);
    let Some(first) = items.message(13) else {
        return;
    };
    out.key("links");
    out.begin_array();
    link(out, first);
    'items: while let Some(item) = items.message(13) {
        link(out, item);
    }
    out.end_array();
}

/// The status, unless it has no field.
fn status<S: TokenSink>(out: &mut S, message: &[u8])
    ensures { (s : Status) → IsOf wire.status_fields StatusHolds message.now s
        → S.adds out.old out.new (field_tokens (codes "status") (message_field (status_fields s))) }
{
    let _room = message.len();
    let mut cursor = Cursor::of(message);
    let text = cursor.bytes(2);
    let code = int64(cursor.number(3));
    if code == 0 && text.is_empty() {
        return;
    }
    out.key("status");
    out.begin_object();
    members::whole(out, "code", code);
    members::text(out, "message", text);
    out.end_object();
}

/// The object of a span.
pub fn span<S: TokenSink>(out: &mut S, message: &[u8])
    ensures { (s : Span) → IsSpan message.now s
        → S.adds out.old out.new (value_tokens (object (span_fields s))) }
{
    let parts = parts(message);
    out.begin_object();
    counts(out, parts);
    head(out, parts);
    tail(out, parts);
    out.end_object();
}

/// The attributes and the counts.
fn counts<S: TokenSink>(out: &mut S, parts: SpanParts<'_>)
    ensures { (s : Span) → HasParts s parts.entry
        → S.adds out.old out.new (span_counts s) }
{
    pairs(out, "attributes", MOST_LEVELS, 9, parts.attributes);
    members::count(out, "droppedAttributesCount", parts.dropped_attributes);
    members::count(out, "droppedEventsCount", parts.dropped_events);
    members::count(out, "droppedLinksCount", parts.dropped_links);
}

/// The members from `endTimeUnixNano` to `kind`.
fn head<S: TokenSink>(out: &mut S, parts: SpanParts<'_>)
    ensures { (s : Span) → HasParts s parts.entry
        → S.adds out.old out.new (span_head s) }
{
    members::time(out, "endTimeUnixNano", parts.end);
    events(out, parts.events);
    members::count(out, "flags", parts.flags);
    members::whole(out, "kind", parts.kind);
}

/// The members from `links` on, in order of their names.
fn tail<S: TokenSink>(out: &mut S, parts: SpanParts<'_>)
    ensures { (s : Span) → HasParts s parts.entry
        → S.adds out.old out.new (span_tail s) }
{
    links(out, parts.links);
    members::text(out, "name", parts.name);
    members::hex(out, "parentSpanId", parts.parent_id);
    members::hex(out, "spanId", parts.span_id);
    members::time(out, "startTimeUnixNano", parts.start);
    status(out, parts.status);
    members::hex(out, "traceId", parts.trace_id);
    members::text(out, "traceState", parts.trace_state);
}
