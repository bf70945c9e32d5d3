//! Spans and what they hold, written.
ghost use Rattle.std.specs.Prelude.{◌≡◌, None, IfErr, OnOk};
ghost use Rattle.protobuf_writer.specs.Writing.{Adds};
ghost use Rattle.protobuf_writer.specs.Defaults.{message_field};
ghost use Rattle.otlp_protobuf_encode.specs.Writing.{trace_field, span_field, parent_field, status_fields, event_fields, link_fields, span_head, span_times, span_tail, span_fields};
ghost use Rattle.otlp_protobuf_encode.specs.Faults.{event_fault, link_fault, span_fault, Tells};
ghost use Rattle.otlp_protobuf_encode.specs.ReadsBack.{StatusReadsBack, EventReadsBack, LinkReadsBack, SpanReadsBack, HeadHolds, TimesHold, TailHolds};

use crate::encode_error::EncodeError;
use crate::kinds::{
    write_count, write_enumeration, write_flags, write_hex, write_string, write_time,
};
use crate::writing::{Written, list, message};
use otlp_types::{Event, Ids, Link, Span, Status};
use protobuf_writer::write_bytes;
use std::alloc::{AllocError, Global};

/// The field `trace_id`, where there are ids.
fn write_trace_id(out: &mut Vec<u8>, ids: &Option<Ids>) -> Result<(), AllocError>
    ensures { OnOk result (Adds out.old.items out.new.items (trace_field ids.now)) }
{
    let Some(ids) = ids else {
        return Ok(());
    };
    write_bytes(out, 1, &ids.trace.bytes())?;
    Ok(())
}

/// The field `span_id`, where there are ids.
fn write_span_id(out: &mut Vec<u8>, ids: &Option<Ids>) -> Result<(), AllocError>
    ensures { OnOk result (Adds out.old.items out.new.items (span_field ids.now)) }
{
    let Some(ids) = ids else {
        return Ok(());
    };
    write_bytes(out, 2, &ids.span.bytes())?;
    Ok(())
}

/// The field `parent_span_id`, which a root has not.
fn write_parent_id(out: &mut Vec<u8>, ids: &Option<Ids>) -> Result<(), AllocError>
    ensures { OnOk result (Adds out.old.items out.new.items (parent_field ids.now)) }
{
    let Some(ids) = ids else {
        return Ok(());
    };
    let Some(parent) = ids.parent else {
        return Ok(());
    };
    write_bytes(out, 4, &parent.bytes())?;
    Ok(())
}

impl Written for Status {
    ghost use Rattle.std.specs.Prelude.{None};

    ghost fields = { status_fields };

    ghost fault = { λ _. None };

    ghost reads_back = { StatusReadsBack };

    fn write(&self, _alloc: Global, out: &mut Vec<u8>) -> Result<(), EncodeError> {
        write_string(out, 2, &self.message)?;
        write_enumeration(out, 3, &self.code)?;
        Ok(())
    }
}

/// The field `status`, unless it has no field.
fn write_status(alloc: Global, out: &mut Vec<u8>, status: &Status) -> Result<(), EncodeError>
    ensures bytes { OnOk result (Adds out.old.items out.new.items (message_field 15 (status_fields status.now))) }
    ensures back { OnOk result (StatusReadsBack status.now) }
    ensures fault { IfErr result (Tells None) }
{
    if status.code == 0 && status.message.as_str().is_empty() {
        return Ok(());
    }
    message(alloc, out, 15, status)?;
    Ok(())
}

impl Written for Event {
    ghost fields = { event_fields };

    ghost fault = { event_fault };

    ghost reads_back = { EventReadsBack };

    fn write(&self, alloc: Global, out: &mut Vec<u8>) -> Result<(), EncodeError> {
        write_time(out, 1, self.time_unix_nano)?;
        write_string(out, 2, &self.name)?;
        list(alloc, out, 3, &self.attributes)?;
        write_count(out, 4, self.dropped_attributes_count)?;
        Ok(())
    }
}

impl Written for Link {
    ghost fields = { link_fields };

    ghost fault = { link_fault };

    ghost reads_back = { LinkReadsBack };

    fn write(&self, alloc: Global, out: &mut Vec<u8>) -> Result<(), EncodeError> {
        write_hex(alloc, out, 1, &self.trace_id)?;
        write_hex(alloc, out, 2, &self.span_id)?;
        write_string(out, 3, &self.trace_state)?;
        list(alloc, out, 4, &self.attributes)?;
        write_count(out, 5, self.dropped_attributes_count)?;
        write_flags(out, 6, self.flags)?;
        Ok(())
    }
}

/// The fields up to the name.
fn write_head(out: &mut Vec<u8>, span: &Span) -> Result<(), AllocError>
    ensures bytes { OnOk result (Adds out.old.items out.new.items (span_head span.now)) }
    ensures back { OnOk result (HeadHolds span.now) }
{
    write_trace_id(out, &span.ids)?;
    write_span_id(out, &span.ids)?;
    write_string(out, 3, &span.trace_state)?;
    write_parent_id(out, &span.ids)?;
    write_string(out, 5, &span.name)?;
    Ok(())
}

/// The fields from the kind to the end.
fn write_times(out: &mut Vec<u8>, span: &Span) -> Result<(), AllocError>
    ensures bytes { OnOk result (Adds out.old.items out.new.items (span_times span.now)) }
    ensures back { OnOk result (TimesHold span.now) }
{
    write_enumeration(out, 6, &span.kind)?;
    write_time(out, 7, span.start_time_unix_nano)?;
    write_time(out, 8, span.end_time_unix_nano)?;
    Ok(())
}

/// The fields from the attributes on.
fn write_tail(alloc: Global, out: &mut Vec<u8>, span: &Span) -> Result<(), EncodeError>
    ensures bytes { OnOk result (Adds out.old.items out.new.items (span_tail span.now)) }
    ensures back { OnOk result (TailHolds span.now) }
    ensures writable { OnOk result (span_fault span.now ≡ None) }
    ensures fault { IfErr result (Tells (span_fault span.now)) }
{
    list(alloc, out, 9, &span.attributes)?;
    write_count(out, 10, span.dropped_attributes_count)?;
    list(alloc, out, 11, &span.events)?;
    write_count(out, 12, span.dropped_events_count)?;
    list(alloc, out, 13, &span.links)?;
    write_count(out, 14, span.dropped_links_count)?;
    write_status(alloc, out, &span.status)?;
    write_flags(out, 16, span.flags)?;
    Ok(())
}

impl Written for Span {
    ghost fields = { span_fields };

    ghost fault = { span_fault };

    ghost reads_back = { SpanReadsBack };

    fn write(&self, alloc: Global, out: &mut Vec<u8>) -> Result<(), EncodeError> {
        write_head(out, self)?;
        write_times(out, self)?;
        write_tail(alloc, out, self)?;
        Ok(())
    }
}
