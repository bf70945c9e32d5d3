//! Spans and what they hold, packed.
ghost use Rattle.std.specs.Prelude.{◌≡◌, true, false, Some, IfErr, OnOk};
ghost use Rattle.protobuf_writer.specs.Writing.{Adds};
ghost use Rattle.protobuf_writer.specs.Defaults.{message_field};
ghost use Rattle.span_ids.specs.Id.{id_from};
ghost use Rattle.otlp_protobuf.specs.Values.{most_levels};
ghost use Rattle.otlp_protobuf_encode.specs.Writing.{trace_field, span_field, parent_field, status_fields, event_fields, link_fields, span_head, span_times, span_tail, span_fields};
ghost use Rattle.otlp_protobuf_encode.specs.ReadsBack.{AreIds, ParentIsId, EventReadsBack, LinkReadsBack, HeadHolds, TimesHold};
ghost use Rattle.span_block.specs.Fits.{EventFits, LinkFits, PartsFit, HasBlock, Refuses};
ghost use Rattle.span_block.specs.Holds.{StatusHolds, PartsHold, SpanHolds};
ghost use Rattle.span_block.specs.Typed.{EventIsTyped, LinkIsTyped, PartsAreTyped};

use crate::kinds::{pack_count, pack_enumeration, pack_flags, pack_hex, pack_text, pack_time};
use crate::pack_error::PackError;
use crate::packed::{Packed, list, message};
use otlp_types::{Event, Ids, Link, Span, Status};
use protobuf_writer::write_bytes;
use span_ids::{SpanId, TraceId};
use std::alloc::{AllocError, Global};

/// How deep a value may nest, so that it is read again.
const MOST_LEVELS: u32 = 29;

/// Whether it is an id, as each value of its type is.
fn is_trace_id(id: &TraceId) -> bool
    ensures yes { result ≡ true → id_from 16 id.now ≡ Some id.now }
    ensures no { result ≡ false → id_from 16 id.now ≡ Some id.now → ⊥ }
{
    TraceId::from_bytes(&id.bytes()).is_some()
}

/// The same, of a span's.
fn is_span_id(id: &SpanId) -> bool
    ensures yes { result ≡ true → id_from 8 id.now ≡ Some id.now }
    ensures no { result ≡ false → id_from 8 id.now ≡ Some id.now → ⊥ }
{
    SpanId::from_bytes(&id.bytes()).is_some()
}

/// Whether a parent's id is one, where there is a parent.
fn parent_is_id(parent: &Option<SpanId>) -> bool
    ensures yes { result ≡ true → ParentIsId parent.now }
    ensures no { result ≡ false → ParentIsId parent.now → ⊥ }
{
    match parent {
        None => true,
        Some(id) => is_span_id(id),
    }
}

/// Whether ids are such, where there are any.
fn are_ids(ids: &Option<Ids>) -> bool
    ensures yes { result ≡ true → AreIds ids.now }
    ensures no { result ≡ false → AreIds ids.now → ⊥ }
{
    match ids {
        None => true,
        Some(ids) => is_trace_id(&ids.trace) && is_span_id(&ids.span) && parent_is_id(&ids.parent),
    }
}

/// The field `trace_id`, where there are ids.
fn pack_trace_id(out: &mut Vec<u8>, ids: &Option<Ids>) -> Result<(), AllocError>
    ensures { OnOk result (Adds out.old.items out.new.items (trace_field ids.now)) }
{
    let Some(ids) = ids else {
        return Ok(());
    };
    write_bytes(out, 1, &ids.trace.bytes())?;
    Ok(())
}

/// The field `span_id`, where there are ids.
fn pack_span_id(out: &mut Vec<u8>, ids: &Option<Ids>) -> Result<(), AllocError>
    ensures { OnOk result (Adds out.old.items out.new.items (span_field ids.now)) }
{
    let Some(ids) = ids else {
        return Ok(());
    };
    write_bytes(out, 2, &ids.span.bytes())?;
    Ok(())
}

/// The field `parent_span_id`, which a root has not.
fn pack_parent_id(out: &mut Vec<u8>, ids: &Option<Ids>) -> Result<(), AllocError>
    ensures { OnOk result (Adds out.old.items out.new.items (parent_field ids.now)) }
{
    let Some(ids) = ids else {
        return Ok(());
    };
    let Some(parent) = ids.parent else {
        return Ok(());
    };
    write_bytes(out, 4, &parent.bytes())?;
    Ok(())
}

impl Packed for Status {
    ghost fields = { status_fields };

    ghost fits = { λ _ _. Unit {0} };

    ghost holds = { StatusHolds };

    ghost typed = { λ _ _. Unit {0} };

    fn pack(&self, _alloc: Global, _levels: u32, out: &mut Vec<u8>) -> Result<(), PackError> {
        pack_text(out, 2, &self.message)?;
        pack_enumeration(out, 3, &self.code)?;
        Ok(())
    }
}

/// The field `status`, unless it has no field.
fn pack_status(alloc: Global, out: &mut Vec<u8>, status: &Status) -> Result<(), PackError>
    ensures bytes { OnOk result (Adds out.old.items out.new.items (message_field 15 (status_fields status.now))) }
    ensures holds { OnOk result (StatusHolds status.now) }
    ensures refused { IfErr result (Refuses (Unit {0})) }
{
    if status.code == 0 && status.message.as_str().is_empty() {
        return Ok(());
    }
    message(alloc, MOST_LEVELS, out, 15, status)?;
    Ok(())
}

impl Packed for Event {
    ghost fields = { event_fields };

    ghost fits = { EventFits };

    ghost holds = { EventReadsBack };

    ghost typed = { EventIsTyped };

    fn pack(&self, alloc: Global, levels: u32, out: &mut Vec<u8>) -> Result<(), PackError> {
        pack_time(out, 1, self.time_unix_nano)?;
        pack_text(out, 2, &self.name)?;
        list(alloc, levels, out, 3, &self.attributes)?;
        pack_count(out, 4, self.dropped_attributes_count)?;
        Ok(())
    }
}

impl Packed for Link {
    ghost fields = { link_fields };

    ghost fits = { LinkFits };

    ghost holds = { LinkReadsBack };

    ghost typed = { LinkIsTyped };

    fn pack(&self, alloc: Global, levels: u32, out: &mut Vec<u8>) -> Result<(), PackError> {
        pack_hex(alloc, out, 1, &self.trace_id)?;
        pack_hex(alloc, out, 2, &self.span_id)?;
        pack_text(out, 3, &self.trace_state)?;
        list(alloc, levels, out, 4, &self.attributes)?;
        pack_count(out, 5, self.dropped_attributes_count)?;
        pack_flags(out, 6, self.flags)?;
        Ok(())
    }
}

/// The fields up to the name.
fn pack_head(out: &mut Vec<u8>, span: &Span) -> Result<(), AllocError>
    ensures bytes { OnOk result (Adds out.old.items out.new.items (span_head span.now)) }
    ensures holds { OnOk result (HeadHolds span.now) }
{
    pack_trace_id(out, &span.ids)?;
    pack_span_id(out, &span.ids)?;
    pack_text(out, 3, &span.trace_state)?;
    pack_parent_id(out, &span.ids)?;
    pack_text(out, 5, &span.name)?;
    Ok(())
}

/// The fields from the kind to the end.
fn pack_times(out: &mut Vec<u8>, span: &Span) -> Result<(), AllocError>
    ensures bytes { OnOk result (Adds out.old.items out.new.items (span_times span.now)) }
    ensures holds { OnOk result (TimesHold span.now) }
{
    pack_enumeration(out, 6, &span.kind)?;
    pack_time(out, 7, span.start_time_unix_nano)?;
    pack_time(out, 8, span.end_time_unix_nano)?;
    Ok(())
}

/// The fields from the attributes on.
fn pack_tail(alloc: Global, out: &mut Vec<u8>, span: &Span) -> Result<(), PackError>
    ensures bytes { OnOk result (Adds out.old.items out.new.items (span_tail span.now)) }
    ensures holds { OnOk result (PartsHold span.now) }
    ensures typed { OnOk result (PartsAreTyped span.now) }
    ensures fits { OnOk result (PartsFit span.now) }
    ensures refused { IfErr result (Refuses (PartsFit span.now)) }
{
    list(alloc, MOST_LEVELS, out, 9, &span.attributes)?;
    pack_count(out, 10, span.dropped_attributes_count)?;
    list(alloc, MOST_LEVELS, out, 11, &span.events)?;
    pack_count(out, 12, span.dropped_events_count)?;
    list(alloc, MOST_LEVELS, out, 13, &span.links)?;
    pack_count(out, 14, span.dropped_links_count)?;
    pack_status(alloc, out, &span.status)?;
    pack_flags(out, 16, span.flags)?;
    Ok(())
}

/// Appends the fields of a span.
pub fn pack_span(alloc: Global, out: &mut Vec<u8>, span: &Span) -> Result<(), PackError>
    ensures bytes { OnOk result (Adds out.old.items out.new.items (span_fields span.now)) }
    ensures holds { OnOk result (SpanHolds span.now) }
    ensures typed { OnOk result (PartsAreTyped span.now) }
    ensures fits { OnOk result (HasBlock span.now) }
    ensures refused { IfErr result (Refuses (HasBlock span.now)) }
{
    if !are_ids(&span.ids) {
        return Err(PackError::NoBlock);
    }
    pack_head(out, span)?;
    pack_times(out, span)?;
    pack_tail(alloc, out, span)?;
    Ok(())
}
