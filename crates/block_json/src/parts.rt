//! What a span's message holds, by one walk over it.
ghost use Rattle.std.specs.Prelude.{◌≡◌};
ghost use Rattle.otlp_protobuf.specs.Kinds.{int64, uint32};
ghost use Rattle.otlp_types.specs.declared.span.Span.{Span};
ghost use Rattle.block_json.specs.Parts.{IsSpan, HasParts};

use message_cursor::Cursor;

/// What a span's message holds, in the bytes of its block. An id that isn't there has no bytes, and of a list the bytes from
/// its first message on stand here.
#[derive(Clone, Copy)]
pub struct SpanParts<'a> {
    pub trace_id: &'a [u8],
    pub span_id: &'a [u8],
    pub trace_state: &'a [u8],
    pub parent_id: &'a [u8],
    pub name: &'a [u8],
    pub kind: i64,
    pub start: u64,
    pub end: u64,
    pub attributes: &'a [u8],
    pub dropped_attributes: u32,
    pub events: &'a [u8],
    pub dropped_events: u32,
    pub links: &'a [u8],
    pub dropped_links: u32,
    /// The message of the status.
    pub status: &'a [u8],
    pub flags: u32,
}

/// Finds the parts of a span.
pub fn parts(message: &[u8]) -> SpanParts<'_>
    ensures { (s : Span) → IsSpan message.now s → HasParts s result }
{
    let mut cursor = Cursor::of(message);
    let trace_id = cursor.bytes(1);
    let span_id = cursor.bytes(2);
    let trace_state = cursor.bytes(3);
    let parent_id = cursor.bytes(4);
    let name = cursor.bytes(5);
    let kind = int64(cursor.number(6));
    let start = cursor.fixed64(7);
    let end = cursor.fixed64(8);
    let attributes = cursor.rest;
    let dropped_attributes = uint32(cursor.number(10));
    let events = cursor.rest;
    let dropped_events = uint32(cursor.number(12));
    let links = cursor.rest;
    let dropped_links = uint32(cursor.number(14));
    let status = cursor.bytes(15);
    let flags = cursor.fixed32(16);
    SpanParts {
        trace_id,
        span_id,
        trace_state,
        parent_id,
        name,
        kind,
        start,
        end,
        attributes,
        dropped_attributes,
        events,
        dropped_events,
        links,
        dropped_links,
        status,
        flags,
    }
}

/// A number of 64 bits, in two's complement. An enumeration is one.
#[inline(always)]
pub fn int64(bits: u64) -> i64
    ensures { result ≡ int64 bits }
{
    bits.cast_signed()
}

/// The lowest 32 bits.
#[inline(always)]
pub fn uint32(bits: u64) -> u32
    ensures { result ≡ uint32 bits }
{
    (bits % 0x1_0000_0000) as u32
}
