//! What is asked of a block, each by one walk over its bytes that ends early and takes no memory.
ghost use Rattle.std.specs.Prelude.{◌≡◌, ◌↔◌, None, Ok, IsTrue, length, option_map, option_and_then};
ghost use Rattle.std.specs.Str.{IsUtf8};
ghost use Rattle.protobuf_wire.specs.Wire.{fields_of};
ghost use Rattle.otlp_types.specs.declared.span.Ids.{Ids};
ghost use Rattle.otlp_protobuf.specs.Kinds.{int32};
ghost use Rattle.otlp_protobuf_encode.specs.Writing.{status_fields};
ghost use Rattle.span_block.specs.Holds.{StatusHolds};

use crate::block::SpanBlock;
use crate::find::{bytes_at, fixed32_at, fixed64_at, number_at};
use span_ids::{SpanId, TraceId};

/// An `int32`, or the number of an enumeration: the lowest 32 bits.
fn int32(bits: u64) -> i32
    ensures { result ≡ int32 bits }
{
    ((bits % 0x1_0000_0000) as u32).cast_signed()
}

impl SpanBlock {
    /// The id of the trace; `None` where an id of the span is missing or invalid.
    pub fn trace_id(&self) -> Option<TraceId>
        ensures { result ≡ option_map (λ (ids : Ids). ids.trace) self.now.ids }
    {
        TraceId::from_bytes(bytes_at(self.message(), 1))
    }

    /// The id of the span; `None` where an id of it is missing or invalid.
    pub fn span_id(&self) -> Option<SpanId>
        ensures { result ≡ option_map (λ (ids : Ids). ids.span) self.now.ids }
    {
        SpanId::from_bytes(bytes_at(self.message(), 2))
    }

    /// The id of the parent; `None` where there is none, and where an id is missing or invalid.
    pub fn parent_id(&self) -> Option<SpanId>
        ensures { result ≡ option_and_then (λ (ids : Ids). ids.parent) self.now.ids }
    {
        SpanId::from_bytes(bytes_at(self.message(), 4))
    }

    /// The trace state, as its bytes.
    pub fn trace_state(&self) -> &[u8]
        ensures state { result.now ≡ self.now.trace_state }
        ensures text { IsUtf8 result.now }
    {
        bytes_at(self.message(), 3)
    }

    /// The name, as its bytes.
    pub fn name(&self) -> &[u8]
        ensures name { result.now ≡ self.now.name }
        ensures text { IsUtf8 result.now }
    {
        bytes_at(self.message(), 5)
    }

    /// The kind: 0 unspecified, 1 internal, 2 server, 3 client, 4 producer, 5 consumer, or another number.
    pub fn kind(&self) -> i32
        ensures { result ≡ self.now.kind }
    {
        int32(number_at(self.message(), 6))
    }

    /// The start, in nanoseconds since 1970.
    pub fn start_time_unix_nano(&self) -> u64
        ensures { result ≡ self.now.start_time_unix_nano }
    {
        fixed64_at(self.message(), 7)
    }

    /// The end, in nanoseconds since 1970.
    pub fn end_time_unix_nano(&self) -> u64
        ensures { result ≡ self.now.end_time_unix_nano }
    {
        fixed64_at(self.message(), 8)
    }

    /// The message of the status: empty where it has no field.
    fn status(&self) -> &[u8]
        ensures fields { fields_of result.now ≡ Ok (status_fields self.now.status) }
        ensures holds { StatusHolds self.now.status }
    {
        bytes_at(self.message(), 15)
    }

    /// The code of the status: 0 unset, 1 ok, 2 error, or another number.
    pub fn status_code(&self) -> i32
        ensures { result ≡ self.now.status.code }
    {
        int32(number_at(self.status(), 3))
    }

    /// The message of the status, as its bytes.
    pub fn status_message(&self) -> &[u8]
        ensures message { result.now ≡ self.now.status.message }
        ensures text { IsUtf8 result.now }
    {
        bytes_at(self.status(), 2)
    }

    /// The flags (W3C Trace Context: bit 0 says that it is sampled).
    pub fn flags(&self) -> u32
        ensures { result ≡ self.now.flags }
    {
        fixed32_at(self.message(), 16)
    }
}
