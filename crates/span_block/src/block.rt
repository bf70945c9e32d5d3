//! Spans, each held as one block of bytes.
ghost use Rattle.std.specs.Prelude.{◌≡◌, ◌<◌, ◌^◌, ◌↔◌, Some, Ok, IsTrue, IfOk, IfErr, OnOk, length};
ghost use Rattle.protobuf_wire.specs.Wire.{fields_of};
ghost use Rattle.otlp_protobuf_encode.specs.Writing.{span_fields};
ghost use Rattle.span_block.specs.Block.{block_of, span_of};
ghost use Rattle.span_block.specs.Fits.{HasBlock, Refuses};
ghost use Rattle.span_block.specs.Holds.{SpanHolds};
ghost use Rattle.span_block.specs.Typed.{PartsAreTyped};

use crate::pack_error::PackError;
use crate::span::pack_span;
use otlp_types::Span;
use std::alloc::Global;
use std::marker::Model;

/// The room that a block takes while it is made.
const ROOM: usize = 512;

/// A span as one block of bytes: its canonical protobuf encoding (`trace.proto` v1, `Span`). A contract sees the span.
#[derive(Drop)]
pub struct SpanBlock {
    bytes: Vec<u8>,
}

impl Model for SpanBlock {
    ghost use Rattle.std.specs.Coded.{codes};
    ghost use Rattle.otlp_types.specs.declared.span.Span.{Span};
    ghost use Rattle.otlp_types.specs.contracts.value.AnyValue as any_value;

    ghost Value = { Span };

    ghost coded = { Prim.hlevel (codes, any_value.the_row.coded) };

    ghost use Rattle.span_block.specs.Block.{held};
    ghost use Rattle.span_block.specs.Packed.{IsBlock};

    ghost view = { λ it. held it.bytes.items };

    ghost invariant = { λ it. IsBlock it.bytes.items };
}

impl SpanBlock {
    /// The block of a span.
    ///
    /// `NoBlock` where it has none, `NoMemory` where memory was refused.
    pub fn pack(alloc: Global, span: &Span) -> Result<SpanBlock, PackError>
        ensures span { IfOk result (λ block. block ≡ span.now) }
        ensures fits { OnOk result (HasBlock span.now) }
        ensures refused { IfErr result (Refuses (HasBlock span.now)) }
    {
        let mut bytes = Vec::with_capacity(alloc, ROOM)?;
        pack_span(alloc, &mut bytes, span)?;
        bytes.shrink_to_fit();
        Ok(SpanBlock { bytes })
    }

    /// The canonical bytes, which are read as the span again. What they are as fields, and what holds of these, is for
    /// crates that walk over them.
    pub fn as_bytes(&self) -> &[u8]
        ensures bytes { result.now ≡ block_of self.now }
        ensures back { span_of result.now ≡ Some self.now }
        ensures fits { HasBlock self.now }
        ensures fields { fields_of result.now ≡ Ok (span_fields self.now) }
        ensures holds { SpanHolds self.now }
        ensures typed { PartsAreTyped self.now }
    {
        self.message()
    }

    /// The same bytes, with what walks know of them.
    pub(crate) fn message(&self) -> &[u8]
        ensures bytes { result.now ≡ block_of self.now }
        ensures back { span_of result.now ≡ Some self.now }
        ensures room { length result.now < 2 ^ 64 }
        ensures fields { fields_of result.now ≡ Ok (span_fields self.now) }
        ensures holds { SpanHolds self.now }
        ensures typed { PartsAreTyped self.now }
        ensures fits { HasBlock self.now }
    {
        self.bytes.as_slice()
    }

    /// Whether two blocks hold the same span: their bytes are compared.
    pub fn same(&self, other: &SpanBlock) -> bool
        ensures { IsTrue result ↔ (self.now ≡ other.now) }
    {
        self.bytes.as_slice() == other.bytes.as_slice()
    }
}
