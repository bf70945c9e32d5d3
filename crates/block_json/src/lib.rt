//! The canonical JSON text of spans that are held as blocks (OTLP 1.x, JSON encoding), written by a walk over the block.
//!
//! ```
//! let block = SpanBlock::pack(alloc, &span)?;
//! let mut out = Vec::new(alloc);
//! put_span(alloc, &mut out, &block)?;
//! assert!(block_size(&block) == out.len() as u64);
//! ```
#![tactic(auto)]

ghost use Rattle.std.specs.Prelude.{◌≡◌, ◌-◌, ◌^◌, ◌++◌, min, length, OnOk};
ghost use Rattle.block_json.specs.Text.{span_text};

mod byte_sink;
mod escaped;
mod json_sink;
mod members;
mod parts;
mod sink;
mod span;
mod values;

use byte_sink::ByteSink;
use json::Writer;
use json_sink::JsonSink;
use span::span;
use span_block::SpanBlock;
use std::alloc::{AllocError, Global};
use std::mem;

/// Appends the canonical text of the span that a block holds: what stands for it in the text of its request. `Err` only
/// where memory was refused; part of the text may stand there then.
pub fn put_span(alloc: Global, out: &mut Vec<u8>, block: &SpanBlock) -> Result<(), AllocError>
    ensures { OnOk result (out.new.items ≡ out.old.items ++ span_text block.now) }
{
    let mut sink = JsonSink {
        alloc,
        writer: Writer::new(mem::replace(out, Vec::new(alloc))),
        failed: false,
    };
    span(&mut sink, block.as_bytes());
    let failed = sink.failed;
    let JsonSink {
        alloc: _,
        writer,
        failed: _,
    } = sink;
    *out = writer.into_inner();
    if failed { Err(AllocError) } else { Ok(()) }
}

/// The size of the span that a block holds: the bytes of its canonical text, up to 2^64 - 1, counted without writing them.
/// It takes no memory.
pub fn block_size(block: &SpanBlock) -> u64
    ensures { result ≡ min (length (span_text block.now)) (2 ^ 64 - 1) }
{
    let mut sink = ByteSink {
        bytes: 0,
        after_value: false,
    };
    span(&mut sink, block.as_bytes());
    sink.bytes
}
