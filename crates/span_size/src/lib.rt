//! The size of spans in bytes: that of their canonical texts (OTLP 1.x, JSON encoding), counted without writing them.
//!
//! What is proved: [`span_size`] and [`size_of`] answer exactly that size, up to 2^64 - 1, and one span more adds its
//! own size. They take no memory.
//!
//! ```
//! let bytes = size_of(episode.spans());
//! ```
#![tactic(auto)]

ghost use Rattle.std.specs.Prelude.{◌≡◌, ◌-◌, ◌^◌, min, length};
ghost use Rattle.span_size.specs.Size.{span_text, size_of};

mod counter;
mod counting;
mod escaped;
mod laws;
mod span;

use counter::ByteCounter;
use counting::HasSize;
pub use laws::{sizes_add, spans_have_size};
use otlp_types::{Arrival, Span};

/// The size of a span in bytes: that of its canonical text, up to 2^64 - 1.
pub fn span_size(span: &Span) -> u64
    ensures { result ≡ min (length (span_text span.now)) (2 ^ 64 - 1) }
{
    let mut counter = ByteCounter::new();
    span.count(&mut counter);
    counter.bytes
}

/// The size of spans in bytes: the sum of their sizes, up to 2^64 - 1. One span more adds its own size ([`sizes_add`]).
pub fn size_of(spans: &[Arrival]) -> u64
    ensures { result ≡ size_of spans.now }
{
    let mut size: u64 = 0;
    for arrival in spans {
        size = size.saturating_add(span_size(arrival.rec.span.get()));
    }
    size
}
