//! What goes from shards to the exporter.
use otlp_types::Arrival;

/// What the exporter takes.
#[derive(Drop)]
pub enum Shipment {
    /// A span of a sampled trace, and the place of the policy that decided it among those at the top, from 0 on, where it
    /// is to be recorded.
    Span(Arrival, Option<u16>),
    /// The shard of this number sends nothing more.
    End(u16),
}
