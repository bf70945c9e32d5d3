//! What shards hand to the exporter: released spans, each with the policy that decided, and how its name gets into a
//! record (tailsamplingprocessor, `recordpolicy`).
//!
//! ```
//! let shipment = Shipment::Span(arrival, Some(2));
//! note_policies(alloc, &names, &policies, batch.as_mut_slice())?;
//! ```
#![tactic(auto)]

mod noting;
mod shipment;

pub use noting::note_policies;
pub use shipment::Shipment;
