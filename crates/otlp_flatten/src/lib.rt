//! A request as a list of records, and records grouped as a request again.
//!
//! [`flatten`] gives the spans in document order, each with its resource, scope and schema URLs. [`group`] gives
//! neighbours of equal resource and resource schema URL one `ResourceSpans`, and in it neighbours of equal scope and
//! scope schema URL one `ScopeSpans`. There is one such request for each list of records, as
//! [`grouping_is_unique`] says.
//!
//! ```
//! let mut records = flatten(alloc, request)?;
//! let grouped = group(alloc, records.as_mut_slice())?;
//! ```
#![tactic(auto)]

mod grouping;
mod records;
mod runs;
mod same;
mod unique;

pub use grouping::group;
pub use records::flatten;
pub use runs::HasRecord;
pub use same::Same;
pub use unique::grouping_is_unique;
