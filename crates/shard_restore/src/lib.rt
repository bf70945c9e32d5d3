//! A shard is restored from the records of its journal's entries: each item is taken again, and what was decided at it is
//! decided again by the answers that the limiter gave then.
//!
//! ```
//! let mut shard = Shard::new(alloc, policies, setup)?;
//! for record in records {
//!     restore_record(alloc, &mut shard, &record)?;
//! }
//! ```
#![tactic(auto)]

mod again;
mod error;
mod given;
mod laws;
mod restore;

pub use again::{is_loss, is_nothing, is_refusal};
pub use error::RestoreError;
pub use laws::{new_is_restored, records_tell_journals};
pub use restore::restore_record;
