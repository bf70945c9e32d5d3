//! The entry of a shard's journal is made while the shard takes an item and decides what is due at it, and put into the
//! shard's ledger.
//!
//! ```
//! let mut limiter = Noting::new(alloc, seat);
//! let (mut draft, taken) = EntryDraft::take(alloc, &mut shard, item, true)?;
//! while shard.has_due() {
//!     let decided = draft.decide(alloc, &mut shard, &mut limiter);
//! }
//! record_entry(alloc, draft, &mut ledger)?;
//! ```
#![tactic(auto)]

mod draft;
mod noting;
mod recording;

pub use draft::EntryDraft;
pub use noting::Noting;
pub use recording::{RecordFault, record_entry};
