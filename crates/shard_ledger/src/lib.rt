//! The ledger of a shard: the entries of its journal on a disk, and the shard that is restored from them, whatever a crash
//! has left.
//!
//! ```
//! let shard = Shard::new(alloc, policies, setup)?;
//! let Restored { shard, mut ledger, .. } = restore(alloc, disk, shard)?;
//! append_entry(&mut ledger, &entry)?; // waits
//! commit_entries(&mut ledger)?;       // each entry that waited is restored, whatever a crash does from now on
//! ```
#![tactic(auto)]

mod entries;
mod error;
mod laws;
mod restored;
mod restoring;

pub use entries::{append_entry, commit_entries};
pub use error::{AppendFault, RestoreFault};
pub use laws::{all_or_none_is_restored, entries_tell_journals};
pub use restored::{Restored, restore};
