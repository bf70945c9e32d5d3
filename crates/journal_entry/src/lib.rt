//! The bytes of one entry of a shard's journal: an item that the shard took, its marks, and the limiter's answers at it.
//!
//! ```
//! let item = item_bytes(alloc, &entry.item)?;
//! put_entry(&mut out, &item, entry.refused, entry.lost, entry.answers.as_slice())?;
//! let again = entry_in(alloc, &out)?;
//! ```
#![tactic(auto)]

mod answers;
mod entry;
mod error;
mod laws;
mod numbers;
mod reading;
mod text;
mod writing;

pub use entry::JournalEntry;
pub use error::EntryError;
pub use laws::{bytes_are_one_entry, bytes_tell_entries, entries_are_read};
pub use reading::entry_in;
pub use writing::{item_bytes, put_entry};
