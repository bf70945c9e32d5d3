//! Requests that were taken are kept in a folder until all of their spans have their end, so that they outlive a kill.
//!
//! Lanes write what they took ([`RequestLedger`]), a thread of its own writes what ended and removes what is over
//! ([`Keeper`]), and the next start reads what is still pending ([`Earlier`]). The rules are those of `request_ledger`.
//!
//! ```
//! let folder = LedgerFolder::open(&rt, alloc, path)?;
//! let ledger = RequestLedger::new(alloc, lanes, shards, false)?;
//! let mut keeper = Keeper::begin(rt, alloc, folder, &ledger, KeeperSettings { .. }, now)?;
//! if !ledger.keep(&rt, connection, moment, encoding, text) { .. }
//! keeper.turn(&rt, &ledger, now);
//! ```
#![tactic(auto)]

mod earlier;
mod file_reading;
mod folder;
mod keeper;
mod lane_file;
mod ledger;
mod marking;
mod notes;
mod pending_request;
mod releases;
mod totals;

pub use earlier::{Earlier, LoadedFile};
pub use folder::{FileNumber, LedgerFolder};
pub use keeper::{Keeper, KeeperSettings};
pub use ledger::{LedgerNews, RequestLedger};
pub use pending_request::PendingRequest;
pub use totals::FileTotals;
