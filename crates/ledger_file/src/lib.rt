//! A ledger on disk: an append-only file of records. What was committed is found again after a crash, in order.
#![tactic(auto)]

mod batch;
mod checksum;
mod create;
mod error;
mod frame;
mod laws;
mod ledger;
mod opening;
mod reading;
mod segments;
mod synced;
mod visit;

pub use checksum::extend_checksum;
pub use error::LedgerError;
pub use laws::{found_if_synced, found_if_written};
pub use ledger::Ledger;
pub use segments::{Segment, Segments};
pub use visit::Visit;
