//! The numbers of a collector as a text that Prometheus reads (its text format, version 0.0.4).
//!
//! [`metrics_text`] is the whole of it, but for a ledger's numbers ([`put_ledger`]); its bytes are those of `specs/Text`.
//!
//! ```
//! let text = metrics_text(alloc, &metrics, &policies, &shards)?;
//! ```
#![tactic(auto)]

mod deciders;
mod figure;
mod kind;
mod law;
mod ledger;
mod metrics;
mod text;

pub use law::tells_all;
pub use ledger::{LedgerCounts, put_ledger};
pub use metrics::{Metrics, PolicyNumbers, ShardNumbers};
pub use text::{VERSION, metrics_text};
