//! The configuration of the collector: a TOML text, read into its settings and policies, or one numbered fault
//! (tailsamplingprocessor README, "decision_wait", "num_traces", "decision_cache", "policies"; batchprocessor README,
//! "send_batch_size"; the other keys are this project's own).
//!
//! [`read`] looks for the faults of the table first, in a walk that takes no memory ([`config_faults::table_fault`]);
//! what the table gives is made only where there is none, and the regular expressions of its policies are looked at
//! last. No contract keeps [`read`] from answering that it found no memory, except for a text without keys: that a text
//! can be read is a test.
//!
//! ```
//! let config = read(alloc, "decision_wait_ms = 10000\n[[policies]]\nname = \"all\"\ntype = \"always_sample\"\n")?;
//! assert!(config.decision_wait == 10_000 && config.send_batch_size == 512);
//! ```
#![tactic(auto)]

mod composites;
mod config;
mod exports;
mod expressions;
mod headers;
pub mod laws;
mod ledger;
mod log_form;
mod output_fault;
mod settings_values;
mod values;

pub use config::{Config, read};
pub use exports::{Export, ExportEncoding};
pub use headers::HeaderField;
pub use ledger::{Ledger, LedgerSync};
pub use log_form::LogForm;
pub use output_fault::OutputFault;
pub use settings_values::number_at;
pub use values::policies_at;
