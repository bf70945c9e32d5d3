//! The tables of a configuration: which keys they have, what stands there, and the least fault of one
//! (tailsamplingprocessor README, "decision_wait", "num_traces", "decision_cache", "policies"; batchprocessor README,
//! "send_batch_size"; the other keys are this project's own).
//!
//! A setting is one row, of its key, what its value is to be, and its default: of a configuration in
//! [`top_settings`], [`cache_settings`], [`export_settings`] and [`ledger_settings`], of a type of policy in
//! [`PolicyType::settings`]. Which keys a table has, and its faults, are told by these rows. No function takes memory.
//!
//! ```
//! let table = toml::table_from_str(alloc, "lanes = 65")?;
//! assert!(table_fault(&table) == Some(ConfigFault::MissingKey));
//! ```
#![tactic(auto)]

mod composites;
mod exports;
mod fault;
mod fault_walk;
mod headers;
mod joins;
mod keys;
mod percentages;
mod policy_faults;
mod policy_types;
mod settings;
mod settings_faults;
mod tables;

pub use composites::{is_named, is_text_at, order_fault};
pub use fault::ConfigFault;
pub use fault_walk::{table_fault, twice_fault};
pub use joins::{join_at, join_type, sub_key};
pub use keys::{TableKind, code_of, is_key, member, type_at};
pub use percentages::percentage_of;
pub use policy_types::PolicyType;
pub use settings::{DefaultValue, ItemKind, Setting, ValueKind};
pub use settings_faults::{item_fault, value_fault};
pub use tables::{
    ChoiceKey, NumberKey, TextKey, cache_settings, export_settings, ledger_settings, top_settings,
};
