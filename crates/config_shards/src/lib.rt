//! The shards of a configuration: each with its share of the traces and of the caches.
//!
//! ```
//! let shards = new_shards(alloc, TraceHashing::Fixed, &config)?;
//! assert!(shards.len() == config.shards);
//! ```
#![tactic(auto)]

mod shards;

pub use shards::new_shards;
