//! The settings that are in force by a configuration, as a text: what the configuration says, and beside it the default
//! of each key that it doesn't name. The text is read as the same configuration.
//!
//! ```
//! let text = settings_in_force(alloc, "[[policies]]\nname = \"all\"\ntype = \"always_sample\"\n")?;
//! ```
#![tactic(auto)]

mod depth;
mod filling;
mod writing;

pub use writing::settings_in_force;
