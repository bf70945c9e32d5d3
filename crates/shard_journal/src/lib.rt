//! What a shard's journal says, computed by looking back over the items that the shard took.
//!
//! It holds no buffer and no cache: each answer is read off the list of items, as the definitions of `journal_theory`
//! say. It is slow, and serves as the plain form against which a shard is compared. In a slice of entries the oldest
//! stands first. Memory is refused by an `Err`; nothing that was handed in changes.
#![tactic(auto)]

mod answers;
mod asked;
mod deciding;
mod due;
mod entry;
mod finding;
mod looking;
mod moments;
mod noted;
mod noting;
mod settings;
mod spans;
mod verdicts;

pub use answers::{decision_at, effect_of_taking};
pub use asked::{Finding, finding_of, remembered};
pub use entry::{DroppedSpan, Effect, Entry};
pub use looking::LookBack;
pub use moments::{clock, has_ended, have_ended};
pub use settings::Settings;
