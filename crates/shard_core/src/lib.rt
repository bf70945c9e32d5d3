//! A shard: it keeps the spans of its traces until each trace is decided, releases or counts them by the decision,
//! and hands late spans on by it (tailsamplingprocessor README, `decision_wait`).
//!
//! What a shard answers is a function of the list of items that it has taken, its journal, and of where memory was
//! refused. No journal is stored: each clause speaks of every journal that the shard stands for. The words for journals
//! are those of `journal_theory`, whose module `laws`, of what holds of every journal, is shown here too. The buffer
//! holds at most `num_traces` traces; the verdict of a decided trace that leaves it goes into a cache of decisions.
//!
//! ```
//! let mut shard = Shard::new(alloc, policies, setup)?;
//! let taken = shard.take(Item::Tick(now), true);
//! while shard.has_due() {
//!     let decided = shard.decide(&mut limiter);
//! }
//! ```
#![tactic(auto)]

mod answer;
mod desk;
mod ends;
mod held;
mod keeping;
mod setup;
mod shard;
mod telling;

pub use answer::{Decided, Decision, DueTrace, Taken};
pub use desk::{Desk, settle_decided, settle_taken};
pub use journal_theory::laws;
pub use setup::{ShardSetup, Waits};
pub use shard::Shard;
pub use telling::{told_answers, told_decision, told_evicted, verdict_of_late};
