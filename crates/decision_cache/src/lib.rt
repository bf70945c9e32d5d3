//! The verdicts of traces that have left the buffer (tailsamplingprocessor README, `decision_cache`).
//!
//! There is one list of traces for each verdict, the last touched first; a put into a full list drops the last of it.
//! Contracts speak of the lists, and of every list of touches (puts, and askings that found the trace) that the cache
//! stands for: what is remembered is said by looking back over the touches.
//!
//! ```
//! let mut cache = DecisionCache::new(alloc, TraceHashing::Fixed, 1000, 1000)?;
//! cache.remember(trace, Verdict::Sampled);
//! assert!(cache.ask(trace) == Some(Verdict::Sampled));
//! ```
#![tactic(auto)]

mod cache;
mod traces;

pub use cache::DecisionCache;
pub use traces::Remembered;
