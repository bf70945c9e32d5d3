//! Limiters of spans and of bytes per second (tailsamplingprocessor README, `rate_limiting`, `bytes_limiting`): when an
//! asking is granted, what every limiter promises, and a limiter with one count for each limiter node of some policies.
//!
//! ```
//! let mut budgets = Budgets::new(alloc, &policies)?;
//! if budgets.has_node(node) && budgets.ask(node, second, spans) {
//!     release();
//! }
//! ```
#![tactic(auto)]

mod budgets;
mod count;
mod laws;
mod limiter;

pub use budgets::Budgets;
pub use count::LimiterCount;
pub use laws::{bucket_fills, other_nodes_stay};
pub use limiter::Limiter;
