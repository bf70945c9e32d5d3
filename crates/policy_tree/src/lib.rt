//! Sampling policies as plain data, and lists of them that are within their limits (tailsamplingprocessor README,
//! "Policies"). What is said of them is read in this order: `specs/Tree` (the data), `Walk` (the limiter nodes in
//! order), `Meaning` (what a list of policies means), `Faults`, `Expressions`.
//!
//! ```
//! let policies = Policies::new(alloc, list)?;
//! let nodes = policies.limiters(alloc)?;
//! ```
#![tactic(auto)]

mod expressions;
mod fault;
mod laws;
mod leaves;
mod limit;
mod limiter_node;
mod names;
mod policies;
mod policy;
mod shape;

pub use expressions::{ExpressionKind, PolicyExpression};
pub use fault::PolicyFault;
pub use laws::limiters_are_of_the_walk;
pub use limit::Limit;
pub use limiter_node::LimiterNode;
pub use policies::Policies;
pub use policy::{Join, Leaf, Policy, PolicyKind, Wanted};
