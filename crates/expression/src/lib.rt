//! Regular expressions by their texts, as policies have them (Rust's regex crate; unanchored).
//!
//! ```
//! let mut expression = Expression::new(alloc, "^/health")?;
//! assert!(expression.is_match("/health/live"));
//! ```
#![tactic(auto)]

mod expression;
mod searches;

pub use expression::{Expression, ExpressionFault, check};
pub use searches::Searches;
