//! The delivery of batches to a backend, one after the other (OTLP 1.x, OTLP/HTTP, "Failures" and "Throttling").
//!
//! [`deliver`] tries one batch until the backend took it or it is to be given up, [`Posts`] is a destination whose lines
//! are the batches, and [`PrintedPosts`] prints each line before it is posted. They know no threads and no sockets:
//! what tries, tells the time and waits is a [`Backend`], and its log has all of that. `specs/Rules` says what each answer
//! means and how long the waits are, `specs/Deliveries` what a delivery did.
//!
//! ```
//! let rule = Retry { initial: 5_000, longest: 30_000, patience: 300_000 };
//! let mut posts = Posts::new(&rt, rule, backend);
//! let is_taken = posts.hand(batch).is_ok();
//! ```
#![tactic(auto)]

mod backend;
mod delivering;
mod outcome;
mod posts;
mod printed_posts;
mod rule;

pub use backend::Backend;
pub use delivering::deliver;
pub use outcome::{AttemptOutcome, BatchFate};
pub use posts::Posts;
pub use printed_posts::PrintedPosts;
pub use rule::{Retry, RetryVerdict};
