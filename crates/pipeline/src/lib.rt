//! A running collector: a thread for each lane, each shard and the ticker, and the exporter on the caller's.
//!
//! [`run_by_turns_to`] has lanes that serve many connections at once, and batches that go to any destination: so the
//! program runs. [`run_by_turns`] prints lines to a sink, and [`run`] is over acceptors, one connection after another:
//! so tests do. Each makes all that the threads need, runs them as one team of jobs, gathers what they leave, and joins
//! their queues and seats again: what they did is a run of the core (`specs/Promise`).
//!
//! ```
//! let context = RunContext { rt: &rt, alloc, observer: &board, brake, stop: &mark, clock: &clock, answers: &answers };
//! let (sink, answer, not_begun) = run_by_turns(&context, config, drivers, ticks, sink);
//! ```
#![tactic(auto)]

mod exporter_job;
mod fault;
mod gathering;
mod joining;
mod lane_job;
mod lanes;
mod lent;
mod machine;
mod making;
mod running;
mod shard_job;
mod shards;
mod telling;
mod ticker_job;
mod watched_inbox;

pub use fault::ServeFault;
pub use lent::RunContext;
pub use machine::Machine;
pub use running::{run, run_by_turns, run_by_turns_to};
