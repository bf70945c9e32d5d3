//! A script of requests and moments, run in one thread: lanes, queues, shards, exporter and counts together.
//!
//! [`replay_run`] promises that what it did is what the script's instructions lead to, and so a run of the core:
//! `specs/Replay` says what each of its answers tells of the reader, the sink and the report.
//!
//! ```
//! let (sink, answer) = replay_run(alloc, config, &mut reader, sink);
//! ```
#![tactic(auto)]

mod comparing;
mod connections;
mod ending;
mod fault;
mod laws;
mod listening;
mod output;
mod receiving;
mod replay;
mod replying;
mod session;
mod signal;
mod taking;

pub use comparing::{ComparedRuns, Discards, compare_run};
pub use fault::ReplayFault;
pub use laws::calm_replays_agree;
pub use listening::{Listener, Unheard};
pub use replay::replay_run;
