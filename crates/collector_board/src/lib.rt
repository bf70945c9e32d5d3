//! What the threads of a collector that runs tell one another: the board of its counts, the mark to stop and who set it,
//! for how long a write has been under way, what became of which trace, what shards hold of one, and what came; and what writes there beside its work: the output, and what sends batches.
//!
//! ```
//! let board = Board::new(alloc, config.shards, &config.policies)?;
//! let stop = StopMark::new();
//! let watch = ExportWatch::new(&stop, &board);
//! ```
#![tactic(auto)]

mod board;
mod cells;
mod decision_listeners;
mod decision_queue;
mod decision_ring;
mod export_progress;
mod export_watch;
mod ledger_desk;
mod output_stall;
mod record_queue;
mod stop_mark;
mod stopping_sink;
mod tick_gate;
mod trace_questions;
mod watched_destination;
mod watching;
mod write_news;
mod write_watch;

pub use board::Board;
pub use decision_listeners::{DecisionListeners, LOOKED_FOR};
pub use decision_queue::DecisionQueue;
pub use decision_ring::{DecisionRing, REMEMBERED};
pub use export_progress::{ExportProgress, left_by};
pub use export_watch::ExportWatch;
pub use ledger_desk::LedgerDesk;
pub use output_stall::OutputStall;
pub use record_queue::RecordQueue;
pub use stop_mark::{Closer, StopMark};
pub use stopping_sink::StoppingSink;
pub use tick_gate::TickGate;
pub use trace_questions::TraceQuestions;
pub use watched_destination::WatchedDestination;
pub use write_watch::WriteWatch;
