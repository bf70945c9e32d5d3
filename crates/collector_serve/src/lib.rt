//! `tsc serve` without its command line: what drives each lane on a listener, ticks of a clock and a mark to
//! stop, over the pipeline; beside it the address for those in charge, the look at the process's memory, and the events
//! that are told.
//!
//! ```
//! let listener = listen(&rt, alloc, "127.0.0.1:4318")?;
//! let lanes = drivers(&rt, alloc, &config, &listener, &charge.loads, &charge.stop, &charge)?;
//! let (sink, answer, not_begun) = serve_on(&context, config, lanes, sink);
//! ```
#![tactic(auto)]

mod admin_door;
mod admin_thread;
mod charge;
mod closing_door;
mod decision_entries;
mod event_writer;
mod history;
mod late_looks;
mod late_run;
mod ledger_events;
mod ledger_thread;
mod line_file;
mod line_writer;
mod lines_of;
mod log_watch;
mod memory_rule;
mod memory_watch;
mod record_entries;
mod requests;
mod restoring;
mod said_once;
mod serving;
mod steady_clock;
mod ticker;
mod visit;
mod wall_clock;

pub use admin_door::{end_admin, socket_path};
pub use admin_thread::start_admin;
pub use charge::{Charge, close_at_end};
pub use closing_door::ClosingDoor;
pub use decision_entries::DecisionEntries;
pub use event_writer::EventWriter;
pub use history::History;
pub use ledger_thread::LedgerThread;
pub use line_file::LineFile;
pub use line_writer::{LineLosses, LineWriter};
pub use lines_of::LinesOf;
pub use log_watch::start_log_watch;
pub use memory_rule::MemoryRule;
pub use memory_watch::{MEMORY_ACCOUNT, start_memory_watch};
pub use record_entries::RecordEntries;
pub use requests::{request_fields, with_export_room};
pub use restoring::Restoring;
pub use serving::{drivers, listen, port_alone, serve_on};
pub use steady_clock::SteadyClock;
pub use ticker::Ticker;
