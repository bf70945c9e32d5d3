//! What is in a ledger's folder, as text: its numbers for people, and the requests that are pending as a script.
//!
//! [`numbers_text`] tells the numbers, [`script_of`] makes the lines that `tsc replay` reads, and [`refusal_text`] says why
//! a folder isn't told. What is in a folder is read elsewhere.
//!
//! ```
//! let connection = pending_connection(came.connection, run, runs, lanes)?;
//! let text = numbers_text(alloc, &look.numbers)?;
//! let script = script_of(alloc, &look.requests)?;
//! ```
#![tactic(auto)]

mod connection;
mod fault;
mod laws;
mod look;
mod script;
mod text;

pub use connection::pending_connection;
pub use fault::{FolderFault, fault_of, refusal_text};
pub use laws::pending_stay_apart;
pub use look::{LedgerLook, LedgerNumbers};
pub use script::{Script, script_of};
pub use text::{numbers_text, pending_line};
