//! What `tsc` does where no collector is to run: it looks what its arguments ask for, reads a configuration, runs a
//! script by it, tells its faults, shows a request, or tells what is in a ledger's folder; and how it ends, whatever it did: its last text and its status.
//!
//! ```
//! let (writer, outcome) = replay_by(alloc, read_file(rt, alloc, path), &mut script, writer);
//! let (writer, status) = finish(writer, &mut text, outcome);
//! ```
#![tactic(auto)]

mod asking;
mod comparing;
mod configuration;
mod ledger;
mod outcome;
mod progress;
mod replay;
mod showing;
mod surroundings;
mod validating;

pub use asking::{Command, Form, HELP, LedgerForm, VERSION, asked};
pub use comparing::compare_by;
pub use configuration::{
    FileFault, MAX_CONFIG_LEN, ReadFault, config_in, config_of, read_file, text_in,
};
pub use ledger::{say_pending, tell_ledger};
pub use outcome::{Outcome, TEXT_ROOM, finish, without_memory};
pub use progress::Progress;
pub use replay::replay_by;
pub use showing::show_by;
pub use surroundings::Surroundings;
pub use validating::told_of;
