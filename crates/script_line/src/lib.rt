//! The lines of a script (`tsc_script`) that say what came: a request on a connection at a moment, and a tick.
//!
//! [`put_receive`] and [`put_tick`] append them; their bytes are those of `specs/Line`, and they read back as what was
//! put.
//!
//! ```
//! put_receive(&mut lines, connection, moment, body)?;
//! put_tick(&mut lines, moment)?;
//! ```
#![tactic(auto)]

mod connection;
mod fault;
mod laws;
mod line;
mod putting;

pub use connection::connection_number;
pub use fault::LineFault;
pub use laws::{connections_stay_apart, entries_read_back};
pub use line::{put_receive, put_tick};
