//! Jobs on threads of their own: all are started, or none does anything; and what each did is known once it is joined.
//!
//! [`start_all`] starts a thread for each [`Job`] in a scope. Each waits for one start word, and runs its job where
//! that says yes. [`join_all`] gives what the jobs left, in their order, once the word has said yes; once it has said
//! no, [`take_all_back`] gives the jobs back. [`run_team`] does this for jobs of three kinds, beside one on the
//! caller's thread.
//!
//! ```
//! match run_team(&rt, alloc, team, main) {
//!     Ok((team, main)) => gather(team, main), // all have run
//!     Err((team, main)) => return_them(team, main), // none has
//! }
//! ```
#![tactic(auto)]

mod job;
mod joining;
mod starting;
mod team;
mod word;

pub use job::{Ended, Job, ThreadPromise, ThreadResult};
pub use joining::{join, join_all, take_all_back, take_back};
pub use starting::{Begun, Handle, Started, start, start_all};
pub use team::{Team, run_team};
