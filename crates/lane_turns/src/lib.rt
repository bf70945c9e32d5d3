//! A lane that serves many connections at once, turn by turn.
//!
//! A [`Driver`] finds out which connections are ready, and when; [`serve_turns`] gives each its turn, in the order in
//! which the driver says so. What a lane did is a list of acts (`specs/Acts`): the turns of one connection are those of
//! its transcript by the clock, it numbers its spans on from turn to turn, and what the turns submit goes to the lane
//! one after the other.
//!
//! ```
//! let lent = Lent { alloc, stop: &mark, clock: &clock, answers: &answers };
//! let is_full = serve_turns(&rt, &lent, allowed, &mut driver, &mut lane, &mut report);
//! ```
#![tactic(auto)]

mod serving;
mod table;

pub use serving::{Done, Driver, Next, serve_turns};
pub use table::Leaving;
