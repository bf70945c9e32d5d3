//! One limiter of spans and of bytes per second for several seats, each of which may be on a thread of its own: what is
//! granted to all of them together is at most what the limit grants to one.
//!
//! A limiter node has one cell of two words, the greatest second asked and what is spent in it. Whatever the schedule,
//! the node has one history of askings at every moment, in which each is answered by the askings before it. The
//! definitions are in `specs/`, their reading order in its `Lib`.
//!
//! ```
//! let seats = SharedBudget::new(&rt, alloc, &policies, shards)?;
//! // Each shard's thread asks by its own seat. Once all are back:
//! SharedBudget::reunite(seats);
//! ```
#![tactic(auto)]

mod budget;
mod budget_seat;
mod known;
mod law;
mod node_budget;
mod node_seat;

pub use budget::SharedBudget;
pub use budget_seat::BudgetSeat;
pub use known::{Asked, HistoryPart, View};
pub use law::{asked_seats_may_be_compared, new_seats_have_nodes, stays_within};
