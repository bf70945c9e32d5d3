//! A lane and the ticker, each on a thread of its own: what their threads do, and what they promise of it.
//!
//! [`work`] has a [`LaneServer`] serve the lane's connections, and then pushes the lane's `End` to each shard.
//! [`ByTurns`] serves many connections at once, as a `lane_turns::Driver` says; [`OneByOne`], which tests have, those
//! that an [`Acceptor`] gives, one after the other. [`tick`] pushes the moments that [`Ticks`] give to every shard, and
//! then its own `End`.
//!
//! ```
//! let task = LaneTask { number, lane, room };
//! let mut server = ByTurns { driver, allowed };
//! let end = work(&rt, &lent, task, &mut server, &mut report, &barrier);
//! ```
#![tactic(auto)]

mod acceptor;
mod lane_server;
mod lane_worker;
mod ticker;

pub use acceptor::{Acceptor, Ticks};
pub use lane_server::{ByTurns, LaneServer, OneByOne};
pub use lane_worker::{LaneTask, LaneThreadEnd, work};
pub use ticker::tick;
