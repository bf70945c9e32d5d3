//! Drives a lane by the readiness of its connections (`mio`, over epoll): which connection has its turn next, what came
//! on it, and what is sent to it.
//!
//! A [`TurnDriver`] is the [`Driver`](lane_turns::Driver) of one lane. Nothing that `lane_turns` promises rests on what
//! it reports. It never waits on a socket: what one doesn't take is kept in an [`Outgoing`] and goes on when it may,
//! and no further request is read before. Behind an answer that closes, what the client still sends is thrown away for
//! a while, so that the answer reaches it (RFC 9112, section 9.6).
//!
//! ```
//! let share = ConnectionShare { limit: 64, loads, lane: 0 };
//! let driver = TurnDriver::new(&rt, alloc, &listener, &mark, &(), share)?;
//! ```
#![tactic(auto)]

mod driver;
mod link;
mod links;
mod loads;
mod looks;
mod outgoing;
mod readiness;
mod rounds;
mod traffic;
mod waiting;
mod walk;

pub use driver::TurnDriver;
pub use link::{LINGER_BYTES, LINGER_LIMIT, WRITE_LIMIT};
pub use loads::{ConnectionShare, Loads};
pub use outgoing::{Outgoing, SendResult};
pub use rounds::RoundKeeper;
pub use traffic::{Traffic, TrafficEvent};
