//! Bounded queues from lanes to shards and from shards to the exporter.
//!
//! [`Port`] is the end of a queue at which items are pushed. [`ListPort`] is a whole queue in one thread. Between
//! threads [`LaneQueue`] makes a queue for each [`Sender`], and one [`Receiver`] for all of them; a [`SenderPort`] is a
//! `Sender` with the handle by which it may wait, so `try_push` is passed none. [`new_grid`] makes the queues from each
//! of several senders to each of several receivers at once, and [`reunite_grid`] joins them again.
//!
//! Between threads, whatever the schedule: each sender's queue has a history at every moment. Its pushes are those of
//! the sender's calls that were answered `Ok`, its pops those of the receiver there, each once and in order; a push is
//! refused only where the history leaves as many items as the queue may hold, a pop answers `None` only where each
//! queue's leaves none, and [`reunite`] gives one history of each queue that has all its pushes and pops. The
//! definitions are in `specs/`, their reading order in its `Lib`.
//!
//! ```
//! let mut port = ListPort::new(alloc, 2)?;
//! assert!(port.try_push(1).is_ok() && port.try_push(2).is_ok());
//! assert!(port.try_push(3) == Err(3));
//! assert!(port.pop() == Some(1));
//! ```
#![tactic(auto)]

mod bell;
mod brake;
mod calls;
mod ends;
mod flow;
mod law;
mod list_port;
mod making;
mod pause;
mod port;
mod receiver;
mod reuniting;
mod rule;
mod sender_port;

pub use brake::Brake;
pub use calls::{Call, CallLog};
pub use ends::Sender;
pub use law::{
    few_are_held, few_overtake, none_is_overtaken, popped_then_held_is_pushed, pops_take_turns,
};
pub use list_port::ListPort;
pub use making::{QueueGrid, new_grid};
pub use pause::Pause;
pub use port::Port;
pub use receiver::{LaneQueue, Receiver, reunite};
pub use reuniting::reunite_grid;
pub use rule::Room;
pub use sender_port::SenderPort;
