//! What a lane makes of a request: arrivals with their numbers and routes, pushes to the shards' queues, and a reply.
//!
//! A [`Lane`] has a port for each shard. It numbers its connections, and the spans that come on each of them.
//!
//! ```
//! let mut lane = Lane::new(0, ports).keeping_doubles(true);
//! let mut conn = lane.connect();
//! let reply = lane.submit(alloc, &mut conn, Encoding::Json, body, moment);
//! ```
#![tactic(auto)]

mod counting;
mod lane;
mod law;
mod preparing;
mod pushing;
mod reply;
mod routing;

pub use counting::count_reply;
pub use lane::{Lane, LaneEnd};
pub use law::{full_queues_are_counted, list_pushes_are_determined};
pub use preparing::{Conn, Prepared, count_invalid, prepare};
pub use reply::Reply;
pub use routing::route;
