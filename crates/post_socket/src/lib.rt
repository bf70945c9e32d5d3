//! A backend over a socket: a connection that is kept alive and made again where it breaks, and on it one request after
//! the other.
//!
//! What is sent and read is `post_http`'s, and what is done after each attempt `batch_post`'s. Here is what only the
//! system can do: to connect, to wait and to tell the time, of which no contract can say more than that it happens.
//!
//! ```
//! let settings = BackendSettings {
//!     authority: "127.0.0.1:4318",
//!     path: "/v1/traces",
//!     fields: &fields,
//!     protobuf: None,
//!     timeout: 5_000,
//!     close_wait: 5_000,
//! };
//! let backend = SocketBackend::new(&rt, alloc, settings, &watch);
//! let posts = Posts::new(&rt, rule, backend);
//! ```
#![tactic(auto)]

mod backend;
mod bodies;
mod closing;
mod connecting;
mod rejected;
mod watch;

pub use backend::{BackendSettings, SocketBackend};
pub use bodies::{NoBody, protobuf_body};
pub use rejected::rejected_in;
pub use watch::Watch;
