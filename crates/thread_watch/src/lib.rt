//! What the threads of a run tell of themselves ([`Watcher`]), and what may hold them at a place ([`Barrier`]).
//!
//! ```
//! barrier.reach(ThreadPlace::Taken { shard: 2 });
//! watcher.counted(Count::Received.place(), 1);
//! ```
#![tactic(auto)]

mod barrier;
mod watcher;

pub use barrier::{Barrier, ThreadPlace};
pub use watcher::{MOST_ASKED, ShardLoad, Unwatched, Watcher};
