//! How trace ids are hashed in the index of the traces that wait and in the caches of decisions.
//!
//! Trace ids come from outside. One who chooses them and knows how they are hashed can make many of them fall together,
//! and each look-up of those is as long as there are such traces. So a collector hashes by SipHash-1-3 with a key from
//! the system's random source, which nobody outside knows. A replay's ids stand in its own script: it hashes by a fixed
//! function, which takes fewer instructions.
//!
//! No answer depends on how ids are hashed, only the time of a look-up.
//!
//! ```
//! let hashing = TraceHashing::keyed(&rt)?; // of a collector
//! let hashing = TraceHashing::Fixed; // of a replay
//! ```
#![tactic(auto)]

mod hasher;
mod hashing;

pub use hasher::TraceHasher;
pub use hashing::TraceHashing;
