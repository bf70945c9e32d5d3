//! Tests of the buffer of traces, and of how trace ids are hashed, by their public calls alone: they stand beside them,
//! so that these are proved once less.
#![tactic(auto)]

#[cfg(test)]
mod buffers;
#[cfg(test)]
mod hashes;
