//! That a shard of `tsc serve` and a shard of `tsc replay` do the same with the same items, as a law over what threads
//! did and what a script did. No code is in it.
//!
//! The definitions are in `specs/Same`. The function of the module `laws` does nothing: its contract is the law.
#![tactic(auto)]

pub mod laws;
