//! When the shards of a script decided each trace, what came out, and what its limiter granted, as laws over what the
//! script did. No code is in it.
//!
//! The definitions are in `specs/`, to be read in this order: `Laws`, `Windows`. The functions of the module `laws` do
//! nothing: the contract of each is a law.
#![tactic(auto)]

pub mod laws;
