//! What the record of a run is replayed as, as laws over scripts. No code is in it.
//!
//! The definitions are in `specs/Recorded`. The functions of the module `laws` do nothing: their contracts are the laws.
#![tactic(auto)]

pub mod laws;
