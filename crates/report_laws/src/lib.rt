//! What the nine numbers of a report add up to, of `tsc serve` and of `tsc replay`. No code is in it.
//!
//! The definitions are in `specs/`, to be read in this order: `Reports`, `Answers`. The functions of the module `laws`
//! do nothing: the contract of each is a law.
#![tactic(auto)]

pub mod laws;
