//! What a user would ask of every run of the core: that its counts add up, that what was sampled comes out, and that
//! what a shard holds has a bound. No code is in it.
//!
//! The definitions are in `specs/`, to be read in this order: `Sums`, `Sampled`, `Untaken`, `Percentages`, `Bounds`.
//! The functions of the module `laws` do nothing: the contract of each is a law.
#![tactic(auto)]

pub mod laws;
