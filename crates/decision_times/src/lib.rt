//! When a trace is decided, in every run of the core: not before its time, and before anything else once that has come.
//! No code is in it.
//!
//! The definitions are in `specs/`, to be read in this order: `Times`, `Laws`. The functions of the module `laws` do
//! nothing: the contract of each is a law.
#![tactic(auto)]

pub mod laws;
