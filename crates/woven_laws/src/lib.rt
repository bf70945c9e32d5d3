//! When running threads decided each trace, and what came out, as laws over what the threads did. No code is in it.
//!
//! The definitions are in `specs/`, to be read in this order: `Laws`, `Routes`. The functions of the module `laws` do
//! nothing: the contract of each is a law.
#![tactic(auto)]

pub mod laws;
