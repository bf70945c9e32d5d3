//! How the bytes of a lane's connections were cut into turns makes no difference, as laws over what a lane did for all
//! of its connections. No code is in it.
//!
//! The definitions are in `specs/Connections`. The functions of the module `laws` do nothing: the contract of each is a
//! law.
#![tactic(auto)]

pub mod laws;
