//! What each limiter of running threads grants over any stretch of seconds. No code is in it.
//!
//! The definition is in `specs/Laws`. The function of the module `laws` does nothing: its contract is the law.
#![tactic(auto)]

pub mod laws;
