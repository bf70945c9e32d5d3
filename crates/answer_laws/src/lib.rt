//! What an answer of status 200 promises a client, as a law over what the threads of `tsc serve` did. No code is in it.
//!
//! The definitions are in `specs/Answers`. The function of the module `laws` does nothing: its contract is the law.
#![tactic(auto)]

pub mod laws;
