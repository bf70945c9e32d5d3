//! What a limiter grants over any stretch of seconds (tailsamplingprocessor README, `rate_limiting`, `bytes_limiting`).
//! No code is in it.
//!
//! The definitions are in `specs/`, to be read in this order: `Window`, `Laws`. The functions of the module `laws` do
//! nothing: the contract of each is a law.
#![tactic(auto)]

pub mod laws;
