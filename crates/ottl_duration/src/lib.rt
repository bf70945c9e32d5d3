//! Durations by their texts, as `1h30m` and `-1.5s` (Go, `time.ParseDuration`, which OTTL's `Duration` calls).
#![tactic(auto)]

mod durations;

pub use durations::duration_of;
