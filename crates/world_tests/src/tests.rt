//! The tests, and what they share.
mod choices;
mod journals;
mod random_runs;
mod running_shard;
mod settings;
mod simulated;
mod spans;
mod worlds;
