//! What a run is lent of the machine.
use std::random::RandomSource;
use std::sync::Wait;
use std::thread::Threads;
use std::time::Clock;

/// Threads, waiting for one another, the time and a random source, for all threads of a run.
pub trait Machine: Threads + Wait + Clock + RandomSource + Sync {}

// Files, the net and `Send` stand beside it in full: what goes to a thread is checked at the function (D-286).
impl<T: Threads + Wait + Clock + RandomSource + Sync> Machine for T {}
