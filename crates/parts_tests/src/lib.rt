//! Tests of queues, seats, batches over sinks, counts, jobs and ledgers, by their public calls alone. They stand beside
//! the crates that they test, so that those are proved once less.
#![tactic(auto)]

#[cfg(test)]
mod tests;
