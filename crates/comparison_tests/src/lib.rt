//! Tests of the comparison of two runs, by its public calls alone.
#![tactic(auto)]

#[cfg(test)]
mod tests;
