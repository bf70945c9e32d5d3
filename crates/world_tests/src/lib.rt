//! Tests of journals and the core, by their public calls alone. They stand beside the crates that they test, so that
//! those are proved once less.
#![tactic(auto)]

#[cfg(test)]
mod tests;
