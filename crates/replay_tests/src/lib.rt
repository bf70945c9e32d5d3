//! Tests of a replay by its public call alone, over sinks that take little or fail. They stand beside `script_session`,
//! so that it is proved once less.
#![tactic(auto)]

#[cfg(test)]
mod small_sinks;
