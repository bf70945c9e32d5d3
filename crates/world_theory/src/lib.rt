//! The theory of the collector's core: a world of lanes, shards and the exporter as plain lists, its steps, and what
//! holds of every run of them. No code is in it.
//!
//! The definitions are in `specs/`, to be read in this order: `World`, `Step`, `Places`, `Headline`. The module `laws`
//! has the headline, part by part: each of its functions does nothing, and its contract is what holds of every run, for
//! every configuration that keeps a trace, every number of lanes and shards and every list of steps. `span_world` is
//! the same core as a program.
#![tactic(auto)]

pub mod laws;
