//! The core of the collector as a program: a world of lanes, shards and the exporter as plain lists, and its steps.
//!
//! What the core is, and what holds of every run of it, says `world_theory` (`World`, `Step`, `Places`, `Headline` of
//! its `specs/`). Its module `laws` is shown here too: it has the headline, part by part, and each of its functions
//! does nothing, and its contract is what holds of every run, for every configuration that keeps a trace, every number
//! of lanes and shards and every list of steps.
//!
//! [`World`] keeps the lists of the definition, makes a step exactly where it is enabled, and looks back over a shard's
//! journal for what the shard does. `specs/Core` and `specs/Answers`, to be read in this order, say what it answers.
//! Lanes and senders have numbers of 16 bits, since the keys of spans and the items of shards keep them so; a world has
//! at most 65535 lanes, and then the ticker's number is the last.
#![tactic(auto)]

mod config;
mod exporting;
mod lane;
mod receiving;
mod replay;
mod shard;
mod step;
mod taking;
mod world;

pub use config::CoreConfig;
pub use step::{Step, StepRefusal};
pub use world::World;
pub use world_theory::laws;
