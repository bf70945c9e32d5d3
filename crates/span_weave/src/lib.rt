//! The weave: what running threads did is a run of the core, as a law over plain lists, with no thread in it.
//!
//! The definitions are in `specs/`, to be read in this order: `Threads` (what each thread did, and what the threads
//! promise of it, `Meets`), `Woven` (the run of the core, and the law). The functions of this crate do nothing: the
//! contract of each is a law. The run's order is no order in time between threads: first each lane receives all that it
//! received and closes, then shard by shard each takes what it popped, and then the exporter's acts come in its order.
//!
//! What gives each premise of `Meets`:
//!
//! | Premise | Comes from |
//! |---|---|
//! | `numbered` | the empty list, and [`numbers_go_on`] for each request that a lane reads |
//! | `tried` | `lane_seq`'s `PushesAll` over the lane's ports, by the lemma `proofs/Tries` |
//! | `of_lane`, `of_ticker` | `shard_worker::work` (`of_queues`, `ended`), `lane_queue::reunite` (one history of each queue), `popped_then_held_is_pushed`, and [`all_was_popped`] |
//! | `of_senders` | `shard_worker::work` (`of_queues`: each popped item has the place of a queue) |
//! | `marked` | `shard_worker::work` (`marked`) |
//! | `answered` | `shard_worker::work` (`answered`) |
//! | `shipped`, `of_shards` | `shard_worker::work` (`shipped`), `span_exporter::work` (`of_queues`, `ended`), `reunite`, and [`all_was_pulled`] |
//! | `exports` | `span_exporter::work` (`leads`, `no_notes`), and [`calls_are_acts`] |
//! | `flushed` | `span_exporter::work` (`none_left`) |
//!
//! The journal of a shard's worker leaves out spans without valid ids; lanes push none, so after `reunite` it is the
//! journal of all that was popped. The counts of the woven run are those that `shard_worker::work` and
//! `span_exporter::work` promise (`counted`), where no count would have passed 2^64-1.
#![tactic(auto)]

ghost use Rattle.span_weave.specs.Calls.{CallsAreActs};
ghost use Rattle.span_weave.specs.Popped.{AllWasPopped, AllWasPulled};
ghost use Rattle.span_weave.specs.Woven.{NumbersGoOn, Weave, WovenHeadline};

/// A lane numbers what it receives by its connections, in whichever order their requests come: what it has received
/// stays numbered where one more request's spans are put behind it.
pub fn numbers_go_on()
    ensures { NumbersGoOn }
{}

/// Where a shard popped every sender's End, it popped all that each sender sent.
pub fn all_was_popped()
    ensures { AllWasPopped }
{}

/// Where the exporter popped every shard's End, it pulled all spans that each shard shipped.
pub fn all_was_pulled()
    ensures { AllWasPulled }
{}

/// The calls on an exporter are acts: what they pulled, handed over and counted is the same.
pub fn calls_are_acts()
    ensures { CallsAreActs }
{}

/// For all lists that meet what the threads promise there is a run of the core that did the same and ends closed. In it
/// come all receives and closes first; then shard by shard, before each take of a lane's span or End, that lane's
/// refused tries up to it and, for a span, its route; then ships and pulls in the exporter's order.
pub fn weave()
    ensures { Weave }
{}

/// Where the configuration keeps a trace, the headline holds of that run, and so of the threads' own lists.
pub fn woven_headline()
    ensures { WovenHeadline }
{}
