//! The senders end one after the other.
ghost use Rattle.std.specs.Prelude.{◌≡◌, ◌+◌, ◌<◌, true, false, length};
ghost use Rattle.journal_theory.specs.Journal.{Settings};
ghost use Rattle.script_run.specs.World.{ends_from};
ghost use Rattle.script_session.specs.Pulling.{GoesOn, AreQuiet, HaveSettings, RoundsTaken, ends_of, has_all_nodes};

use crate::listening::Listener;
use crate::output::Output;
use crate::signal::Signal;
use crate::taking::tell_each;
use rate_budget::Budgets;
use shard_core::Shard;
use span_sink::Sink;

/// The lanes, of this number, end at each shard, and then the ticker.
pub fn end_all<S: Sink, L: Listener>(
    shards: &mut [Shard],
    limiter: &mut Budgets,
    output: &mut Output<S>,
    listener: &mut L,
    lanes: u16,
)
    requires quiet { AreQuiet (ends_of lanes false) shards.old }
    requires nodes { has_all_nodes limiter.old shards.old ≡ true }
    ensures takes { RoundsTaken shards.old limiter.old output.old (ends_from 0 (lanes + 1) shards.old) shards.new limiter.new output.new }
    ensures nodes { has_all_nodes limiter.new shards.new ≡ true }
    ensures quiet { AreQuiet (ends_of lanes true) shards.new }
    ensures settings { (s : Settings) → HaveSettings s shards.old → HaveSettings s shards.new }
    ensures length { length shards.new ≡ length shards.old }
    ensures goes_on { GoesOn output.old output.new }
{
    // One after the other at every shard, and then the ticker: only the last End makes traces due (D-236).
    for lane in 0..lanes {
        tell_each(shards, limiter, output, listener, Signal::End(lane));
    }
    tell_each(shards, limiter, output, listener, Signal::End(lanes));
}
