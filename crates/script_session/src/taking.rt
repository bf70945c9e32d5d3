//! What shards do with their queues, and where their spans go.
ghost use Rattle.std.specs.Prelude.{◌≡◌, ℕ, ◌+◌, ◌<◌, ◌≤◌, List, [], ◌∷◌, Bool, true, false, length, map, drop, if◌then◌else◌};
ghost use Rattle.std.specs.List.{AllByRecursion, list_all};
ghost use Rattle.rate_budget.specs.Budget.{limiter_counts, has_node};
ghost use Rattle.journal_theory.specs.Journal.{Entry, Settings, has_ids};
ghost use Rattle.shard_core.specs.Held.{StandsFor, has_due, is_finished, settings};
ghost use Rattle.shard_core.specs.Taking.{ends_after};
ghost use Rattle.script_run.specs.World.{ShardTurn, to_each};
ghost use Rattle.script_session.specs.Signals.{item_of};
ghost use Rattle.script_session.specs.Pulling.{PullsAll, GoesOn, TakesItems, DecidesAll, has_nodes_of, has_all_nodes, AreOpen, AreQuiet, HaveSettings, EachTakes, RoundsTaken, StayBefore, rounds_of, is_queued, emptied, items_in, HoldsQueued};

use crate::listening::{Listener, decide_told, tell_taken};
use crate::output::Output;
use crate::signal::Signal;
use lane_queue::ListPort;
use otlp_types::Item;
use rate_budget::Budgets;
use shard_core::{Shard, settle_decided, settle_taken};
use span_sink::Sink;

/// Takes an item, decides all that is due by the limiter, and puts what that releases into the batch.
pub fn take_item<S: Sink, L: Listener>(
    shard: &mut Shard,
    limiter: &mut Budgets,
    output: &mut Output<S>,
    listener: &mut L,
    item: Item,
)
    requires nothing_due { has_due shard.old ≡ false }
    requires running { is_finished shard.old ≡ false }
    requires ids { has_ids item ≡ true }
    requires nodes { has_nodes_of limiter.old shard.old ≡ true }
    ensures takes { TakesItems shard.old limiter.old output.old (item ∷ []) shard.new limiter.new output.new }
    ensures nodes { (node : ℕ) → has_node limiter.new node ≡ has_node limiter.old node }
    ensures nothing_due { has_due shard.new ≡ false }
    ensures ends { shard.new.standing.ends ≡ ends_after item shard.old.standing.ends }
    ensures settings { settings shard.new ≡ settings shard.old }
    ensures goes_on { GoesOn output.old output.new }
{
    // Nothing limits memory here but the allocator itself.
    let taken = shard.take(item, true);
    tell_taken(listener, &taken, shard.clock());
    settle_taken(&(), taken, output);
    decide_all(shard, limiter, output, listener);
}

/// Decides all that is due by the limiter, and puts what that releases into the batch.
fn decide_all<S: Sink, L: Listener>(
    shard: &mut Shard,
    limiter: &mut Budgets,
    output: &mut Output<S>,
    listener: &mut L,
)
    requires nodes { has_nodes_of limiter.old shard.old ≡ true }
    ensures decides { (e : Entry) (past : ShardTurn) → e.answers ≡ [] → StandsFor shard.old (e ∷ past.journal) 0 → limiter.old ≡ limiter_counts (settings shard.old).policies past.askings
        → DecidesAll (settings shard.old) e past output.old shard.new limiter.new output.new }
    ensures nodes { (node : ℕ) → has_node limiter.new node ≡ has_node limiter.old node }
    ensures nothing_due { has_due shard.new ≡ false }
    ensures ends { shard.new.standing.ends ≡ shard.old.standing.ends }
    ensures settings { settings shard.new ≡ settings shard.old }
    ensures goes_on { GoesOn output.old output.new }
{
    'deciding: loop {
        let decided = decide_told(shard, limiter, listener);
        if !settle_decided(&(), decided, output) {
            return;
        }
    }
}

/// Takes what a queue holds, in order, and decides by the limiter.
pub fn drain<S: Sink, L: Listener>(
    shard: &mut Shard,
    queue: &mut ListPort<Item>,
    limiter: &mut Budgets,
    output: &mut Output<S>,
    listener: &mut L,
)
    requires nothing_due { has_due shard.old ≡ false }
    requires running { is_finished shard.old ≡ false }
    requires queued { list_all is_queued queue.old.items ≡ true }
    requires nodes { has_nodes_of limiter.old shard.old ≡ true }
    ensures takes { TakesItems shard.old limiter.old output.old queue.old.items shard.new limiter.new output.new }
    ensures nodes { (node : ℕ) → has_node limiter.new node ≡ has_node limiter.old node }
    ensures emptied { queue.new ≡ record queue.old { items = [] } }
    ensures nothing_due { has_due shard.new ≡ false }
    ensures ends { shard.new.standing.ends ≡ shard.old.standing.ends }
    ensures settings { settings shard.new ≡ settings shard.old }
    ensures goes_on { GoesOn output.old output.new }
{
    'draining: loop {
        let Some(item) = queue.pop() else {
            return;
        };
        take_item(shard, limiter, output, listener, item);
    }
}

/// Each shard in its turn takes what its queue holds.
pub fn take_queued<S: Sink, L: Listener>(
    shards: &mut [Shard],
    queues: &mut [ListPort<Item>],
    limiter: &mut Budgets,
    output: &mut Output<S>,
    listener: &mut L,
)
    requires same { length queues.old ≡ length shards.old }
    requires open { AreOpen shards.old }
    requires queued { AllByRecursion HoldsQueued queues.old }
    requires nodes { has_all_nodes limiter.old shards.old ≡ true }
    ensures takes { EachTakes shards.old limiter.old output.old (items_in queues.old) shards.new limiter.new output.new }
    ensures nodes { has_all_nodes limiter.new shards.new ≡ true }
    ensures same_nodes { (node : ℕ) → has_node limiter.new node ≡ has_node limiter.old node }
    ensures emptied { queues.new ≡ map emptied queues.old }
    ensures quiet { (ends : List Bool) → AreQuiet ends shards.old → AreQuiet ends shards.new }
    ensures settings { (s : Settings) → HaveSettings s shards.old → HaveSettings s shards.new }
    ensures length { length shards.new ≡ length shards.old }
    ensures goes_on { GoesOn output.old output.new }
{
    take_from(shards, 0, queues, limiter, output, listener);
}

/// The same of the shards from this place on, of which these are the queues.
fn take_from<S: Sink, L: Listener>(
    shards: &mut [Shard],
    place: usize,
    queues: &mut [ListPort<Item>],
    limiter: &mut Budgets,
    output: &mut Output<S>,
    listener: &mut L,
)
    requires same { place + length queues.old ≡ length shards.old }
    requires runs { AreOpen (drop place shards.old) }
    requires queued { AllByRecursion HoldsQueued queues.old }
    requires nodes { has_all_nodes limiter.old (drop place shards.old) ≡ true }
    ensures takes { EachTakes (drop place shards.old) limiter.old output.old (items_in queues.old) (drop place shards.new) limiter.new output.new }
    ensures nodes { has_all_nodes limiter.new (drop place shards.new) ≡ true }
    ensures same_nodes { (node : ℕ) → has_node limiter.new node ≡ has_node limiter.old node }
    ensures emptied { queues.new ≡ map emptied queues.old }
    ensures quiet { (ends : List Bool) → AreQuiet ends (drop place shards.old) → AreQuiet ends (drop place shards.new) }
    ensures settings { (s : Settings) → HaveSettings s (drop place shards.old) → HaveSettings s (drop place shards.new) }
    ensures length { length shards.new ≡ length shards.old }
    ensures before { StayBefore place shards.old shards.new }
    ensures goes_on { GoesOn output.old output.new }
{
    let Some((queue, rest)) = queues.split_first_mut() else {
        return;
    };
    drain(&mut shards[place], queue, limiter, output, listener);
    take_from(shards, place + 1, rest, limiter, output, listener);
}

/// Where a request's spans were received, each shard in its turn takes what its queue holds.
pub fn take_received<S: Sink, L: Listener>(
    received: bool,
    shards: &mut Vec<Shard>,
    queues: &mut Vec<ListPort<Item>>,
    limiter: &mut Budgets,
    output: &mut Output<S>,
    listener: &mut L,
)
    requires same { length queues.old.items ≡ length shards.old.items }
    requires open { AreOpen shards.old.items }
    requires queued { AllByRecursion HoldsQueued queues.old.items }
    requires nodes { has_all_nodes limiter.old shards.old.items ≡ true }
    ensures takes { RoundsTaken shards.old.items limiter.old output.old (rounds_of received queues.old.items) shards.new.items limiter.new output.new }
    ensures nodes { has_all_nodes limiter.new shards.new.items ≡ true }
    ensures emptied { queues.new.items ≡ (if received then map emptied queues.old.items else queues.old.items) }
    ensures quiet { (ends : List Bool) → AreQuiet ends shards.old.items → AreQuiet ends shards.new.items }
    ensures settings { (s : Settings) → HaveSettings s shards.old.items → HaveSettings s shards.new.items }
    ensures length { length shards.new.items ≡ length shards.old.items }
    ensures goes_on { GoesOn output.old output.new }
{
    if received {
        take_queued(shards, queues, limiter, output, listener);
    }
}

/// Each shard in its turn is told the same, and decides by the one limiter.
pub fn tell_each<S: Sink, L: Listener>(
    shards: &mut [Shard],
    limiter: &mut Budgets,
    output: &mut Output<S>,
    listener: &mut L,
    signal: Signal,
)
    requires open { AreOpen shards.old }
    requires nodes { has_all_nodes limiter.old shards.old ≡ true }
    ensures takes { EachTakes shards.old limiter.old output.old (to_each (item_of signal) shards.old) shards.new limiter.new output.new }
    ensures nodes { has_all_nodes limiter.new shards.new ≡ true }
    ensures same_nodes { (node : ℕ) → has_node limiter.new node ≡ has_node limiter.old node }
    ensures quiet { (ends : List Bool) → AreQuiet ends shards.old → AreQuiet (ends_after (item_of signal) ends) shards.new }
    ensures settings { (s : Settings) → HaveSettings s shards.old → HaveSettings s shards.new }
    ensures length { length shards.new ≡ length shards.old }
    ensures goes_on { GoesOn output.old output.new }
{
    // In turn over one limiter, so shard 0 is always asked first (D-056).
    tell_from(shards, 0, limiter, output, listener, signal);
}

/// The same of the shards from this place on.
fn tell_from<S: Sink, L: Listener>(
    shards: &mut [Shard],
    place: usize,
    limiter: &mut Budgets,
    output: &mut Output<S>,
    listener: &mut L,
    signal: Signal,
)
    requires within { place ≤ length shards.old }
    requires runs { AreOpen (drop place shards.old) }
    requires nodes { has_all_nodes limiter.old (drop place shards.old) ≡ true }
    ensures takes { EachTakes (drop place shards.old) limiter.old output.old (to_each (item_of signal) (drop place shards.old)) (drop place shards.new) limiter.new output.new }
    ensures nodes { has_all_nodes limiter.new (drop place shards.new) ≡ true }
    ensures same_nodes { (node : ℕ) → has_node limiter.new node ≡ has_node limiter.old node }
    ensures quiet { (ends : List Bool) → AreQuiet ends (drop place shards.old) → AreQuiet (ends_after (item_of signal) ends) (drop place shards.new) }
    ensures settings { (s : Settings) → HaveSettings s (drop place shards.old) → HaveSettings s (drop place shards.new) }
    ensures length { length shards.new ≡ length shards.old }
    ensures before { StayBefore place shards.old shards.new }
    ensures goes_on { GoesOn output.old output.new }
{
    if place < shards.len() {
        take_item(&mut shards[place], limiter, output, listener, signal.item());
        tell_from(shards, place + 1, limiter, output, listener, signal);
    }
}
