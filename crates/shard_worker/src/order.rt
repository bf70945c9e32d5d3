//! Items in their order: a tick is taken behind what waited in the other queues when it was popped.
ghost use Rattle.std.specs.Prelude.{◌≡◌, ◌≢◌, ◌<◌, ◌+◌, ◌∷◌, ◌++◌, ℕ, List, [], length, IfSome, MatchOption, true, false};
ghost use Rattle.std.specs.List.{list_all};
ghost use Rattle.otlp_types.specs.declared.arrival.Item.{Item};
ghost use Rattle.lane_queue.specs.declared.calls.Call.{Call};
ghost use Rattle.lane_queue.specs.Ends.{EndState, queues, TakesAt};
ghost use Rattle.drop_ledger.specs.Places.{TallyState};
ghost use Rattle.policy_tree.specs.Tree.{limiters};
ghost use Rattle.policy_tree.specs.Meaning.{meaning};
ghost use Rattle.policy_eval.specs.Meaning.{knows};
ghost use Rattle.journal_theory.specs.Journal.{Entry, has_ids};
ghost use Rattle.shard_core.specs.Held.{has_due, is_finished, settings};
ghost use Rattle.shard_core.specs.Taking.{ends_after};
ghost use Rattle.shard_worker.specs.Work.{Round, calls_in, taken_in, IsBehind, IsRound};
ghost use Rattle.shard_worker.specs.News.{IsTold};
ghost use Rattle.shard_worker.specs.Turns.{AreAt, HasTaken, HoldsBack, IsCalled, IsOf};

use crate::turn::Turns;
use drop_ledger::Counter;
use lane_queue::{Receiver, Room};
use otlp_types::Item;
use rate_budget::Limiter;
use span_ids::Moment;
use std::sync::Wait;
use std::time::Clock;
use thread_watch::{Barrier, Watcher};

/// Whether a shard takes the item: a span has valid ids.
pub fn is_taken(item: &Item) -> bool
    ensures { result ≡ has_ids item.now }
{
    // Nothing is known of what comes out of a queue before its ends are joined, so ids are looked at here (D-144).
    match item {
        Item::Span(arrival) => arrival.rec.span.get().ids.is_some(),
        Item::Tick(_) | Item::End(_) => true,
    }
}

/// Takes the item that was popped last, and says whether every sender has ended. A tick is taken behind what waited in
/// the other queues when it was popped.
pub fn take_item<
    'b,
    RateLimits: Limiter + Drop,
    QueueRoom: Room,
    ExportRoom: Room,
    Ledger: Counter,
    Observer: Barrier + Watcher,
    Runtime: Wait + Clock,
>(
    rt: &Runtime,
    observer: &Observer,
    turns: &mut Turns<'b, RateLimits, ExportRoom, Ledger>,
    receiver: &mut Receiver<Item, QueueRoom>,
    item: Item,
) -> bool
    requires popped { 0 < receiver.old.next }
    requires nothing_due { has_due turns.old.shard ≡ false }
    requires running { is_finished turns.old.shard ≡ false }
    requires ids { has_ids item ≡ true }
    requires nodes { knows (RateLimits.has_node turns.old.limiter) (limiters (meaning turns.old.shard.policies)) ≡ true }
    ensures takes { (first : _) (before : TallyState) (earlier : List (ℕ × Entry)) (past : List Call) (place : ℕ) → receiver.old.next ≡ place + 1 → receiver.old.calls ≡ past ++ Call.Popped place ∷ []
        → HoldsBack (IsTold Observer.unheard Observer.told_decided Observer.told_evicted Observer.told_late observer.now turns.old.number) RateLimits.asks first (settings turns.old.shard) receiver.old.ends before turns.old.shard turns.old.desk.sender.items turns.old.desk.tally turns.old.limiter earlier place item
        → (round : Round) × IsRound QueueRoom.capacity (length receiver.old.ends) (settings turns.old.shard).senders earlier round
        × (receiver.new.calls ≡ past ++ calls_in round)
        × HasTaken (IsTold Observer.unheard Observer.told_decided Observer.told_evicted Observer.told_late observer.now turns.old.number) RateLimits.asks first (settings turns.old.shard) receiver.new.ends before turns.new.shard turns.new.desk.sender.items turns.new.desk.tally turns.new.limiter (earlier ++ taken_in round) }
    ensures nothing_due { has_due turns.new.shard ≡ false }
    ensures finished { result ≡ is_finished turns.new.shard }
    ensures settings { settings turns.new.shard ≡ settings turns.old.shard }
    ensures nodes { knows (RateLimits.has_node turns.new.limiter) (limiters (meaning turns.new.shard.policies)) ≡ true }
    ensures keeps { (node : ℕ) → RateLimits.has_node turns.new.limiter node ≡ RateLimits.has_node turns.old.limiter node }
    ensures same { (turns.new.number ≡ turns.old.number) × (turns.new.desk.sender.queue ≡ turns.old.desk.sender.queue) }
    ensures same_queues { queues receiver.new.ends ≡ queues receiver.old.ends }
{
    match item {
        Item::Tick(moment) => take_tick(rt, observer, turns, receiver, moment),
        Item::Span(arrival) => turns.turn(rt, observer, Item::Span(arrival)),
        Item::End(sender) => turns.turn(rt, observer, Item::End(sender)),
    }
}

/// Takes a tick that was popped last behind what waits in the other queues, and says whether every sender has ended:
/// the item with which they all have is taken behind the tick.
fn take_tick<
    'b,
    RateLimits: Limiter + Drop,
    QueueRoom: Room,
    ExportRoom: Room,
    Ledger: Counter,
    Observer: Barrier + Watcher,
    Runtime: Wait + Clock,
>(
    rt: &Runtime,
    observer: &Observer,
    turns: &mut Turns<'b, RateLimits, ExportRoom, Ledger>,
    receiver: &mut Receiver<Item, QueueRoom>,
    moment: Moment,
) -> bool
    requires popped { 0 < receiver.old.next }
    requires nothing_due { has_due turns.old.shard ≡ false }
    requires running { is_finished turns.old.shard ≡ false }
    requires nodes { knows (RateLimits.has_node turns.old.limiter) (limiters (meaning turns.old.shard.policies)) ≡ true }
    ensures takes { (first : _) (before : TallyState) (earlier : List (ℕ × Entry)) (past : List Call) (place : ℕ) → receiver.old.next ≡ place + 1 → receiver.old.calls ≡ past ++ Call.Popped place ∷ []
        → HoldsBack (IsTold Observer.unheard Observer.told_decided Observer.told_evicted Observer.told_late observer.now turns.old.number) RateLimits.asks first (settings turns.old.shard) receiver.old.ends before turns.old.shard turns.old.desk.sender.items turns.old.desk.tally turns.old.limiter earlier place (Item.Tick moment)
        → (round : Round) × IsRound QueueRoom.capacity (length receiver.old.ends) (settings turns.old.shard).senders earlier round
        × (receiver.new.calls ≡ past ++ calls_in round)
        × HasTaken (IsTold Observer.unheard Observer.told_decided Observer.told_evicted Observer.told_late observer.now turns.old.number) RateLimits.asks first (settings turns.old.shard) receiver.new.ends before turns.new.shard turns.new.desk.sender.items turns.new.desk.tally turns.new.limiter (earlier ++ taken_in round) }
    ensures nothing_due { has_due turns.new.shard ≡ false }
    ensures finished { result ≡ is_finished turns.new.shard }
    ensures settings { settings turns.new.shard ≡ settings turns.old.shard }
    ensures nodes { knows (RateLimits.has_node turns.new.limiter) (limiters (meaning turns.new.shard.policies)) ≡ true }
    ensures keeps { (node : ℕ) → RateLimits.has_node turns.new.limiter node ≡ RateLimits.has_node turns.old.limiter node }
    ensures same { (turns.new.number ≡ turns.old.number) × (turns.new.desk.sender.queue ≡ turns.old.desk.sender.queue) }
    ensures same_queues { queues receiver.new.ends ≡ queues receiver.old.ends }
{
    // The tick is held back and not left in its queue, since only a pop tells that something waits there (D-140).
    let place = receiver.next_place() - 1;
    for other in 0..receiver.count() {
        if other == place {
            continue;
        }
        // So what a lane pushed before the tick is decided with it. Nothing is taken behind the last End (D-140).
        if let Some(last) = drain(rt, observer, turns, receiver, other) {
            turns.turn(rt, observer, Item::Tick(moment));
            return turns.turn(rt, observer, last);
        }
    }
    turns.turn(rt, observer, Item::Tick(moment))
}

/// Takes what waits in one queue, while an item of another one is held back: until it is empty, or as many items as it
/// may hold. The item with which every sender has ended isn't taken, and comes back.
fn drain<
    'b,
    RateLimits: Limiter + Drop,
    QueueRoom: Room,
    ExportRoom: Room,
    Ledger: Counter,
    Observer: Barrier + Watcher,
    Runtime: Wait + Clock,
>(
    rt: &Runtime,
    observer: &Observer,
    turns: &mut Turns<'b, RateLimits, ExportRoom, Ledger>,
    receiver: &mut Receiver<Item, QueueRoom>,
    place: usize,
) -> Option<Item>
    requires within { place < length receiver.old.ends }
    requires nothing_due { has_due turns.old.shard ≡ false }
    requires running { is_finished turns.old.shard ≡ false }
    requires nodes { knows (RateLimits.has_node turns.old.limiter) (limiters (meaning turns.old.shard.policies)) ≡ true }
    ensures takes { (first : _) (before : TallyState) (earlier : List (ℕ × Entry)) (at : ℕ) (held : Item) → at ≢ place
        → HoldsBack (IsTold Observer.unheard Observer.told_decided Observer.told_evicted Observer.told_late observer.now turns.old.number) RateLimits.asks first (settings turns.old.shard) receiver.old.ends before turns.old.shard turns.old.desk.sender.items turns.old.desk.tally turns.old.limiter earlier at held
        → (drained : List (ℕ × Entry)) × (calls : List Call) × IsOf place drained × AreAt place calls × MatchOption result
        (IsCalled receiver.old.calls receiver.new.calls drained calls × IsBehind QueueRoom.capacity earlier drained calls place
        × HoldsBack (IsTold Observer.unheard Observer.told_decided Observer.told_evicted Observer.told_late observer.now turns.old.number) RateLimits.asks first (settings turns.old.shard) receiver.new.ends before turns.new.shard turns.new.desk.sender.items turns.new.desk.tally turns.new.limiter (earlier ++ drained) at held)
        (λ last. (ends : List (EndState Item)) × TakesAt QueueRoom.capacity place last ends receiver.new.ends
        × HoldsBack (IsTold Observer.unheard Observer.told_decided Observer.told_evicted Observer.told_late observer.now turns.old.number) RateLimits.asks first (settings turns.old.shard) ends before turns.new.shard turns.new.desk.sender.items turns.new.desk.tally turns.new.limiter (earlier ++ drained) at held
        × (between : List Call) × IsCalled receiver.old.calls between drained calls × (receiver.new.calls ≡ between ++ Call.Popped place ∷ [])) }
    ensures last { IfSome result (λ last. (has_ids last ≡ true) × (list_all (λ b. b) (ends_after last turns.new.shard.standing.ends) ≡ true)) }
    ensures nothing_due { has_due turns.new.shard ≡ false }
    ensures running { is_finished turns.new.shard ≡ false }
    ensures settings { settings turns.new.shard ≡ settings turns.old.shard }
    ensures nodes { knows (RateLimits.has_node turns.new.limiter) (limiters (meaning turns.new.shard.policies)) ≡ true }
    ensures keeps { (node : ℕ) → RateLimits.has_node turns.new.limiter node ≡ RateLimits.has_node turns.old.limiter node }
    ensures same { (turns.new.number ≡ turns.old.number) × (turns.new.desk.sender.queue ≡ turns.old.desk.sender.queue) }
    ensures same_queues { queues receiver.new.ends ≡ queues receiver.old.ends }
{
    // No more than the queue may hold, so that one who goes on pushing keeps nobody waiting (D-140).
    for _ in 0..receiver.capacity() {
        let Some(item) = receiver.pop_at(rt, place) else {
            return None;
        };
        if !is_taken(&item) {
            continue;
        }
        if turns.shard.finishes_with(&item) {
            return Some(item);
        }
        turns.turn(rt, observer, item);
    }
    None
}
