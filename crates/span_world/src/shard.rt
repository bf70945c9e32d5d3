//! A shard of the world.
ghost use Rattle.std.specs.Prelude.{◌≡◌, ◌++◌, ◌∷◌, [], Some, ◌+◌, ◌<◌, ◌≤◌, ◌==◌, ◌^◌, length, vec_capacity, drop, not, slice_index_or, IfOk, IfSome, OnOk, OnErr, is_some, reverse, IsTrue, true, false, if◌then◌else◌};
ghost use Rattle.std.specs.List.{remove, list_any};
ghost use Rattle.otlp_types.specs.declared.arrival.Arrival.{Arrival};
ghost use Rattle.policy_eval.specs.Searches.{are_known};
ghost use Rattle.policy_tree.specs.Expressions.{expressions_in};
ghost use Rattle.policy_tree.specs.Meaning.{meaning};
ghost use Rattle.journal_theory.specs.Journal.{has_ended, answered};
ghost use Rattle.journal_theory.specs.Fate.{effect_of_taking, Effect as EffectData};
ghost use Rattle.shard_journal.specs.Settings.{settings_of};
ghost use Rattle.shard_journal.specs.Look.{look_of};
ghost use Rattle.world_theory.specs.World.{new_shard};
ghost use Rattle.world_theory.specs.Step.{is_empty};
ghost use Rattle.span_world.specs.Answers.{may_take, entry_of_first, next_decision, is_span, queue_after};

use crate::lane::CoreLane;
use otlp_types::{Arrival, Item, List, TryClone};
use policy_eval::Searches;
use shard_journal::{
    DroppedSpan, Effect, Entry, LookBack, Settings, decision_at, effect_of_taking, has_ended,
};
use std::alloc::{AllocError, Global};
use std::collections::VecDeque;
use std::marker::Model;

/// A shard: its queue, its journal with the oldest entry first, how many of the decisions at the journal's last item
/// were dealt with, and what it released and has not shipped.
#[derive(Drop)]
pub struct CoreShard {
    queue: VecDeque<Arrival>,
    journal: Vec<Entry>,
    dealt: usize,
    unshipped: Vec<Arrival>,
}

impl Model for CoreShard {
    ghost use Rattle.std.specs.Prelude.{reverse};
    ghost use Rattle.world_theory.specs.World.{CoreShard as ShardData};
    ghost use Rattle.std.specs.Coded.{codes};
    ghost use Rattle.otlp_types.specs.contracts.value.AnyValue as any_value;

    ghost Value = { ShardData };

    ghost coded = { Prim.hlevel (codes, any_value.the_row.coded) };

    ghost view = { λ s. record { queue = s.queue.items; journal = reverse s.journal.items; dealt = s.dealt; unshipped = s.unshipped.items } };
}

impl CoreShard {
    /// A shard that has taken nothing.
    pub fn new(alloc: Global) -> CoreShard
        ensures { result ≡ new_shard }
    {
        CoreShard {
            queue: VecDeque::new(alloc),
            journal: Vec::new(alloc),
            dealt: 0,
            unshipped: Vec::new(alloc),
        }
    }

    /// The span at this place of the lane's unrouted ones goes to the end of the queue. Where memory is refused nothing
    /// changes.
    pub fn queue_from(&mut self, lane: &mut CoreLane, place: usize) -> Result<(), AllocError>
        requires { place < length lane.old.unrouted }
        ensures lane { OnOk result (lane.new ≡ record lane.old { unrouted = remove lane.old.unrouted place }) }
        ensures queue { OnOk result ((a : Arrival) → self.new ≡ record self.old { queue = self.old.queue ++ slice_index_or lane.old.unrouted place a ∷ [] }) }
        ensures journal { self.new.journal ≡ self.old.journal }
        ensures err { OnErr result ((lane.new ≡ lane.old) × (self.new ≡ self.old)) }
    {
        self.queue.try_reserve(1)?;
        self.queue.push_back_reserved(lane.take_out(place));
        Ok(())
    }

    /// Whether some span of the lane is queued.
    pub fn has_queued(&self, lane: usize) -> bool
        ensures { result ≡ list_any (λ a. a.key.conn.lane == lane) self.now.queue }
    {
        self.queue.iter().any(|a| a.key.conn.lane as usize == lane)
    }

    /// Whether nothing is due, and the sender's End was not taken.
    pub fn may_take(&self, settings: &Settings, look: &LookBack, sender: usize) -> bool
        requires { look.now ≡ look_of (settings_of settings.now) self.now.journal }
        ensures { result ≡ may_take (settings_of settings.now) self.now sender }
    {
        self.dealt >= look.due() && !has_ended(&self.journal, sender)
    }

    /// The entry of the first queued span, where nothing is due and the marks can apply.
    pub fn next_entry(
        &self,
        alloc: Global,
        settings: &Settings,
        look: &LookBack,
        refused: bool,
        lost: bool,
    ) -> Result<Option<Entry>, AllocError>
        requires { look.now ≡ look_of (settings_of settings.now) self.now.journal }
        ensures entry { IfOk result (λ e. e ≡ entry_of_first (settings_of settings.now) self.now refused lost self.now.queue) }
        ensures some { OnErr result (is_some (entry_of_first (settings_of settings.now) self.now refused lost self.now.queue) ≡ true) }
    {
        let Some(first) = self.queue.front() else {
            return Ok(None);
        };
        let ids = first.rec.span.get().ids;
        if self.dealt < look.due() || !look.marks_apply(settings, refused, lost, ids) {
            return Ok(None);
        }
        Ok(Some(Entry {
            item: Item::Span(first.try_clone(alloc)?),
            refused,
            lost,
            answers: Vec::new(alloc),
        }))
    }

    /// The entry goes to the journal, and its span leaves the queue: what that releases is to be shipped, and what it
    /// counts is counted. Where memory is refused nothing changes.
    pub fn take(
        &mut self,
        alloc: Global,
        settings: &Settings,
        entry: Entry,
        look: &mut LookBack,
        counted: &mut Vec<DroppedSpan>,
    ) -> Result<(), AllocError>
        ensures shard { OnOk result (self.new ≡ record { queue = queue_after entry.item self.old.queue; journal = entry ∷ self.old.journal; dealt = 0; unshipped = self.old.unshipped ++ (effect_of_taking (settings_of settings.now) entry self.old.journal).released }) }
        ensures counted { OnOk result (counted.new.items ≡ counted.old.items ++ (effect_of_taking (settings_of settings.now) entry self.old.journal).counted) }
        ensures look { OnOk result (look.new ≡ look_of (settings_of settings.now) self.new.journal) }
        ensures err { OnErr result ((self.new ≡ self.old) × (look.new ≡ look.old) × (counted.new.items ≡ counted.old.items)) }
    {
        let queued = is_span(&entry.item);
        let effect = effect_of_taking(alloc, settings, &self.journal, &entry)?;
        make_room(&effect, &mut self.unshipped, counted)?;
        *look = lengthen(alloc, settings, &mut self.journal, entry)?;
        put(effect, &mut self.unshipped, counted);
        leave(&mut self.queue, queued);
        self.dealt = 0;
        Ok(())
    }

    /// Whether something is due, and there is one of these answers for each asking of its decision. The searches know
    /// each expression of the policies.
    pub fn may_decide(
        &self,
        settings: &Settings,
        look: &LookBack,
        answers: &[bool],
        searches: &mut Searches,
    ) -> bool
        requires known { are_known searches.old (expressions_in (meaning settings.now.policies)) ≡ true }
        requires look { look.now ≡ look_of (settings_of settings.now) self.now.journal }
        ensures enabled { result ≡ is_some (next_decision (settings_of settings.now) self.now answers.now) }
        ensures fits { IsTrue result → self.now.dealt + 1 < 2 ^ 64 }
        ensures same { searches.new ≡ searches.old }
    {
        if self.dealt >= look.due() {
            return false;
        }
        look.is_answered(settings, self.dealt, answers, searches)
    }

    /// The next decision is dealt with by these answers: what it releases is to be shipped, and what it counts is
    /// counted. Where memory is refused nothing changes.
    pub fn decide(
        &mut self,
        alloc: Global,
        settings: &Settings,
        answers: List<bool>,
        look: &mut LookBack,
        counted: &mut Vec<DroppedSpan>,
    ) -> Result<(), AllocError>
        requires enabled { is_some (next_decision (settings_of settings.now) self.old answers) ≡ true }
        requires fits { self.old.dealt + 1 < 2 ^ 64 }
        ensures shard { OnOk result ((did : EffectData) → next_decision (settings_of settings.now) self.old answers ≡ Some did → self.new ≡ record self.old { journal = answered self.old.journal answers; dealt = self.old.dealt + 1; unshipped = self.old.unshipped ++ did.released }) }
        ensures counted { OnOk result ((did : EffectData) → next_decision (settings_of settings.now) self.old answers ≡ Some did → counted.new.items ≡ counted.old.items ++ did.counted) }
        ensures look { OnOk result (look.new ≡ look_of (settings_of settings.now) self.new.journal) }
        ensures err { OnErr result ((self.new ≡ self.old) × (look.new ≡ look.old) × (counted.new.items ≡ counted.old.items)) }
    {
        let given = answers.as_slice();
        let Some(effect) = decision_at(alloc, settings, &self.journal, self.dealt, given)? else {
            unreachable!()
        };
        make_room(&effect, &mut self.unshipped, counted)?;
        *look = give(alloc, settings, &mut self.journal, answers)?;
        put(effect, &mut self.unshipped, counted);
        self.dealt += 1;
        Ok(())
    }

    /// Whether it has released what it has not shipped.
    pub fn has_unshipped(&self) -> bool
        ensures { result ≡ not (is_empty self.now.unshipped) }
    {
        !self.unshipped.is_empty()
    }

    /// Its first unshipped span, taken out.
    pub fn ship(&mut self) -> Arrival
        requires { is_empty self.old.unshipped ≡ false }
        ensures span { self.old.unshipped ≡ result ∷ self.new.unshipped }
        ensures rest { self.new ≡ record self.old { unshipped = self.new.unshipped } }
    {
        self.unshipped.remove(0)
    }
}

/// Puts an entry last into a journal, and looks back over it. Where memory is refused nothing changes.
fn lengthen(
    alloc: Global,
    settings: &Settings,
    journal: &mut Vec<Entry>,
    entry: Entry,
) -> Result<LookBack, AllocError>
    ensures journal { OnOk result (journal.new.items ≡ journal.old.items ++ entry ∷ []) }
    ensures look { IfOk result (λ look. look ≡ look_of (settings_of settings.now) (reverse journal.new.items)) }
    ensures err { OnErr result (journal.new.items ≡ journal.old.items) }
{
    journal.push(entry)?;
    match LookBack::new(alloc, settings, journal) {
        Ok(look) => Ok(look),
        Err(_) => {
            let _ = journal.pop();
            Err(AllocError)
        }
    }
}

/// Puts answers behind those that stand with the last entry of a journal, and looks back over it. Where memory is
/// refused nothing changes.
fn give(
    alloc: Global,
    settings: &Settings,
    journal: &mut Vec<Entry>,
    answers: List<bool>,
) -> Result<LookBack, AllocError>
    requires { 0 < length journal.old.items }
    ensures journal { OnOk result (reverse journal.new.items ≡ answered (reverse journal.old.items) answers) }
    ensures look { IfOk result (λ look. look ≡ look_of (settings_of settings.now) (reverse journal.new.items)) }
    ensures err { OnErr result (journal.new.items ≡ journal.old.items) }
{
    let last = journal.len() - 1;
    journal[last].answers.push(answers)?;
    match LookBack::new(alloc, settings, journal) {
        Ok(look) => Ok(look),
        Err(_) => {
            let _ = journal[last].answers.pop();
            Err(AllocError)
        }
    }
}

/// Makes room in these lists for what an effect releases and what it counts.
fn make_room(
    effect: &Effect,
    released: &mut Vec<Arrival>,
    counted: &mut Vec<DroppedSpan>,
) -> Result<(), AllocError>
    ensures room { OnOk result ((length released.new.items + length effect.now.released ≤ vec_capacity released.new) × (length counted.new.items + length effect.now.counted ≤ vec_capacity counted.new)) }
    ensures released { released.new.items ≡ released.old.items }
    ensures counted { counted.new.items ≡ counted.old.items }
{
    counted.try_reserve(effect.counted.len())?;
    released.try_reserve(effect.released.len())
}

/// Puts what an effect releases and what it counts at the end of these lists, which have room for it.
fn put(effect: Effect, released: &mut Vec<Arrival>, counted: &mut Vec<DroppedSpan>)
    requires released { length released.old.items + length effect.released ≤ vec_capacity released.old }
    requires counted { length counted.old.items + length effect.counted ≤ vec_capacity counted.old }
    ensures released { released.new.items ≡ released.old.items ++ effect.released }
    ensures counted { counted.new.items ≡ counted.old.items ++ effect.counted }
{
    let mut effect = effect;
    let _ = released.append(&mut effect.released);
    let _ = counted.append(&mut effect.counted);
}

/// Whether the item is a span.
fn is_span(item: &Item) -> bool
    ensures { result ≡ is_span item.now }
{
    match item {
        Item::Span(_) => true,
        Item::Tick(_) | Item::End(_) => false,
    }
}

/// Where a span was taken, it leaves the queue, whose first it is.
fn leave(queue: &mut VecDeque<Arrival>, taken: bool)
    ensures { queue.new.items ≡ (if taken then drop 1 queue.old.items else queue.old.items) }
{
    if taken {
        let _ = queue.pop_front();
    }
}
