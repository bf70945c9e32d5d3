//! The steps of the shards.
ghost use Rattle.std.specs.Prelude.{◌≡◌, ◌<◌, length, slice_get, Some, IfOk};
ghost use Rattle.world_theory.specs.World.{CoreShard, settings};
ghost use Rattle.world_theory.specs.Step.{take as take_step, tick, end, decide, sender_is_done};
ghost use Rattle.span_world.specs.Core.{config_of};
ghost use Rattle.span_world.specs.Answers.{StepsTo, KeepsItem, KeepsEntry};

use crate::step::StepRefusal;
use crate::world::World;
use otlp_types::{Item, List};
use shard_journal::Entry;
use span_ids::Moment;

impl World {
    /// The shard takes the first span of its queue, where nothing is due and the marks can apply.
    pub(crate) fn take(
        &mut self,
        shard: usize,
        refused: bool,
        lost: bool,
    ) -> Result<(), StepRefusal>
        ensures { StepsTo self.old (take_step shard refused lost) result self.new }
    {
        if shard >= self.shards.len() {
            return Err(StepRefusal::NotEnabled);
        }
        let look = &self.looks[shard];
        let next = self.shards[shard].next_entry(self.alloc, &self.settings, look, refused, lost)?;
        let Some(entry) = next else {
            return Err(StepRefusal::NotEnabled);
        };
        self.keep_entry(shard, entry)
    }

    /// The shard takes a tick, where nothing is due and the ticker's End was not taken.
    pub(crate) fn tick(&mut self, shard: usize, moment: Moment) -> Result<(), StepRefusal>
        ensures { StepsTo self.old (tick shard moment) result self.new }
    {
        if shard >= self.shards.len() {
            return Err(StepRefusal::NotEnabled);
        }
        if !self.shards[shard].may_take(&self.settings, &self.looks[shard], self.lanes.len()) {
            return Err(StepRefusal::NotEnabled);
        }
        self.keep_item(shard, Item::Tick(moment))
    }

    /// The shard takes a sender's End, where nothing is due, it was not taken before, and the sender may send it.
    pub(crate) fn end(&mut self, shard: usize, sender: u16) -> Result<(), StepRefusal>
        ensures { StepsTo self.old (end shard sender) result self.new }
    {
        if shard >= self.shards.len() {
            return Err(StepRefusal::NotEnabled);
        }
        if !self.sender_is_done(shard, sender as usize) {
            return Err(StepRefusal::NotEnabled);
        }
        if !self.shards[shard].may_take(&self.settings, &self.looks[shard], sender as usize) {
            return Err(StepRefusal::NotEnabled);
        }
        self.keep_item(shard, Item::End(sender))
    }

    /// The oldest due episode of the shard is decided by these answers, where there is one for each asking.
    pub(crate) fn decide(&mut self, shard: usize, answers: Vec<bool>) -> Result<(), StepRefusal>
        ensures { StepsTo self.old (decide shard answers.items) result self.new }
    {
        if shard >= self.shards.len() {
            return Err(StepRefusal::NotEnabled);
        }
        let given = answers.as_slice();
        let look = &self.looks[shard];
        if !self.shards[shard].may_decide(&self.settings, look, given, &mut self.searches) {
            return Err(StepRefusal::NotEnabled);
        }
        let answers = List::from_vec(answers);
        self.shards[shard].decide(
            self.alloc,
            &self.settings,
            answers,
            &mut self.looks[shard],
            &mut self.counted,
        )?;
        Ok(())
    }

    /// The item goes to the shard's journal, unmarked.
    fn keep_item(&mut self, shard: usize, item: Item) -> Result<(), StepRefusal>
        requires { shard < length self.old.world.shards }
        ensures { KeepsItem self.old shard item result self.new }
    {
        let entry = Entry {
            item,
            refused: false,
            lost: false,
            answers: Vec::new(self.alloc),
        };
        self.keep_entry(shard, entry)
    }

    /// The entry goes to the shard's journal, and its span leaves the shard's queue.
    fn keep_entry(&mut self, shard: usize, entry: Entry) -> Result<(), StepRefusal>
        requires { shard < length self.old.world.shards }
        ensures { KeepsEntry self.old shard entry result self.new }
    {
        self.shards[shard].take(
            self.alloc,
            &self.settings,
            entry,
            &mut self.looks[shard],
            &mut self.counted,
        )?;
        Ok(())
    }

    /// Whether the sender may send its End: a lane that has ended and has no span for the shard that is unrouted or
    /// queued, or the ticker.
    fn sender_is_done(&self, shard: usize, sender: usize) -> bool
        requires { shard < length self.now.world.shards }
        ensures { (sh : CoreShard) → slice_get self.now.world.shards shard ≡ Some sh → result ≡ sender_is_done self.now.world shard sh sender (slice_get self.now.world.lanes sender) }
    {
        if sender >= self.lanes.len() {
            return sender == self.lanes.len();
        }
        let lane = &self.lanes[sender];
        lane.has_ended()
            && !lane.has_for(shard, self.shards.len())
            && !self.shards[shard].has_queued(sender)
    }
}
