//! The steps of the lanes.
ghost use Rattle.std.specs.Prelude.{◌≡◌};
ghost use Rattle.world_theory.specs.Step.{receive, route, refuse, close};
ghost use Rattle.span_world.specs.Answers.{StepsTo, next_place};

use crate::lane::dropped;
use crate::step::StepRefusal;
use crate::world::World;
use otlp_types::Record;
use span_ids::{ConnKey, Moment, Reason};

impl World {
    /// The lane receives no more.
    pub(crate) fn close(&mut self, lane: usize) -> Result<(), StepRefusal>
        ensures { StepsTo self.old (close lane) result self.new }
    {
        if lane >= self.lanes.len() || self.lanes[lane].has_ended() {
            return Err(StepRefusal::NotEnabled);
        }
        self.lanes[lane].end();
        Ok(())
    }

    /// The lane's first unrouted span for the shard goes to the end of the shard's queue.
    pub(crate) fn route(&mut self, lane: usize, shard: usize) -> Result<(), StepRefusal>
        ensures { StepsTo self.old (route lane shard) result self.new }
    {
        let Some(place) = self.next_for(lane, shard) else {
            return Err(StepRefusal::NotEnabled);
        };
        self.shards[shard].queue_from(&mut self.lanes[lane], place)?;
        Ok(())
    }

    /// The same span finds the shard's queue full, and is counted.
    pub(crate) fn refuse(&mut self, lane: usize, shard: usize) -> Result<(), StepRefusal>
        ensures { StepsTo self.old (refuse lane shard) result self.new }
    {
        let Some(place) = self.next_for(lane, shard) else {
            return Err(StepRefusal::NotEnabled);
        };
        self.counted.try_reserve(1)?;
        let span = self.lanes[lane].take_out(place);
        self.counted
            .push_reserved(dropped(Reason::QueueFull, &span));
        Ok(())
    }

    /// The place, among the lane's unrouted spans, of the first for the shard.
    fn next_for(&self, lane: usize, shard: usize) -> Option<usize>
        ensures { result ≡ next_place self.now.world lane shard }
    {
        if lane >= self.lanes.len() || shard >= self.shards.len() {
            return None;
        }
        self.lanes[lane].next_for(shard, self.shards.len())
    }

    /// The lane's connection of this ordinal receives the spans of a request.
    pub(crate) fn receive(
        &mut self,
        lane: u16,
        ordinal: u64,
        moment: Moment,
        records: Vec<Record>,
    ) -> Result<(), StepRefusal>
        ensures { StepsTo self.old (receive lane ordinal moment records.items) result self.new }
    {
        let place = lane as usize;
        if place >= self.lanes.len() || self.lanes[place].has_ended() {
            return Err(StepRefusal::NotEnabled);
        }
        let conn = ConnKey { lane, ordinal };
        self.lanes[place].receive(self.alloc, conn, moment, records, &mut self.counted)?;
        Ok(())
    }
}
