//! A step of the world by its kind, and a run of steps.
ghost use Rattle.std.specs.Prelude.{◌≡◌, Some, map, IfOk, IfErr};
ghost use Rattle.world_theory.specs.World.{KeepsATrace};
ghost use Rattle.world_theory.specs.Step.{run};
ghost use Rattle.world_theory.specs.Headline.{HoldsOf};
ghost use Rattle.span_world.specs.Core.{config_of, with_senders};
ghost use Rattle.span_world.specs.Answers.{the_step, StepsTo, StopsAt};

use crate::config::CoreConfig;
use crate::step::{Step, StepRefusal};
use crate::world::World;
use std::alloc::Global;

impl World {
    /// Makes a step where it is enabled. `Err` where it isn't, or where memory was refused: the world is then as
    /// before.
    pub fn step(&mut self, step: Step) -> Result<(), StepRefusal>
        ensures { StepsTo self.old (the_step step) result self.new }
    {
        match step {
            Step::Receive {
                lane,
                ordinal,
                moment,
                records,
            } => self.receive(lane, ordinal, moment, records),
            Step::Route { lane, shard } => self.route(lane as usize, shard),
            Step::Refuse { lane, shard } => self.refuse(lane as usize, shard),
            Step::Take {
                shard,
                refused,
                lost,
            } => self.take(shard, refused, lost),
            Step::Tick { shard, moment } => self.tick(shard, moment),
            Step::Close { lane } => self.close(lane as usize),
            Step::End { shard, sender } => self.end(shard, sender),
            Step::Decide { shard, answers } => self.decide(shard, answers),
            Step::Ship { shard } => self.ship(shard),
            Step::Pull => self.pull(),
            Step::Hand => self.hand(),
            Step::Fail => self.fail(),
            Step::DropBatch { reason } => self.drop_batch(reason),
        }
    }

    /// The world after these steps from a new world with so many lanes and shards, for which all parts of the headline
    /// hold. `Err` has the place of the first step that was refused, and why: `(0, NoMemory)` also where the new world
    /// found no memory. A configuration keeps a trace where its limit is at least 1.
    pub fn replay(
        alloc: Global,
        lanes: u16,
        shards: usize,
        config: CoreConfig,
        steps: Vec<Step>,
    ) -> Result<World, (usize, StepRefusal)>
        requires { KeepsATrace (config_of config) }
        ensures run { IfOk result (λ w. run (config_of config) lanes shards (map the_step steps.items) ≡ Some w.world) }
        ensures holds { IfOk result (λ w. HoldsOf (config_of config) w.world) }
        ensures config { IfOk result (λ w. w.config ≡ with_senders lanes config) }
        ensures stops { IfErr result (λ e. StopsAt (config_of config) lanes shards (map the_step steps.items) e.0 e.1) }
    {
        let Ok(mut world) = World::new(alloc, lanes, shards, config) else {
            return Err((0, StepRefusal::NoMemory));
        };
        let mut place = 0;
        for step in steps {
            if let Err(refusal) = world.step(step) {
                return Err((place, refusal));
            }
            place += 1;
        }
        Ok(world)
    }
}
