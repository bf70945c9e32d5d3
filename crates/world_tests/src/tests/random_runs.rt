//! Random runs beside a plain simulation of the table of steps.
use crate::tests::choices::{Choice, choose};
use crate::tests::settings::plain_settings;
use crate::tests::simulated::Simulated;
use plain_shards::policy_on;
use span_world::{CoreConfig, StepRefusal, World};
use std::alloc::{AllocError, Global};
use std::test::Fail;

/// Makes a step in the world and in the simulation; one to which memory was refused is made again. Whether both
/// answered the same, and are alike.
fn step_both(
    alloc: Global,
    world: &mut World,
    simulated: &mut Simulated,
    choice: Choice,
) -> Result<bool, AllocError> {
    let step = choice.step(alloc)?;
    let is_enabled = simulated.step(&step);
    let mut answer = world.step(step);
    if answer == Err(StepRefusal::NoMemory) {
        answer = world.step(choice.step(alloc)?);
    }
    let is_same = match answer {
        Ok(()) => is_enabled,
        Err(StepRefusal::NotEnabled) => !is_enabled,
        Err(StepRefusal::NoMemory) => false,
    };
    Ok(is_same && simulated.is_like(world))
}

/// The world of two lanes and two shards, beside which the simulation runs.
fn new_world(alloc: Global, root_wait: u64, maximum_trace_size: u64) -> Result<World, AllocError> {
    let mut shard = plain_settings(policy_on(alloc, Some(2))?);
    shard.root_wait = root_wait;
    shard.maximum_trace_size = maximum_trace_size;
    shard.num_traces = Some(2);
    shard.sampled_cache_size = 1;
    shard.non_sampled_cache_size = 2;
    let config = CoreConfig {
        shard,
        batch_size: 2,
    };
    World::new(alloc, 2, 2, config)
}

/// Notes the reasons that were counted, by their numbers, at 8 that a batch was handed over, at 9 that each shard took
/// every End, and at 10 that a trace was too big.
fn note(reached: &mut [bool; 11], world: &World, simulated: &Simulated) {
    for span in world.counted() {
        if let Some(is_reached) = reached.get_mut(span.reason.number() as usize) {
            *is_reached = true;
        }
    }
    reached[8] = reached[8] || !world.handed().is_empty();
    reached[9] = reached[9] || simulated.have_ended();
    reached[10] = reached[10] || simulated.was_too_big;
}

/// Random steps, each made by the world and by the simulation. The number of the first step at which they differ.
fn first_difference(
    alloc: Global,
    seed: u64,
    world: &mut World,
    simulated: &mut Simulated,
) -> Result<Option<u64>, AllocError> {
    let mut seed = seed;
    for made in 0..600 {
        let (next, choice) = choose(seed, made, made >= 300);
        seed = next;
        if !step_both(alloc, world, simulated, choice)? {
            return Ok(Some(made));
        }
    }
    Ok(None)
}

/// A run of such steps, with a root wait in two runs of three and a greatest size in every second. It is noted what it
/// reached.
fn run_beside(
    alloc: Global,
    seed: u64,
    reached: &mut [bool; 11],
) -> Result<Option<u64>, AllocError> {
    let (root_wait, maximum_trace_size) = (seed % 3 * 3, seed % 2 * 200);
    let mut simulated = Simulated::new(alloc, root_wait, maximum_trace_size)?;
    let mut world = new_world(alloc, root_wait, maximum_trace_size)?;
    let differs_at = first_difference(alloc, seed, &mut world, &mut simulated);
    note(reached, &world, &simulated);
    differs_at
}

#[test]
fn random_runs_beside_a_simulation(rt: HostRuntime) -> Result<(), Fail> {
    let mut reached = [false; 11];
    for seed in 1..25 {
        let differs_at = run_beside(rt.alloc(), seed, &mut reached)?;
        assert_eq!(rt; differs_at, None, "run {seed}");
    }
    let mut wanted = [true; 11];
    wanted[0] = false;
    assert_eq!(rt; reached, wanted);
    Ok(())
}
