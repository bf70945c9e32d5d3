//! What the shards' threads are given.
ghost use Rattle.std.specs.Prelude.{◌≡◌, ◌<◌, ◌≤◌, [], All, true, false, length, map, vec_len, vec_capacity, IfOk};
ghost use Rattle.lane_queue.specs.Ends.{IsNew};
ghost use Rattle.config_shards.specs.Shards.{CanBegin, IsNewShard};
ghost use Rattle.tsc_config.specs.declared.config.Config.{Config};
ghost use Rattle.pipeline.specs.Made.{NumberedFrom, HasNodes, IsReady};
ghost use Rattle.pipeline.specs.Promise.{HasSettings};

use crate::lent::ThreadContext;
use crate::shard_job::ShardJob;
use config_shards::new_shards;
use lane_queue::{Receiver, Room, Sender};
use otlp_types::Item;
use released_spans::Shipment;
use shard_core::Shard;
use shared_budget::BudgetSeat;
use std::alloc::AllocError;
use std::sync::Wait;
use tsc_config::Config;

/// The ends and seats of the shards, each by shard.
#[derive(Drop)]
pub struct ShardEnds<'s, C: Room, D: Room, R: Wait> {
    pub seats: Vec<BudgetSeat<'s, R>>,
    pub receivers: Vec<Receiver<Item, C>>,
    pub exports: Vec<Sender<Shipment, D>>,
}

/// What the shards' threads are given, in their order: for each a shard, its ends and its seat at the limiter.
pub fn shard_jobs<'s, QueueRoom: Room, ExportRoom: Room, Observer, Mark, Time, Runtime: Wait>(
    lent: &ThreadContext<'s, Observer, Mark, Time, Runtime>,
    config: &Config,
    ends: ShardEnds<'s, QueueRoom, ExportRoom, Runtime>,
) -> Result<Vec<ShardJob<'s, QueueRoom, ExportRoom, Observer, Runtime>>, AllocError>
    requires ranges { CanBegin config.now }
    requires seats { (vec_len ends.seats ≡ config.now.shards) × All (λ seat. HasNodes seat config.now.policies) ends.seats.items }
    requires receivers { (vec_len ends.receivers ≡ config.now.shards) × All (λ r. All IsNew r.ends) ends.receivers.items }
    requires exports { (vec_len ends.exports ≡ config.now.shards) × All IsNew ends.exports.items }
    ensures count { IfOk result (λ jobs. vec_len jobs ≡ config.now.shards) }
    ensures ready { IfOk result (λ jobs. All (λ job. IsReady job.shard job.receiver job.sender job.seat) jobs.items) }
    ensures ends { IfOk result (λ jobs. (map (λ job. job.seat) jobs.items ≡ ends.entry.seats.items) × (map (λ job. job.receiver) jobs.items ≡ ends.entry.receivers.items) × (map (λ job. job.sender) jobs.items ≡ ends.entry.exports.items)) }
    ensures numbers { IfOk result (λ jobs. NumberedFrom 0 (map (λ job. job.number) jobs.items)) }
    ensures new { IfOk result (λ jobs. All (λ job. HasSettings config.now job.shard) jobs.items) }
{
    let shards = new_shards(lent.alloc, lent.hashing, config)?;
    let jobs = Vec::with_capacity(lent.alloc, config.shards)?;
    Ok(jobs_of(lent, config, shards, ends, jobs))
}

/// What the threads of these shards are given; `jobs` has room for it.
fn jobs_of<'s, QueueRoom: Room, ExportRoom: Room, Observer, Mark, Time, Runtime: Wait>(
    lent: &ThreadContext<'s, Observer, Mark, Time, Runtime>,
    config: &Config,
    shards: Vec<Shard>,
    ends: ShardEnds<'s, QueueRoom, ExportRoom, Runtime>,
    jobs: Vec<ShardJob<'s, QueueRoom, ExportRoom, Observer, Runtime>>,
) -> Vec<ShardJob<'s, QueueRoom, ExportRoom, Observer, Runtime>>
    requires few { vec_len shards < 65536 }
    requires shards { All (IsNewShard config.now) shards.items }
    requires room { (jobs.items ≡ []) × (vec_len shards ≤ vec_capacity jobs) }
    requires seats { (vec_len ends.seats ≡ vec_len shards) × All (λ seat. HasNodes seat config.now.policies) ends.seats.items }
    requires receivers { (vec_len ends.receivers ≡ vec_len shards) × All (λ r. All IsNew r.ends) ends.receivers.items }
    requires exports { (vec_len ends.exports ≡ vec_len shards) × All IsNew ends.exports.items }
    ensures count { vec_len result ≡ vec_len shards }
    ensures ready { All (λ job. IsReady job.shard job.receiver job.sender job.seat) result.items }
    ensures ends { (map (λ job. job.seat) result.items ≡ ends.entry.seats.items) × (map (λ job. job.receiver) result.items ≡ ends.entry.receivers.items) × (map (λ job. job.sender) result.items ≡ ends.entry.exports.items) }
    ensures numbers { NumberedFrom 0 (map (λ job. job.number) result.items) }
    ensures new { All (λ job. HasSettings config.now job.shard) result.items }
{
    let mut shards = shards;
    let mut jobs = jobs;
    let ShardEnds {
        mut seats,
        mut receivers,
        mut exports,
    } = ends;
    while let Some(shard) = shards.pop() {
        jobs.push_reserved(ShardJob {
            rt: lent.rt,
            number: shards.len() as u16,
            shard,
            seat: seats.take_last(),
            receiver: receivers.take_last(),
            sender: exports.take_last(),
            observer: lent.observer,
            brake: lent.brake,
        });
    }
    jobs.reverse();
    jobs
}
