//! What a shard's thread is given, does and leaves.
ghost use Rattle.std.specs.Prelude.{◌≡◌};

use crate::telling::Told;
use drop_ledger::{Report, Tally};
use job_threads::Job;
use lane_queue::{Brake, Receiver, Room, Sender};
use otlp_types::Item;
use released_spans::Shipment;
use shard_core::Shard;
use shard_worker::{ShardDesk, Turns};
use shared_budget::BudgetSeat;
use std::sync::Wait;
use std::time::Clock;
use thread_watch::{Barrier, Watcher};

/// What a shard's thread is given.
#[derive(Drop)]
pub struct ShardJob<'s, QueueRoom: Room, ExportRoom: Room, Observer, Runtime: Wait> {
    pub rt: &'s Runtime,
    pub number: u16,
    pub shard: Shard,
    pub seat: BudgetSeat<'s, Runtime>,
    pub receiver: Receiver<Item, QueueRoom>,
    pub sender: Sender<Shipment, ExportRoom>,
    pub observer: &'s Observer,
    pub brake: &'s Brake,
}

/// What a shard's thread leaves.
#[derive(Drop)]
pub struct ShardLeft<'s, C: Room, D: Room, R: Wait> {
    /// The shard's seat at the limiter.
    pub seat: BudgetSeat<'s, R>,
    /// The end at which its items were popped.
    pub receiver: Receiver<Item, C>,
    /// The end at which it shipped.
    pub sender: Sender<Shipment, D>,
    /// What it counted.
    pub counts: Report,
    /// Whether a number of its own would have passed 2^64-1.
    pub is_full: bool,
}

impl<'s, QueueRoom: Room, ExportRoom: Room, Observer: Barrier + Watcher, Runtime: Wait + Clock> Job
    for ShardJob<'s, QueueRoom, ExportRoom, Observer, Runtime> {
    ghost use Rattle.shard_core.specs.Held.{settings};
    ghost use Rattle.run_weave.specs.Jobs.{ShardDid};
    ghost use Rattle.run_weave.specs.Workers.{zeros};
    ghost use Rattle.pipeline.specs.Made.{IsReady};

    type Left = ShardLeft<'s, QueueRoom, ExportRoom, Runtime>;

    ghost ready = { λ job. IsReady job.shard job.receiver job.sender job.seat };

    ghost did = { λ job left. ShardDid QueueRoom.capacity job.number (settings job.shard) job.seat job.receiver job.sender zeros
        left.seat left.receiver left.sender left.counts left.is_full };

    fn work(self) -> ShardLeft<'s, QueueRoom, ExportRoom, Runtime> {
        let ShardJob {
            rt,
            number,
            shard,
            seat,
            receiver,
            sender,
            observer,
            brake,
        } = self;
        let turns = Turns {
            number,
            shard,
            limiter: seat,
            desk: ShardDesk {
                sender,
                policy: None,
                tally: Tally::new(Told::new(observer)),
            },
            brake: Some(brake),
        };
        let end = shard_worker::work(rt, turns, receiver, observer);
        let is_full = end.tally.is_full();
        ShardLeft {
            seat: end.limiter,
            receiver: end.receiver,
            sender: end.sender,
            counts: end.tally.end().end(),
            is_full,
        }
    }
}
