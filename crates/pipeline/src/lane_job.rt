//! What a lane's thread is given, does and leaves.
ghost use Rattle.std.specs.Prelude.{◌≡◌, ◌≤◌, [], length, vec_capacity};
ghost use Rattle.run_weave.specs.Jobs.{LaneDid};

use crate::telling::Told;
use drop_ledger::Report;
use http_lane::{Answers, Clock as MomentClock, HasStopMark, Lent};
use job_threads::Job;
use lane_queue::{Room, Sender, SenderPort};
use lane_seq::Lane;
use lane_worker::{LaneServer, LaneTask};
use otlp_types::Item;
use std::alloc::Global;
use std::sync::Wait;
use std::time::Clock;
use thread_watch::{Barrier, Watcher};

/// What a lane's thread is given. Its lane has the lane's number, and `room` has room for the lane's ends.
#[derive(Drop)]
pub struct LaneJob<'s, Server, QueueRoom: Room, Observer, Mark, Time, Runtime: Wait> {
    pub rt: &'s Runtime,
    pub alloc: Global,
    pub number: u16,
    pub acceptor: Server,
    pub lane: Lane<SenderPort<'s, Item, QueueRoom, Runtime>>,
    pub room: Vec<Sender<Item, QueueRoom>>,
    pub observer: &'s Observer,
    pub stop: &'s Mark,
    pub clock: &'s Time,
    pub answers: &'s Answers,
}

/// What a lane's thread leaves.
#[derive(Drop)]
pub struct LaneLeft<C: Room> {
    /// The ends at which it pushed, by shard.
    pub senders: Vec<Sender<Item, C>>,
    /// What it counted.
    pub counts: Report,
    /// Whether a number of its own would have passed 2^64-1.
    pub is_full: bool,
}

impl<
    's,
    Server: LaneServer + Drop,
    QueueRoom: Room,
    Observer: Barrier + Watcher,
    Mark: HasStopMark,
    Time: MomentClock,
    Runtime: Wait + Clock,
> Job for LaneJob<'s, Server, QueueRoom, Observer, Mark, Time, Runtime> {
    ghost use Rattle.std.specs.Prelude.{◌≡◌, ◌≤◌, [], length, vec_capacity};
    ghost use Rattle.run_weave.specs.Jobs.{LaneDid};
    ghost use Rattle.run_weave.specs.Workers.{zeros};

    type Left = LaneLeft<QueueRoom>;

    ghost ready = { λ job. (job.lane.number ≡ job.number) × (job.room.items ≡ []) × (length job.lane.ports ≤ vec_capacity job.room) };

    ghost did = { λ job left. LaneDid Server.serves QueueRoom.capacity
        job.number job.acceptor job.lane zeros left.senders.items left.counts left.is_full };

    fn work(self) -> LaneLeft<QueueRoom> {
        let LaneJob {
            rt,
            alloc,
            number,
            mut acceptor,
            lane,
            room,
            observer,
            stop,
            clock,
            answers,
        } = self;
        let mut counts = Told::new(observer);
        let lent = Lent {
            alloc,
            stop,
            clock,
            answers,
        };
        let task = LaneTask { number, lane, room };
        let end = lane_worker::work(rt, &lent, task, &mut acceptor, &mut counts, observer);
        let report = counts.end();
        LaneLeft {
            senders: end.senders,
            counts: report,
            is_full: end.is_full,
        }
    }
}
