//! What the ticker's thread is given, does and leaves.
ghost use Rattle.run_weave.specs.Jobs.{TickerDid};

use job_threads::Job;
use lane_queue::{Room, Sender};
use lane_worker::Ticks;
use otlp_types::Item;
use std::sync::Wait;
use std::time::Clock;

/// What the ticker's thread is given: its number among the senders is that of the lanes.
#[derive(Drop)]
pub struct TickerJob<'s, T, C: Room, R> {
    pub rt: &'s R,
    pub number: u16,
    pub ticks: T,
    pub senders: Vec<Sender<Item, C>>,
}

impl<'s, T: Ticks + Drop, C: Room, R: Wait + Clock> Job for TickerJob<'s, T, C, R> {
    ghost use Rattle.run_weave.specs.Jobs.{TickerDid};

    type Left = Vec<Sender<Item, C>>;

    ghost ready = { λ job. Unit {0} };

    ghost did = { λ job left. TickerDid T.gives job.number job.ticks job.senders.items left.items };

    fn work(self) -> Vec<Sender<Item, C>> {
        let TickerJob {
            rt,
            number,
            mut ticks,
            senders,
        } = self;
        lane_worker::tick(rt, number, senders, &mut ticks)
    }
}
