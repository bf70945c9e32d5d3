//! What the exporter is given, does and leaves, on the thread of the caller.
ghost use Rattle.std.specs.Prelude.{◌≡◌, ◌<◌, [], All, false};
ghost use Rattle.std.specs.List.{list_any};
ghost use Rattle.lane_queue.specs.Ends.{IsNew};
ghost use Rattle.run_weave.specs.Jobs.{ExporterDid};

use crate::telling::Told;
use crate::watched_inbox::work_watched;
use drop_ledger::{Report, Tally};
use job_threads::Job;
use lane_queue::{Receiver, Room};
use released_spans::Shipment;
use span_exporter::Exporter;
use span_sink::Destination;
use std::sync::Wait;
use std::time::Clock;
use thread_watch::Watcher;

/// What the exporter is given.
#[derive(Drop)]
pub struct ExporterJob<'s, Output: Destination, ExportRoom: Room, Observer, Runtime: Wait> {
    pub rt: &'s Runtime,
    pub exporter: Exporter<Output>,
    pub receiver: Receiver<Shipment, ExportRoom>,
    pub observer: &'s Observer,
}

/// What the exporter leaves.
#[derive(Drop)]
pub struct ExporterLeft<Output: Destination, D: Room> {
    /// The exporter, whose batch is empty.
    pub exporter: Exporter<Output>,
    /// The end at which shipments were popped.
    pub receiver: Receiver<Shipment, D>,
    /// What it counted.
    pub counts: Report,
    /// Whether a number of its own would have passed 2^64-1.
    pub is_full: bool,
}

impl<'s, Output: Destination + Drop, ExportRoom: Room, Observer: Watcher, Runtime: Wait + Clock> Job
    for ExporterJob<'s, Output, ExportRoom, Observer, Runtime> {
    ghost use Rattle.std.specs.Prelude.{◌≡◌, ◌<◌, [], All, false};
    ghost use Rattle.std.specs.List.{list_any};
    ghost use Rattle.lane_queue.specs.Ends.{IsNew};
    ghost use Rattle.run_weave.specs.Jobs.{ExporterDid};
    ghost use Rattle.run_weave.specs.Workers.{zeros};

    type Left = ExporterLeft<Output, ExportRoom>;

    ghost ready = { λ job. (job.exporter.batch ≡ []) × (0 < job.exporter.size) × (list_any (λ ended. ended) job.exporter.ends ≡ false)
        × All IsNew job.receiver.ends };

    ghost did = { λ job left. ExporterDid job.exporter job.receiver zeros
        left.exporter left.receiver left.counts left.is_full };

    fn work(self) -> ExporterLeft<Output, ExportRoom> {
        let ExporterJob {
            rt,
            exporter,
            receiver,
            observer,
        } = self;
        let tally = Tally::new(Told::of_exporter(observer));
        let end = work_watched(rt, exporter, receiver, tally, observer);
        let is_full = end.tally.is_full();
        ExporterLeft {
            exporter: end.exporter,
            receiver: end.inbox,
            counts: end.tally.end().end(),
            is_full,
        }
    }
}
