//! What the exporter takes is told to a watcher.
ghost use Rattle.std.specs.Prelude.{◌≡◌, ◌<◌, ℕ, List, [], All, false};
ghost use Rattle.std.specs.List.{list_any};
ghost use Rattle.lane_queue.specs.Ends.{IsNew, queues};
ghost use Rattle.span_exporter.specs.Calls.{ExporterCall};
ghost use Rattle.span_exporter.specs.Work.{ExporterWorks};
ghost use Rattle.span_exporter.specs.Turns.{Pops};

use drop_ledger::{Counter, Tally};
use lane_queue::{Pause, Receiver, Room};
use released_spans::Shipment;
use span_exporter::{Exporter, ExporterEnd, Inbox, work_from};
use span_sink::Destination;
use std::sync::Wait;
use std::time::Clock;
use thread_watch::Watcher;

/// The exporter's end of the shards' queues, which tells a watcher of each span that is popped there.
#[derive(Drop)]
pub struct WatchedInbox<'s, C: Room, W> {
    pub receiver: Receiver<Shipment, C>,
    pub watcher: &'s W,
}

impl<'s, C: Room, W: Watcher> Inbox for WatchedInbox<'s, C, W> {
    ghost use Rattle.span_exporter.specs.Turns.{Pops};

    ghost gives = { λ old given new. Pops C.capacity old.receiver given new.receiver };

    fn next<R: Wait>(&mut self, rt: &R) -> Option<Shipment> {
        let shipment = self.receiver.next(rt)?;
        tell_pulled(rt, self.watcher, &shipment);
        Some(shipment)
    }

    fn rest<R: Wait + Clock>(&self, rt: &R, pause: &Pause) {
        self.receiver.rest(rt, pause);
    }
}

/// Tells of a span that the exporter takes. One without valid ids is never released.
fn tell_pulled<W: Watcher, R: Wait>(rt: &R, watcher: &W, shipment: &Shipment) {
    let Shipment::Span(arrival, _) = shipment else {
        return;
    };
    if let Some(ids) = arrival.rec.span.get().ids {
        watcher.pulled(rt, ids.trace, ids.span);
    }
}

/// The exporter's loop over the shards' queues, as `span_exporter::work` is, which tells a watcher of each span that it
/// takes.
pub fn work_watched<
    's,
    Output: Destination,
    ExportRoom: Room,
    Ledger: Counter,
    Observer: Watcher,
    Runtime: Wait + Clock,
>(
    rt: &Runtime,
    exporter: Exporter<Output>,
    receiver: Receiver<Shipment, ExportRoom>,
    tally: Tally<Ledger>,
    watcher: &'s Observer,
) -> ExporterEnd<Output, Receiver<Shipment, ExportRoom>, Ledger>
    requires new_exporter { (exporter.batch ≡ []) × (0 < exporter.size) }
    requires none_ended { list_any (λ ended. ended) exporter.ends ≡ false }
    requires new_queues { All IsNew receiver.ends }
    ensures works { (calls : List (ℕ × ExporterCall)) × ExporterWorks exporter result.exporter result.inbox tally result.tally calls }
    ensures same_queues { queues result.inbox.ends ≡ queues receiver.ends }
{
    let inbox = WatchedInbox { receiver, watcher };
    let ExporterEnd {
        exporter,
        inbox,
        tally,
    } = work_from(rt, exporter, inbox, tally);
    let WatchedInbox {
        receiver,
        watcher: _,
    } = inbox;
    ExporterEnd {
        exporter,
        inbox: receiver,
        tally,
    }
}
