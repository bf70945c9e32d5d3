//! What serves the connections of a lane, on the lane's thread.
ghost use Rattle.std.specs.Prelude.{◌≡◌, ℕ, Bool};
ghost use Rattle.lane_queue.specs.Ends.{queues};
ghost use Rattle.lane_worker.specs.Serving.{LaneAt, lane_at};

use crate::acceptor::Acceptor;
use crate::lane_worker::serve_all;
use drop_ledger::Counter;
use http_lane::{Clock as MomentClock, HasStopMark, Lent};
use http_text::Allowed;
use lane_queue::{Room, SenderPort};
use lane_seq::Lane;
use lane_turns::{Driver, serve_turns};
use otlp_types::Item;
use std::sync::Wait;
use std::time::Clock;
use thread_watch::Barrier;

/// What serves the connections of a lane.
pub trait LaneServer {
    /// What it does to a lane whose queues may hold this number of items: itself and the lane before and after it
    /// served all, and whether a count would have passed 2^64-1.
    ghost serves: { ℕ → Self → LaneAt → Self → LaneAt → Bool → Type 0 };

    /// Serves connections until there are none any more, or a count would have passed 2^64-1, and says whether that was
    /// so.
    fn serve_all<
        'l,
        'r,
        QueueRoom: Room,
        Ledger: Counter,
        Observer: Barrier,
        Mark: HasStopMark,
        Time: MomentClock,
        Runtime: Wait + Clock,
    >(
        &mut self,
        rt: &'r Runtime,
        lent: &Lent<'l, Mark, Time>,
        number: u16,
        lane: &mut Lane<SenderPort<'r, Item, QueueRoom, Runtime>>,
        counter: &mut Ledger,
        barrier: &Observer,
    ) -> bool
        ensures served { serves QueueRoom.capacity self.old (lane_at lane.old (Ledger.counted counter.old)) self.new (lane_at lane.new (Ledger.counted counter.new)) result }
        ensures same_queues { queues lane.new.ports ≡ queues lane.old.ports };
}

/// Serves what an acceptor gives, one connection after the other, each to its end.
#[derive(Drop)]
pub struct OneByOne<F> {
    pub acceptor: F,
}

// The program serves by turns (`ByTurns`): only tests have an acceptor (D-155).
impl<F: Acceptor> LaneServer for OneByOne<F> {
    ghost use Rattle.lane_worker.specs.Serving.{connection, HasServed};

    ghost serves = { λ capacity old before new after is_full. HasServed F.gives (λ x. connection (F.Reader.given x.0) (F.Writer.contents x.1)) capacity old.acceptor before new.acceptor after is_full };

    fn serve_all<
        'l,
        'r,
        QueueRoom: Room,
        Ledger: Counter,
        Observer: Barrier,
        Mark: HasStopMark,
        Time: MomentClock,
        Runtime: Wait + Clock,
    >(
        &mut self,
        rt: &'r Runtime,
        lent: &Lent<'l, Mark, Time>,
        number: u16,
        lane: &mut Lane<SenderPort<'r, Item, QueueRoom, Runtime>>,
        counter: &mut Ledger,
        barrier: &Observer,
    ) -> bool {
        serve_all(rt, lent, number, lane, &mut self.acceptor, counter, barrier)
    }
}

/// Serves many connections at once, turn by turn as a driver says.
#[derive(Drop)]
pub struct ByTurns<D> {
    pub driver: D,
    /// What is allowed to clients.
    pub allowed: Allowed,
}

impl<D: Driver> LaneServer for ByTurns<D> {
    ghost use Rattle.lane_worker.specs.Serving.{ServesMany};

    ghost serves = { λ capacity old before new after is_full. ServesMany D.asks D.hears old.allowed capacity old.driver before new.driver after is_full };

    fn serve_all<
        'l,
        'r,
        QueueRoom: Room,
        Ledger: Counter,
        Observer: Barrier,
        Mark: HasStopMark,
        Time: MomentClock,
        Runtime: Wait + Clock,
    >(
        &mut self,
        rt: &'r Runtime,
        lent: &Lent<'l, Mark, Time>,
        _number: u16,
        lane: &mut Lane<SenderPort<'r, Item, QueueRoom, Runtime>>,
        counter: &mut Ledger,
        _barrier: &Observer,
    ) -> bool {
        // No barrier: it holds a lane between two connections, and these are served side by side.
        serve_turns(rt, lent, self.allowed, &mut self.driver, lane, counter)
    }
}
