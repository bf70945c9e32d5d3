//! Where the exporter's thread takes shipments from.
ghost use Rattle.std.specs.Prelude.{◌≡◌, ℕ, Option, Some, None, IfSome, IfNone};
ghost use Rattle.released_spans.specs.declared.shipment.Shipment.{Shipment as ShipmentValue};
ghost use Rattle.span_exporter.specs.Turns.{Pops};

use lane_queue::{Pause, Receiver, Room};
use released_spans::Shipment;
use std::sync::Wait;
use std::time::Clock;

/// Gives shipments, one after the other, each of one shard.
pub trait Inbox {
    /// What one call of `next` does: the inbox before it, what it gave, with the number of the shard, and the inbox
    /// after it.
    ghost gives: { Self → Option (ℕ × ShipmentValue) → Self → Type 0 };

    /// The next shipment, or `None` where nothing waits.
    fn next<R: Wait>(&mut self, rt: &R) -> Option<Shipment>
        ensures some { IfSome result (λ shipment. (shard : ℕ) × gives self.old (Some (shard, shipment)) self.new) }
        ensures none { IfNone result (gives self.old None self.new) };

    /// Waits a little where nothing waited, each time longer, and at last until something comes.
    fn rest<R: Wait + Clock>(&self, rt: &R, pause: &Pause);
}

impl<C: Room> Inbox for Receiver<Shipment, C> {
    ghost gives = { Pops C.capacity };

    fn next<R: Wait>(&mut self, rt: &R) -> Option<Shipment> {
        self.pop(rt)
    }

    fn rest<R: Wait + Clock>(&self, rt: &R, pause: &Pause) {
        self.wait(rt, pause);
    }
}
