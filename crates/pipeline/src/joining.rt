//! The queues and seats of a run are joined again.
ghost use Rattle.std.specs.Prelude.{◌≡◌, ◌<◌, ℕ, All, length, vec_len};
ghost use Rattle.lane_queue.specs.Ends.{AreTied, HasHistoryAt};
ghost use Rattle.lane_queue.specs.Grid.{ends_of, HasRoom, IsTiedGrid, HaveHistories};
ghost use Rattle.shared_budget.specs.Budget.{AreOfOneBudget, HaveOneHistoryEach};

use crate::shards::ShardEnds;
use lane_queue::{Receiver, Room, Sender, reunite, reunite_grid};
use otlp_types::Item;
use released_spans::Shipment;
use shared_budget::SharedBudget;
use std::sync::Wait;

/// Joins the ends of all queues and the seats at the limiter: one history of each queue and of each limiter node has
/// all that was done there.
pub fn join_all<'s, C: Room, D: Room, R: Wait>(
    columns: Vec<Vec<Sender<Item, C>>>,
    ends: ShardEnds<'s, C, D, R>,
    shipments: Receiver<Shipment, D>,
    rows: Vec<Vec<Sender<Item, C>>>,
)
    requires tied { IsTiedGrid (ends_of columns.items) ends.receivers.items }
    requires rows { (vec_len rows ≡ vec_len ends.receivers) × All (HasRoom (vec_len columns)) rows.items }
    requires shipped { AreTied ends.exports.items shipments.ends }
    requires seats { AreOfOneBudget ends.seats.items }
    ensures items { HaveHistories C.capacity (ends_of columns.items) ends.entry.receivers.items }
    ensures shipments { (place : ℕ) → place < length shipments.ends → HasHistoryAt D.capacity ends.entry.exports.items shipments.ends place }
    ensures seats { HaveOneHistoryEach ends.entry.seats.items }
{
    let ShardEnds {
        seats,
        receivers,
        exports,
    } = ends;
    reunite_grid(receivers, columns, rows);
    reunite(shipments, exports);
    SharedBudget::reunite(seats);
}
