//! The queues are made and dealt.
ghost use Rattle.std.specs.Prelude.{◌≡◌, ◌<◌, ◌≤◌, All, length, map, [], replicate, vec_len, vec_capacity, IfOk, OnOk};
ghost use Rattle.lane_queue.specs.Ends.{IsNew};
ghost use Rattle.lane_queue.specs.Grid.{ends_of, dealt, AreNewColumns, ColumnsWaitAs, AreOfLength, HasRoom, IsTiedGrid};

use crate::ends::Sender;
use crate::receiver::{LaneQueue, Receiver};
use crate::rule::Room;
use std::alloc::{AllocError, Global};

/// The ends of new queues.
#[derive(Drop)]
pub struct QueueGrid<T, C: Room> {
    /// For each sender the ends at which it pushes, one for each receiver in their order.
    pub columns: Vec<Vec<Sender<T, C>>>,
    /// For each receiver the other ends, one for each sender in their order.
    pub receivers: Vec<Receiver<T, C>>,
    /// For each receiver an empty list with room for an end of each sender, with which [`crate::reunite_grid`] does.
    pub rows: Vec<Vec<Sender<T, C>>>,
}

/// A new queue from each sender to each receiver, each of which may hold `capacity` items. `waits`: a lane's push waits
/// for room. All memory that is needed is taken here: `Err` where that was refused.
pub fn new_grid<T: Drop, C: Room>(
    alloc: Global,
    capacity: usize,
    waits: bool,
    senders: usize,
    receivers: usize,
) -> Result<QueueGrid<T, C>, AllocError>
    requires room { 0 < capacity }
    requires picked { (capacity ≡ C.capacity) × (waits ≡ C.waits) }
    ensures senders { IfOk result (λ grid. vec_len grid.columns ≡ senders) }
    ensures receivers { IfOk result (λ grid. vec_len grid.receivers ≡ receivers) }
    ensures even { IfOk result (λ grid. AreOfLength receivers (ends_of grid.columns.items)) }
    ensures tied { IfOk result (λ grid. IsTiedGrid (ends_of grid.columns.items) grid.receivers.items) }
    ensures rows { IfOk result (λ grid. (vec_len grid.rows ≡ receivers) × All (HasRoom senders) grid.rows.items) }
    ensures new { IfOk result (λ grid. AreNewColumns (ends_of grid.columns.items) × All (λ r. All IsNew r.ends) grid.receivers.items) }
    ensures waits { IfOk result (λ grid. ColumnsWaitAs waits (ends_of grid.columns.items)) }
{
    let mut columns = empty_lists(alloc, senders, receivers)?;
    let mut all = Vec::with_capacity(alloc, receivers)?;
    for _ in 0..receivers {
        let (row, receiver) = LaneQueue::new::<T, C>(alloc, capacity, waits, senders)?;
        deal(&mut columns, row)?;
        all.push_reserved(receiver);
    }
    Ok(QueueGrid {
        columns,
        receivers: all,
        rows: empty_lists(alloc, receivers, senders)?,
    })
}

/// So many empty lists, each with room for so many ends.
fn empty_lists<T: Drop, C: Room>(
    alloc: Global,
    count: usize,
    room: usize,
) -> Result<Vec<Vec<Sender<T, C>>>, AllocError>
    ensures count { IfOk result (λ lists. vec_len lists ≡ count) }
    ensures empty { IfOk result (λ lists. ends_of lists.items ≡ replicate count []) }
    ensures room { IfOk result (λ lists. All (HasRoom room) lists.items) }
{
    let mut lists = Vec::with_capacity(alloc, count)?;
    for _ in 0..count {
        lists.push_reserved(Vec::with_capacity(alloc, room)?);
    }
    Ok(lists)
}

/// Gives each sender its end of a row.
fn deal<T: Drop, C: Room>(
    columns: &mut Vec<Vec<Sender<T, C>>>,
    row: Vec<Sender<T, C>>,
) -> Result<(), AllocError>
    requires { vec_len row ≡ vec_len columns.old }
    ensures dealt { OnOk result (ends_of columns.new.items ≡ dealt (ends_of columns.old.items) row.items) }
    ensures count { vec_len columns.new ≡ vec_len columns.old }
{
    let mut place = 0;
    for sender in row {
        columns[place].push(sender)?;
        place += 1;
    }
    Ok(())
}
