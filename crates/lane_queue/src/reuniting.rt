//! The queues are reunited.
ghost use Rattle.std.specs.Prelude.{◌≡◌, ◌<◌, ◌≤◌, All, length, map, vec_len, vec_capacity, []};
ghost use Rattle.lane_queue.specs.Grid.{ends_of, dealt, HasRoom, IsTiedGrid, HaveHistories, AreLong};

use crate::ends::Sender;
use crate::receiver::{Receiver, reunite};
use crate::rule::Room;

/// Joins all ends that one [`crate::new_grid`] gave: one history of each queue has all that was pushed and popped
/// there. `rows` are the lists that it gave beside them.
pub fn reunite_grid<T: Drop, C: Room>(
    receivers: Vec<Receiver<T, C>>,
    columns: Vec<Vec<Sender<T, C>>>,
    rows: Vec<Vec<Sender<T, C>>>,
)
    requires tied { IsTiedGrid (ends_of columns.items) receivers.items }
    requires rows { (vec_len rows ≡ vec_len receivers) × All (HasRoom (vec_len columns)) rows.items }
    ensures { HaveHistories C.capacity (ends_of columns.items) receivers.items }
{
    let mut receivers = receivers;
    let mut columns = columns;
    let mut rows = rows;
    while let Some(receiver) = receivers.pop() {
        let row = take_row(&mut columns, rows.take_last());
        reunite(receiver, row);
    }
}

/// Takes the last end of each sender.
fn take_row<T: Drop, C: Room>(
    columns: &mut Vec<Vec<Sender<T, C>>>,
    room: Vec<Sender<T, C>>,
) -> Vec<Sender<T, C>>
    requires some { AreLong (ends_of columns.old.items) }
    requires room { HasRoom (vec_len columns.old) room }
    ensures taken { dealt (ends_of columns.new.items) result.items ≡ ends_of columns.old.items }
    ensures len { vec_len result ≡ vec_len columns.old }
    ensures columns { vec_len columns.new ≡ vec_len columns.old }
{
    let mut row = room;
    for place in 0..columns.len() {
        let column = &mut columns[place];
        row.push_reserved(column.take_last());
    }
    row
}
