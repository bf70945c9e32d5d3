//! All that a run needs is made before a thread is started.
ghost use Rattle.std.specs.Prelude.{◌≡◌, ◌+◌, ◌++◌, ◌∷◌, ◌<◌, ◌≤◌, [], All, length, map, vec_len, vec_capacity, IfErr, IfOk};
ghost use Rattle.lane_queue.specs.Ends.{AreTied, IsNew};
ghost use Rattle.lane_queue.specs.Grid.{AreNewColumns, ColumnsWaitAs, HasRoom, IsTiedGrid, ends_of};
ghost use Rattle.shared_budget.specs.Budget.{AreNewSeats};
ghost use Rattle.tsc_config.specs.declared.config.Config.{Config};
ghost use Rattle.pipeline.specs.Made.{NumberedFrom, CanRun, IsReady, HasEnds};
ghost use Rattle.pipeline.specs.Promise.{HasSettings, nodes_of};

use crate::lane_job::LaneJob;
use crate::lanes::{LaneJobs, lane_jobs};
use crate::lent::ThreadContext;
use crate::shard_job::ShardJob;
use crate::shards::{ShardEnds, shard_jobs};
use crate::ticker_job::TickerJob;
use drop_ledger::Report;
use job_threads::Team;
use lane_queue::{LaneQueue, QueueGrid, Receiver, Room, Sender, new_grid};
use otlp_types::Item;
use released_spans::Shipment;
use shared_budget::{SharedBudget, new_seats_have_nodes};
use std::alloc::{AllocError, Global};
use std::sync::Wait;
use tsc_config::Config;

/// What a run needs beside its exporter.
#[derive(Drop)]
pub struct Made<
    's,
    Server,
    TickSource,
    QueueRoom: Room,
    ExportRoom: Room,
    Observer,
    Mark,
    Time,
    Runtime: Wait,
> {
    /// What the threads are given.
    pub team: Team<
        LaneJob<'s, Server, QueueRoom, Observer, Mark, Time, Runtime>,
        TickerJob<'s, TickSource, QueueRoom, Runtime>,
        ShardJob<'s, QueueRoom, ExportRoom, Observer, Runtime>,
    >,
    /// The ends at which the exporter pops, by shard.
    pub shipments: Receiver<Shipment, ExportRoom>,
    /// Room for what the threads leave.
    pub rooms: RunRooms<'s, QueueRoom, ExportRoom, Runtime>,
    /// Room for the acceptors, where they come back.
    pub acceptors: Vec<Server>,
}

/// Room for what the threads of a run leave, and the lists with which its queues are joined again.
#[derive(Drop)]
pub struct RunRooms<'s, C: Room, D: Room, R: Wait> {
    /// The ends at which items were pushed, for each lane and then for the ticker, by shard.
    pub columns: Vec<Vec<Sender<Item, C>>>,
    /// The shards' seats and ends.
    pub ends: ShardEnds<'s, C, D, R>,
    /// What each thread counted.
    pub counts: Vec<Report>,
    /// An empty list for each shard.
    pub rows: Vec<Vec<Sender<Item, C>>>,
}

/// Makes all that the threads of a run are given. Where there is no memory the acceptors and the ticks come back.
pub fn make<
    's,
    Server: Drop,
    TickSource: Drop,
    QueueRoom: Room,
    ExportRoom: Room,
    Observer,
    Mark,
    Time,
    Runtime: Wait,
>(
    lent: &ThreadContext<'s, Observer, Mark, Time, Runtime>,
    config: &Config,
    acceptors: Vec<Server>,
    ticks: TickSource,
) -> Result<
    Made<'s, Server, TickSource, QueueRoom, ExportRoom, Observer, Mark, Time, Runtime>,
    (Vec<Server>, TickSource),
>
    requires runs { CanRun config.now QueueRoom.capacity QueueRoom.waits ExportRoom.capacity ExportRoom.waits }
    requires acceptors { vec_len acceptors ≡ config.now.lanes }
    ensures lanes { IfOk result (λ made. (vec_len made.team.first ≡ config.now.lanes)
        × All (λ job. (job.lane.number ≡ job.number) × (job.room.items ≡ []) × (length job.lane.ports ≤ vec_capacity job.room)) made.team.first.items) }
    ensures shards { IfOk result (λ made. (vec_len made.team.third ≡ config.now.shards)
        × All (λ job. IsReady job.shard job.receiver job.sender job.seat) made.team.third.items) }
    ensures shipments { IfOk result (λ made. All IsNew made.shipments.ends) }
    ensures acceptors { IfOk result (λ made. map (λ job. job.acceptor) made.team.first.items ≡ acceptors.items) }
    ensures ticker { IfOk result (λ made. (made.team.second.number ≡ config.now.lanes) × (made.team.second.ticks ≡ ticks)) }
    ensures numbers { IfOk result (λ made. NumberedFrom 0 (map (λ job. job.number) made.team.first.items) × NumberedFrom 0 (map (λ job. job.number) made.team.third.items)) }
    ensures new_lanes { IfOk result (λ made. All (λ job. (job.lane.connected ≡ 0) × (job.lane.keeps_doubles ≡ config.now.keeps_doubles)) made.team.first.items) }
    ensures new_shards { IfOk result (λ made. All (λ job. HasSettings config.now job.shard) made.team.third.items) }
    ensures ends { IfOk result (λ made. HasEnds (nodes_of config.now) config.now.shards (map (λ job. job.lane.ports) made.team.first.items) made.team.second.senders.items
        (map (λ job. job.receiver) made.team.third.items) (map (λ job. job.sender) made.team.third.items) (map (λ job. job.seat) made.team.third.items) made.shipments) }
    ensures waits { IfOk result (λ made. ColumnsWaitAs config.now.waits_for_room (map (λ job. job.lane.ports) made.team.first.items)) }
    ensures columns { IfOk result (λ made. (made.rooms.columns.items ≡ []) × (config.now.lanes + 1 ≤ vec_capacity made.rooms.columns)) }
    ensures seats { IfOk result (λ made. (made.rooms.ends.seats.items ≡ []) × (config.now.shards ≤ vec_capacity made.rooms.ends.seats)) }
    ensures receivers { IfOk result (λ made. (made.rooms.ends.receivers.items ≡ []) × (config.now.shards ≤ vec_capacity made.rooms.ends.receivers)) }
    ensures exports { IfOk result (λ made. (made.rooms.ends.exports.items ≡ []) × (config.now.shards ≤ vec_capacity made.rooms.ends.exports)) }
    ensures counts_room { IfOk result (λ made. (made.rooms.counts.items ≡ []) × (config.now.lanes + config.now.shards + 1 ≤ vec_capacity made.rooms.counts)) }
    ensures rows { IfOk result (λ made. (vec_len made.rooms.rows ≡ config.now.shards) × All (HasRoom (config.now.lanes + 1)) made.rooms.rows.items) }
    ensures acceptors_room { IfOk result (λ made. (made.acceptors.items ≡ []) × (config.now.lanes ≤ vec_capacity made.acceptors)) }
    ensures back { IfErr result (λ back. (back.0.items ≡ acceptors.items) × (back.1 ≡ ticks)) }
{
    // All memory is taken before a thread starts: where it is refused, nothing was asked of an acceptor (D-158).
    let Ok(made) = run_ends::<QueueRoom, ExportRoom, Runtime>(lent.rt, lent.alloc, config) else {
        return Err((acceptors, ticks));
    };
    let RunEnds {
        columns,
        ends,
        shipments,
        rows,
    } = made;
    let Ok(rooms) = rooms_for(lent.alloc, config.lanes as usize, config.shards, rows) else {
        return Err((acceptors, ticks));
    };
    let (team, acceptors) = team_of(lent, config, acceptors, ticks, columns, ends)?;
    Ok(Made {
        team,
        shipments,
        rooms,
        acceptors,
    })
}

/// What the threads of a run are given: the lanes, the ticker and the shards; and the list of the acceptors, which is
/// empty and has room for them again.
fn team_of<
    's,
    Server: Drop,
    TickSource: Drop,
    QueueRoom: Room,
    ExportRoom: Room,
    Observer,
    Mark,
    Time,
    Runtime: Wait,
>(
    lent: &ThreadContext<'s, Observer, Mark, Time, Runtime>,
    config: &Config,
    acceptors: Vec<Server>,
    ticks: TickSource,
    columns: Vec<Vec<Sender<Item, QueueRoom>>>,
    ends: ShardEnds<'s, QueueRoom, ExportRoom, Runtime>,
) -> Result<
    (
        Team<
            LaneJob<'s, Server, QueueRoom, Observer, Mark, Time, Runtime>,
            TickerJob<'s, TickSource, QueueRoom, Runtime>,
            ShardJob<'s, QueueRoom, ExportRoom, Observer, Runtime>,
        >,
        Vec<Server>,
    ),
    (Vec<Server>, TickSource),
>
    requires runs { CanRun config.now QueueRoom.capacity QueueRoom.waits ExportRoom.capacity ExportRoom.waits }
    requires acceptors { (vec_len acceptors ≡ config.now.lanes) × (vec_len acceptors < 65536) }
    requires columns { (vec_len columns ≡ config.now.lanes + 1) × All (λ c. 0 < length c.items) columns.items }
    requires seats { AreNewSeats (nodes_of config.now) config.now.shards ends.seats.items }
    requires receivers { (vec_len ends.receivers ≡ config.now.shards) × All (λ r. All IsNew r.ends) ends.receivers.items }
    requires exports { (vec_len ends.exports ≡ config.now.shards) × All IsNew ends.exports.items }
    ensures lanes { IfOk result (λ made. (vec_len made.0.first ≡ config.now.lanes)
        × All (λ job. (job.lane.number ≡ job.number) × (job.room.items ≡ []) × (length job.lane.ports ≤ vec_capacity job.room)) made.0.first.items) }
    ensures shards { IfOk result (λ made. (vec_len made.0.third ≡ config.now.shards)
        × All (λ job. IsReady job.shard job.receiver job.sender job.seat) made.0.third.items) }
    ensures acceptors { IfOk result (λ made. map (λ job. job.acceptor) made.0.first.items ≡ acceptors.items) }
    ensures ticker { IfOk result (λ made. (made.0.second.number ≡ config.now.lanes) × (made.0.second.ticks ≡ ticks)) }
    ensures numbers { IfOk result (λ made. NumberedFrom 0 (map (λ job. job.number) made.0.first.items) × NumberedFrom 0 (map (λ job. job.number) made.0.third.items)) }
    ensures new_lanes { IfOk result (λ made. All (λ job. (job.lane.connected ≡ 0) × (job.lane.keeps_doubles ≡ config.now.keeps_doubles)) made.0.first.items) }
    ensures new_shards { IfOk result (λ made. All (λ job. HasSettings config.now job.shard) made.0.third.items) }
    ensures ports { IfOk result (λ made. ends_of columns.items ≡ map (λ job. job.lane.ports) made.0.first.items ++ made.0.second.senders.items ∷ []) }
    ensures ends { IfOk result (λ made. (map (λ job. job.seat) made.0.third.items ≡ ends.entry.seats.items) × (map (λ job. job.receiver) made.0.third.items ≡ ends.entry.receivers.items) × (map (λ job. job.sender) made.0.third.items ≡ ends.entry.exports.items)) }
    ensures acceptors_room { IfOk result (λ made. (made.1.items ≡ []) × (config.now.lanes ≤ vec_capacity made.1)) }
    ensures back { IfErr result (λ back. (back.0.items ≡ acceptors.items) × (back.1 ≡ ticks)) }
{
    // A law, called for its clause: each seat may be lent to a shard's decisions (D-059).
    new_seats_have_nodes();
    let mut columns = columns;
    // The last column is the ticker's, whose number is that of the lanes (D-094).
    let senders = columns.take_last();
    let Ok(third) = shard_jobs(lent, config, ends) else {
        return Err((acceptors, ticks));
    };
    let (waits, keeps) = (config.waits_for_room, config.keeps_doubles);
    let made = match lane_jobs(lent, waits, keeps, acceptors, columns) {
        Ok(made) => made,
        Err(acceptors) => return Err((acceptors, ticks)),
    };
    let LaneJobs { jobs, acceptors } = made;
    let team = Team {
        first: jobs,
        second: TickerJob {
            rt: lent.rt,
            number: config.lanes,
            ticks,
            senders,
        },
        third,
    };
    Ok((team, acceptors))
}

/// The new queues and seats of a run.
#[derive(Drop)]
struct RunEnds<'s, C: Room, D: Room, R: Wait> {
    /// The ends at which items are pushed, for each lane and then for the ticker, by shard.
    columns: Vec<Vec<Sender<Item, C>>>,
    ends: ShardEnds<'s, C, D, R>,
    /// The ends at which the exporter pops, by shard.
    shipments: Receiver<Shipment, D>,
    /// An empty list for each shard.
    rows: Vec<Vec<Sender<Item, C>>>,
}

/// Makes all queues and seats of a run.
fn run_ends<'s, C: Room, D: Room, R: Wait>(
    rt: &'s R,
    alloc: Global,
    config: &Config,
) -> Result<RunEnds<'s, C, D, R>, AllocError>
    requires { CanRun config.now C.capacity C.waits D.capacity D.waits }
    ensures columns { IfOk result (λ made. (vec_len made.columns ≡ config.now.lanes + 1) × All (λ c. 0 < length c.items) made.columns.items) }
    ensures grid { IfOk result (λ made. IsTiedGrid (ends_of made.columns.items) made.ends.receivers.items × AreNewColumns (ends_of made.columns.items)) }
    ensures waits { IfOk result (λ made. ColumnsWaitAs config.now.waits_for_room (ends_of made.columns.items)) }
    ensures seats { IfOk result (λ made. AreNewSeats (nodes_of config.now) config.now.shards made.ends.seats.items) }
    ensures receivers { IfOk result (λ made. (vec_len made.ends.receivers ≡ config.now.shards) × All (λ r. All IsNew r.ends) made.ends.receivers.items) }
    ensures exports { IfOk result (λ made. (vec_len made.ends.exports ≡ config.now.shards) × All IsNew made.ends.exports.items) }
    ensures shipped { IfOk result (λ made. AreTied made.ends.exports.items made.shipments.ends × All IsNew made.shipments.ends) }
    ensures rows { IfOk result (λ made. (vec_len made.rows ≡ config.now.shards) × All (HasRoom (config.now.lanes + 1)) made.rows.items) }
{
    let (shards, senders) = (config.shards, config.lanes as usize + 1);
    let seats = SharedBudget::new(rt, alloc, &config.policies, shards as u64)?;
    let (exports, shipments) = LaneQueue::new::<Shipment, D>(
        alloc,
        config.export_capacity,
        false,
        shards,
    )?;
    let grid = new_grid::<Item, C>(
        alloc,
        config.queue_capacity,
        config.waits_for_room,
        senders,
        shards,
    )?;
    let QueueGrid {
        columns,
        receivers,
        rows,
    } = grid;
    Ok(RunEnds {
        columns,
        ends: ShardEnds {
            seats,
            receivers,
            exports,
        },
        shipments,
        rows,
    })
}

/// Room for what the lanes, the ticker, the shards and the exporter leave.
fn rooms_for<'s, C: Room, D: Room, R: Wait>(
    alloc: Global,
    lanes: usize,
    shards: usize,
    rows: Vec<Vec<Sender<Item, C>>>,
) -> Result<RunRooms<'s, C, D, R>, AllocError>
    requires { lanes + shards < 1000000 }
    ensures columns { IfOk result (λ rooms. (rooms.columns.items ≡ []) × (lanes + 1 ≤ vec_capacity rooms.columns)) }
    ensures seats { IfOk result (λ rooms. (rooms.ends.seats.items ≡ []) × (shards ≤ vec_capacity rooms.ends.seats)) }
    ensures receivers { IfOk result (λ rooms. (rooms.ends.receivers.items ≡ []) × (shards ≤ vec_capacity rooms.ends.receivers)) }
    ensures exports { IfOk result (λ rooms. (rooms.ends.exports.items ≡ []) × (shards ≤ vec_capacity rooms.ends.exports)) }
    ensures counts { IfOk result (λ rooms. (rooms.counts.items ≡ []) × (lanes + shards + 1 ≤ vec_capacity rooms.counts)) }
    ensures rows { IfOk result (λ rooms. rooms.rows ≡ rows) }
{
    // For what the threads leave, too: nothing can be refused after a run (D-158).
    let columns = Vec::with_capacity(alloc, lanes + 1)?;
    let counts = Vec::with_capacity(alloc, lanes + shards + 1)?;
    let ends = ends_room(alloc, shards)?;
    Ok(RunRooms {
        columns,
        ends,
        counts,
        rows,
    })
}

/// Room for the seats and ends of the shards.
fn ends_room<'s, C: Room, D: Room, R: Wait>(
    alloc: Global,
    shards: usize,
) -> Result<ShardEnds<'s, C, D, R>, AllocError>
    ensures seats { IfOk result (λ ends. (ends.seats.items ≡ []) × (shards ≤ vec_capacity ends.seats)) }
    ensures receivers { IfOk result (λ ends. (ends.receivers.items ≡ []) × (shards ≤ vec_capacity ends.receivers)) }
    ensures exports { IfOk result (λ ends. (ends.exports.items ≡ []) × (shards ≤ vec_capacity ends.exports)) }
{
    Ok(ShardEnds {
        seats: Vec::with_capacity(alloc, shards)?,
        receivers: Vec::with_capacity(alloc, shards)?,
        exports: Vec::with_capacity(alloc, shards)?,
    })
}
