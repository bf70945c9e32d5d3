//! The loop of a lane's thread.
ghost use Rattle.std.specs.Prelude.{◌≡◌, ◌++◌, ◌∷◌, ◌≤◌, ◌<◌, ◌-◌, ◌^◌, [], ℕ, List, length, map, vec_capacity, vec_len};
ghost use Rattle.lane_queue.specs.Ends.{EndState, queues};
ghost use Rattle.lane_worker.specs.Serving.{LaneAt, connection, lane_at, ServedOne, HasServed, is_overflow, with_end};

use crate::acceptor::Acceptor;
use crate::lane_server::LaneServer;
use drop_ledger::Counter;
use http_lane::{Clock as MomentClock, HasStopMark, Lent, ServeEnd, Source, serve};
use lane_queue::{Room, Sender, SenderPort};
use lane_seq::Lane;
use otlp_types::Item;
use std::io::Write;
use std::sync::Wait;
use std::time::Clock;
use thread_watch::{Barrier, ThreadPlace};

/// What is left of a lane's thread.
#[derive(Drop)]
pub struct LaneThreadEnd<C: Room> {
    /// The ends at which it pushed, by shard.
    pub senders: Vec<Sender<Item, C>>,
    /// Whether a count would have passed 2^64-1.
    pub is_full: bool,
}

/// What a lane's thread works on.
#[derive(Drop)]
pub struct LaneTask<'r, C: Room, R: Wait> {
    /// The lane's number.
    pub number: u16,
    pub lane: Lane<SenderPort<'r, Item, C, R>>,
    /// Room for the lane's ends by shard.
    pub room: Vec<Sender<Item, C>>,
}

/// Serves the lane's connections, and then pushes the lane's End to each shard.
pub fn work<
    'l,
    'r,
    Server: LaneServer,
    QueueRoom: Room,
    Ledger: Counter,
    Observer: Barrier,
    Mark: HasStopMark,
    Time: MomentClock,
    Runtime: Wait + Clock,
>(
    rt: &'r Runtime,
    lent: &Lent<'l, Mark, Time>,
    task: LaneTask<'r, QueueRoom, Runtime>,
    server: &mut Server,
    counter: &mut Ledger,
    barrier: &Observer,
) -> LaneThreadEnd<QueueRoom>
    requires number { task.lane.number ≡ task.number }
    requires room { (task.room.items ≡ []) × (length task.lane.ports ≤ vec_capacity task.room) }
    ensures works { (after : LaneAt) × Server.serves QueueRoom.capacity server.old (lane_at task.entry.lane (Ledger.counted counter.old)) server.new after result.is_full
        × (after.counted ≡ Ledger.counted counter.new)
        × (result.senders.items ≡ map (with_end task.entry.number) after.lane.ports) }
    ensures same_queues { queues result.senders.items ≡ queues task.entry.lane.ports }
{
    let LaneTask {
        number,
        mut lane,
        room,
    } = task;
    let is_full = server.serve_all(rt, lent, number, &mut lane, counter, barrier);
    let senders = end_all(rt, number, lane.end().ports, room);
    LaneThreadEnd { senders, is_full }
}

/// Pushes the End to each shard.
fn end_all<'r, C: Room, R: Wait + Clock>(
    rt: &R,
    number: u16,
    ports: Vec<SenderPort<'r, Item, C, R>>,
    room: Vec<Sender<Item, C>>,
) -> Vec<Sender<Item, C>>
    requires { (room.items ≡ []) × (length ports.items ≤ vec_capacity room) }
    ensures { result.items ≡ map (with_end number) ports.entry.items }
{
    let mut senders = room;
    for port in ports {
        let mut sender = port.end();
        // The last that it pushes: a shard ends once each of its senders has ended.
        sender.push(rt, Item::End(number));
        senders.push_reserved(sender);
    }
    senders
}

/// Serves what the acceptor gives until it gives nothing, one connection after the other, and says whether a count
/// would have passed 2^64-1. After 2^64-1 connections, or once a count would have passed that, no further connection is
/// asked for.
pub(crate) fn serve_all<
    'l,
    'r,
    Listener: Acceptor,
    QueueRoom: Room,
    Ledger: Counter,
    Observer: Barrier,
    Mark: HasStopMark,
    Time: MomentClock,
    Runtime: Wait + Clock,
>(
    rt: &Runtime,
    lent: &Lent<'l, Mark, Time>,
    number: u16,
    lane: &mut Lane<SenderPort<'r, Item, QueueRoom, Runtime>>,
    acceptor: &mut Listener,
    counter: &mut Ledger,
    barrier: &Observer,
) -> bool
    ensures served { HasServed Listener.gives (λ x. connection (Listener.Reader.given x.0) (Listener.Writer.contents x.1)) QueueRoom.capacity
        acceptor.old (lane_at lane.old (Ledger.counted counter.old)) acceptor.new (lane_at lane.new (Ledger.counted counter.new)) result }
    ensures same_queues { queues lane.new.ports ≡ queues lane.old.ports }
{
    for _ in rt.forever() {
        // No number is left for one more (D-147).
        if lane.connected() == u64::MAX {
            return false;
        }
        let Some((reader, writer)) = acceptor.next(rt) else {
            return false;
        };
        let end = serve_next(lent, number, lane, counter, reader, writer, barrier);
        if is_overflow(&end) {
            return true;
        }
    }
    unreachable!()
}

/// Whether the connection ended because a count would have passed 2^64-1.
fn is_overflow(end: &ServeEnd) -> bool
    ensures { result ≡ is_overflow end.now }
{
    match end {
        ServeEnd::CounterOverflow => true,
        _ => false,
    }
}

/// Serves one connection.
fn serve_next<
    'l,
    'r,
    Reader: Source + Drop,
    Writer: Write + Drop,
    QueueRoom: Room,
    Ledger: Counter,
    Observer: Barrier,
    Mark: HasStopMark,
    Time: MomentClock,
    Runtime: Wait + Clock,
>(
    lent: &Lent<'l, Mark, Time>,
    number: u16,
    lane: &mut Lane<SenderPort<'r, Item, QueueRoom, Runtime>>,
    counter: &mut Ledger,
    reader: Reader,
    writer: Writer,
    barrier: &Observer,
) -> ServeEnd
    requires { lane.old.connected < 2 ^ 64 - 1 }
    ensures served { ServedOne QueueRoom.capacity (connection (Reader.given reader) (Writer.contents writer)) (lane_at lane.old (Ledger.counted counter.old)) (lane_at lane.new (Ledger.counted counter.new)) result }
    ensures same_queues { queues lane.new.ports ≡ queues lane.old.ports }
{
    let mut reader = reader;
    let mut writer = writer;
    let ordinal = lane.connected();
    barrier.reach(ThreadPlace::Connected {
        lane: number,
        ordinal,
    });
    let end = serve(lent, lane, counter, &mut reader, &mut writer);
    barrier.reach(ThreadPlace::Served {
        lane: number,
        ordinal,
    });
    end
}
