//! What the lanes' threads are given.
ghost use Rattle.std.specs.Prelude.{◌≡◌, ◌+◌, ◌++◌, ◌<◌, ◌≤◌, false, [], All, length, map, vec_len, vec_capacity, IfErr, IfOk};
ghost use Rattle.lane_queue.specs.Grid.{ends_of};
ghost use Rattle.pipeline.specs.Made.{NumberedFrom};

use crate::lane_job::LaneJob;
use crate::lent::ThreadContext;
use lane_queue::{Brake, Room, Sender, SenderPort};
use lane_seq::Lane;
use otlp_types::Item;
use std::alloc::{AllocError, Global};
use std::sync::Wait;

/// What the lanes' threads are given, and the list of the acceptors, which is empty and has room for them again.
#[derive(Drop)]
pub struct LaneJobs<'s, Server, QueueRoom: Room, Observer, Mark, Time, Runtime: Wait> {
    pub jobs: Vec<LaneJob<'s, Server, QueueRoom, Observer, Mark, Time, Runtime>>,
    pub acceptors: Vec<Server>,
}

/// What the lanes' threads are given: for each acceptor, in their order, a lane of its number over its ends.
/// `asks_again`: a request for whose spans a queue lacks room is to be sent again. One that comes while the
/// brake is on is in any case. `keeps_doubles`: the lanes keep doubles. Where there is no memory the acceptors come
/// back.
pub fn lane_jobs<'s, Server: Drop, QueueRoom: Room, Observer, Mark, Time, Runtime: Wait>(
    lent: &ThreadContext<'s, Observer, Mark, Time, Runtime>,
    asks_again: bool,
    keeps_doubles: bool,
    acceptors: Vec<Server>,
    columns: Vec<Vec<Sender<Item, QueueRoom>>>,
) -> Result<LaneJobs<'s, Server, QueueRoom, Observer, Mark, Time, Runtime>, Vec<Server>>
    requires few { vec_len acceptors < 65536 }
    requires columns { (vec_len columns ≡ vec_len acceptors) × All (λ c. 0 < length c.items) columns.items }
    ensures count { IfOk result (λ made. vec_len made.jobs ≡ vec_len acceptors) }
    ensures ready { IfOk result (λ made. All (λ job. (job.lane.number ≡ job.number) × (job.room.items ≡ []) × (length job.lane.ports ≤ vec_capacity job.room)) made.jobs.items) }
    ensures acceptors { IfOk result (λ made. map (λ job. job.acceptor) made.jobs.items ≡ acceptors.items) }
    ensures columns { IfOk result (λ made. map (λ job. job.lane.ports) made.jobs.items ≡ ends_of columns.items) }
    ensures numbers { IfOk result (λ made. NumberedFrom 0 (map (λ job. job.number) made.jobs.items)) }
    ensures new { IfOk result (λ made. All (λ job. (job.lane.connected ≡ 0) × (job.lane.keeps_doubles ≡ keeps_doubles)) made.jobs.items) }
    ensures room { IfOk result (λ made. (made.acceptors.items ≡ []) × (vec_len acceptors ≤ vec_capacity made.acceptors)) }
    ensures back { IfErr result (λ back. back.items ≡ acceptors.items) }
{
    let mut acceptors = acceptors;
    let mut columns = columns;
    let Ok(mut jobs) = Vec::with_capacity(lent.alloc, acceptors.len()) else {
        return Err(acceptors);
    };
    while let Some(senders) = columns.pop() {
        let Ok(lists) = lane_lists(lent.alloc, senders.len()) else {
            jobs.reverse();
            return Err(acceptors_of(jobs, acceptors));
        };
        // From the end, so that none is moved: its number is how many are left.
        let acceptor = acceptors.take_last();
        let number = acceptors.len() as u16;
        jobs.push_reserved(lane_job(
            lent,
            asks_again,
            keeps_doubles,
            number,
            acceptor,
            senders,
            lists,
        ));
    }
    jobs.reverse();
    Ok(LaneJobs { jobs, acceptors })
}

/// These acceptors, and then those of jobs that nobody began; the list has room for them.
pub fn acceptors_of<'s, Server: Drop, QueueRoom: Room, Observer, Mark, Time, Runtime: Wait>(
    jobs: Vec<LaneJob<'s, Server, QueueRoom, Observer, Mark, Time, Runtime>>,
    acceptors: Vec<Server>,
) -> Vec<Server>
    requires { vec_len acceptors + vec_len jobs ≤ vec_capacity acceptors }
    ensures { result.items ≡ acceptors.items ++ map (λ job. job.acceptor) jobs.entry.items }
{
    let mut acceptors = acceptors;
    for job in jobs {
        let LaneJob { acceptor, .. } = job;
        acceptors.push_reserved(acceptor);
    }
    acceptors
}

/// What a lane's thread is given; `lists` has room for its ports, and for their ends.
fn lane_job<'s, Server: Drop, QueueRoom: Room, Observer, Mark, Time, Runtime: Wait>(
    lent: &ThreadContext<'s, Observer, Mark, Time, Runtime>,
    asks_again: bool,
    keeps_doubles: bool,
    number: u16,
    acceptor: Server,
    senders: Vec<Sender<Item, QueueRoom>>,
    lists: LaneLists<'s, QueueRoom, Runtime>,
) -> LaneJob<'s, Server, QueueRoom, Observer, Mark, Time, Runtime>
    requires some { 0 < length senders.items }
    requires ports { (lists.ports.items ≡ []) × (length senders.items ≤ vec_capacity lists.ports) }
    requires room { (lists.room.items ≡ []) × (length senders.items ≤ vec_capacity lists.room) }
    ensures number { result.number ≡ number }
    ensures lane { result.lane ≡ record { number = number; connected = 0; ports = senders.items; keeps_doubles = keeps_doubles } }
    ensures room { (result.room.items ≡ []) × (length result.lane.ports ≤ vec_capacity result.room) }
    ensures acceptor { result.acceptor ≡ acceptor }
{
    let LaneLists { ports, room } = lists;
    LaneJob {
        rt: lent.rt,
        alloc: lent.alloc,
        number,
        acceptor,
        lane: lane_of(
            lent.rt,
            asks_again,
            Some(lent.brake),
            number,
            senders,
            ports,
        )
        .keeping_doubles(keeps_doubles),
        room,
        observer: lent.observer,
        stop: lent.stop,
        answers: lent.answers,
        clock: lent.clock,
    }
}

/// Room for a lane's ports, and for their ends once it has ended.
#[derive(Drop)]
struct LaneLists<'s, C: Room, R: Wait> {
    ports: Vec<SenderPort<'s, Item, C, R>>,
    room: Vec<Sender<Item, C>>,
}

/// Room for `count` ports, and for their ends.
fn lane_lists<'s, C: Room, R: Wait>(
    alloc: Global,
    count: usize,
) -> Result<LaneLists<'s, C, R>, AllocError>
    ensures ports { IfOk result (λ lists. (lists.ports.items ≡ []) × (count ≤ vec_capacity lists.ports)) }
    ensures room { IfOk result (λ lists. (lists.room.items ≡ []) × (count ≤ vec_capacity lists.room)) }
{
    Ok(LaneLists {
        ports: Vec::with_capacity(alloc, count)?,
        room: Vec::with_capacity(alloc, count)?,
    })
}

/// A lane over these ends, which discards doubles; `ports` has room for them.
fn lane_of<'s, C: Room, R: Wait>(
    rt: &'s R,
    asks_again: bool,
    brake: Option<&'s Brake>,
    number: u16,
    senders: Vec<Sender<Item, C>>,
    ports: Vec<SenderPort<'s, Item, C, R>>,
) -> Lane<SenderPort<'s, Item, C, R>>
    requires some { 0 < length senders.items }
    requires room { (ports.items ≡ []) × (length senders.items ≤ vec_capacity ports) }
    ensures { result ≡ record { number = number; connected = 0; ports = senders.items; keeps_doubles = false } }
{
    let mut ports = ports;
    for sender in senders {
        ports.push_reserved(SenderPort::new(rt, sender, brake));
    }
    // With a brake, too, it looks before a request's spans get numbers (D-173).
    Lane::new(number, ports).asking_again(asks_again || brake.is_some())
}
