//! A lane of the world, and what it does with the spans that it receives.
ghost use Rattle.std.specs.Prelude.{◌≡◌, ◌+◌, ◌<◌, ◌^◌, ◌++◌, ◌∷◌, [], length, true, not, filter, count_by, position, slice_index_or, IfOk, OnOk, OnErr};
ghost use Rattle.std.specs.List.{remove, list_any};
ghost use Rattle.std.specs.Coded.{codes};
ghost use Rattle.otlp_types.specs.contracts.value.AnyValue as any_value;
ghost use Rattle.journal_theory.specs.Fate.{counts};
ghost use Rattle.span_ids.specs.declared.outcome.Reason.TheVariants.{InvalidId};
ghost use Rattle.span_ids.specs.Route.{shard_of};
ghost use Rattle.world_theory.specs.World.{CoreLane as LaneData, new_lane, goes_to};
ghost use Rattle.world_theory.specs.Step.{is_of_conn, arrivals, has_ids};

use otlp_types::{Arrival, Record, TryClone};
use shard_journal::DroppedSpan;
use span_ids::{ArrivalKey, ConnKey, Moment, Reason, TraceId};
use std::alloc::{AllocError, Global};
use std::marker::Model;

/// A lane: what it has received, what of that is still to be routed, and whether it receives no more.
#[derive(Drop)]
pub struct CoreLane {
    received: Vec<Arrival>,
    unrouted: Vec<Arrival>,
    ended: bool,
}

impl Model for CoreLane {
    ghost Value = { LaneData };

    ghost coded = { Prim.hlevel (codes, any_value.the_row.coded) };

    ghost view = { λ l. record { received = l.received.items; unrouted = l.unrouted.items; ended = l.ended } };
}

/// What a request's records become: the arrivals, those of them to be routed, and those to be counted.
#[derive(Drop)]
struct Received {
    new: Vec<Arrival>,
    routable: Vec<Arrival>,
    dropped: Vec<DroppedSpan>,
}

impl CoreLane {
    /// A lane that has received nothing.
    pub fn new(alloc: Global) -> CoreLane
        ensures { result ≡ new_lane }
    {
        CoreLane {
            received: Vec::new(alloc),
            unrouted: Vec::new(alloc),
            ended: false,
        }
    }

    /// Whether it receives no more.
    pub fn has_ended(&self) -> bool
        ensures { result ≡ self.now.ended }
    {
        self.ended
    }

    /// It receives no more.
    pub fn end(&mut self)
        ensures { self.new ≡ record self.old { ended = true } }
    {
        self.ended = true;
    }

    /// Receives the records of a request on a connection: those without ids are counted, the others wait to be routed.
    /// Where memory is refused nothing changes.
    pub fn receive(
        &mut self,
        alloc: Global,
        conn: ConnKey,
        moment: Moment,
        records: Vec<Record>,
        counted: &mut Vec<DroppedSpan>,
    ) -> Result<(), AllocError>
        ensures lane { let new = arrivals conn (count_by (is_of_conn conn) self.old.received) moment records.items in OnOk result (self.new ≡ record self.old { received = self.old.received ++ new; unrouted = self.old.unrouted ++ filter has_ids new }) }
        ensures counted { let new = arrivals conn (count_by (is_of_conn conn) self.old.received) moment records.items in OnOk result (counted.new.items ≡ counted.old.items ++ counts InvalidId (filter (λ a. not (has_ids a)) new)) }
        ensures err { OnErr result ((self.new ≡ self.old) × (counted.new.items ≡ counted.old.items)) }
    {
        let first = self.make_room(conn, records.len())?;
        let mut received = Received::of(alloc, conn, first, moment, records)?;
        counted.try_reserve(received.dropped.len())?;
        self.keep(received.new, received.routable)?;
        let _ = counted.append(&mut received.dropped);
        Ok(())
    }

    /// Makes room for so many more spans, and answers the number of the first of them on this connection.
    fn make_room(&mut self, conn: ConnKey, more: usize) -> Result<u64, AllocError>
        ensures unchanged { self.new ≡ self.old }
        ensures number { IfOk result (λ n. n ≡ count_by (is_of_conn conn) self.old.received) }
        ensures fits { IfOk result (λ n. n + more < 2 ^ 64) }
    {
        self.received.try_reserve(more)?;
        let number = self.received.iter().filter(|a| is_of_conn(conn, a)).count();
        Ok(number as u64)
    }

    /// Keeps what was received. Where memory is refused nothing changes.
    fn keep(&mut self, mut new: Vec<Arrival>, mut routable: Vec<Arrival>) -> Result<(), AllocError>
        ensures ok { OnOk result (self.new ≡ record self.old { received = self.old.received ++ new.items; unrouted = self.old.unrouted ++ routable.items }) }
        ensures err { OnErr result (self.new ≡ self.old) }
    {
        self.received.try_reserve(new.len())?;
        self.unrouted.append(&mut routable)?;
        let _ = self.received.append(&mut new);
        Ok(())
    }

    /// The place of the first unrouted span for this of so many shards.
    pub fn next_for(&self, shard: usize, shards: usize) -> Option<usize>
        requires { 0 < shards }
        ensures { result ≡ position (goes_to shards shard) self.now.unrouted }
    {
        self.unrouted.iter().position(|a| goes_to(shards, shard, a))
    }

    /// Whether some unrouted span goes to this of so many shards.
    pub fn has_for(&self, shard: usize, shards: usize) -> bool
        requires { 0 < shards }
        ensures { result ≡ list_any (goes_to shards shard) self.now.unrouted }
    {
        self.unrouted.iter().any(|a| goes_to(shards, shard, a))
    }

    /// The unrouted span at this place, taken out.
    pub fn take_out(&mut self, place: usize) -> Arrival
        requires { place < length self.old.unrouted }
        ensures span { result ≡ slice_index_or self.old.unrouted place result }
        ensures rest { self.new ≡ record self.old { unrouted = remove self.old.unrouted place } }
    {
        self.unrouted.remove(place)
    }
}

/// Whether the arrival came on this connection.
fn is_of_conn(conn: ConnKey, arrival: &Arrival) -> bool
    ensures { result ≡ is_of_conn conn arrival.now }
{
    arrival.key.conn.lane == conn.lane && arrival.key.conn.ordinal == conn.ordinal
}

/// Whether the arrival's ids are valid and its trace goes to this of so many shards.
pub fn goes_to(shards: usize, shard: usize, arrival: &Arrival) -> bool
    requires { 0 < shards }
    ensures { result ≡ goes_to shards shard arrival.now }
{
    match arrival.rec.span.get().ids {
        None => false,
        Some(ids) => shard_of(ids.trace, shards) == shard,
    }
}

/// The shard of a trace, of so many: the last 8 bytes of its id read big-endian, modulo the number of shards.
fn shard_of(trace: TraceId, shards: usize) -> usize
    requires { 0 < shards }
    ensures { result ≡ shard_of trace shards }
{
    let b = trace.bytes();
    let last = u64::from_be_bytes([b[8], b[9], b[10], b[11], b[12], b[13], b[14], b[15]]);
    last as usize % shards
}

/// The arrivals of these records on a connection, whose first has this number.
#[tactic(auto, using(world_theory::proofs::Arriving::arrivals_append))]
fn arrivals(
    alloc: Global,
    conn: ConnKey,
    first: u64,
    moment: Moment,
    records: Vec<Record>,
) -> Result<Vec<Arrival>, AllocError>
    requires { first + length records.items < 2 ^ 64 }
    ensures { IfOk result (λ new. new.items ≡ arrivals conn first moment records.items) }
{
    let mut new = Vec::with_capacity(alloc, records.len())?;
    let mut number = first;
    for rec in records {
        let key = ArrivalKey { conn, number };
        new.push(Arrival { key, moment, rec })?;
        number += 1;
    }
    Ok(new)
}

/// Those of the arrivals that are to be routed.
fn routable(alloc: Global, new: &[Arrival]) -> Result<Vec<Arrival>, AllocError>
    ensures { IfOk result (λ routable. routable.items ≡ filter has_ids new.now) }
{
    let mut routable = Vec::new(alloc);
    for arrival in new {
        if arrival.rec.span.get().ids.is_some() {
            routable.push(arrival.try_clone(alloc)?)?;
        }
    }
    Ok(routable)
}

/// Those of the arrivals that are to be counted.
fn without_ids(alloc: Global, new: &[Arrival]) -> Result<Vec<DroppedSpan>, AllocError>
    ensures { IfOk result (λ keys. keys.items ≡ counts InvalidId (filter (λ a. not (has_ids a)) new.now)) }
{
    let mut keys = Vec::new(alloc);
    for arrival in new {
        if arrival.rec.span.get().ids.is_none() {
            keys.push(dropped(Reason::InvalidId, arrival))?;
        }
    }
    Ok(keys)
}

/// A span as it is counted under a reason.
pub fn dropped(reason: Reason, span: &Arrival) -> DroppedSpan
    ensures { result ≡ record { reason = reason; key = span.now.key } }
{
    DroppedSpan {
        reason,
        key: span.key,
    }
}

impl Received {
    /// What these records become on a connection, where their first has this number.
    fn of(
        alloc: Global,
        conn: ConnKey,
        first: u64,
        moment: Moment,
        records: Vec<Record>,
    ) -> Result<Received, AllocError>
        requires { first + length records.items < 2 ^ 64 }
        ensures new { IfOk result (λ r. r.new.items ≡ arrivals conn first moment records.items) }
        ensures routable { IfOk result (λ r. r.routable.items ≡ filter has_ids r.new.items) }
        ensures dropped { IfOk result (λ r. r.dropped.items ≡ counts InvalidId (filter (λ a. not (has_ids a)) r.new.items)) }
    {
        let new = arrivals(alloc, conn, first, moment, records)?;
        let routable = routable(alloc, &new)?;
        let dropped = without_ids(alloc, &new)?;
        Ok(Received {
            new,
            routable,
            dropped,
        })
    }
}
