//! One turn of one of many connections.
ghost use Rattle.std.specs.Prelude.{◌≡◌, ◌≢◌, ◌<◌, ◌≤◌, [], ℕ, Bool, Option, Some, None, IfSome, length, false, IsTrue};
ghost use Rattle.std.specs.Io.KnownBytes.{Appends};
ghost use Rattle.slab.specs.Slab.{get, ContainsKey};
ghost use Rattle.http_lane.specs.Intake.{Submits};
ghost use Rattle.http_lane.specs.Connection.{in_head, is_between};
ghost use Rattle.http_lane.specs.Requests.{Awaits};
ghost use Rattle.http_lane.specs.Turns.{Waiting, AwaitsBy, IsTaken, nothing};
ghost use Rattle.lane_turns.specs.Acts.{lane_now, GoesOn, is_full_end, TakesNone, TellsActs};
ghost use Rattle.lane_turns.specs.Driven.{AnyOne, TurnAt, TakesOne, Dismisses, coming_of};
ghost use Rattle.http_text.specs.declared.allowed.Allowed.{Allowed};

use drop_ledger::Counter;
use http_lane::{
    Arrived, Clock, Exchange, HasStopMark, Lent, PIECE_LIMIT, Requests, RequestsTold, ServeEnd,
};
use http_text::Allowed;
use lane_queue::Port;
use lane_seq::Lane;
use otlp_types::Item;
use slab::Slab;
use std::io::Write;

/// The connection at this key has a turn that brought bytes. Where that ends it, it is open no more.
pub(crate) fn came<
    'l,
    'p,
    ShardPort: Port<Item>,
    Ledger: Counter,
    Writer: Write,
    Mark: HasStopMark,
    Time: Clock,
>(
    lent: &Lent<'l, Mark, Time>,
    told: &mut RequestsTold,
    open: &mut Slab<Exchange>,
    key: usize,
    spare: &mut Option<Requests>,
    lane: &mut Lane<ShardPort>,
    counts: &mut Ledger,
    writer: &mut Writer,
    arrived: Arrived<'p>,
) -> Option<ServeEnd>
    requires piece { (0 < length arrived.piece.now) × (length arrived.piece.now ≤ PIECE_LIMIT) }
    requires open { ContainsKey «open».old key }
    requires at { (x : Exchange) → get «open».old key ≡ Some x → (w : Waiting) × AwaitsBy arrived.allowed Awaits x.engine w.reading }
    requires spare { IfSome spare.old (λ engine. Awaits engine (in_head arrived.allowed [])) }
    ensures fits { GoesOn (Submits ShardPort.takes ShardPort.refuses) arrived.entry.allowed (get «open».old) (lane_now lane.old (Ledger.counted counts.old)) (get «open».new) (lane_now lane.new (Ledger.counted counts.new)) (is_full_end result)
        (λ earlier more. TurnAt arrived.entry.allowed (get «open».old) (get «open».new) key arrived.entry.moment AnyOne (IsTaken arrived.entry.piece.now) (Appends (Writer.contents writer.old) (Writer.contents writer.new)) result earlier more
        × TellsActs (Time.heard lent.now.clock.now) told.old told.new lane.old.number more) }
    ensures others { (other : ℕ) → other ≢ key → get «open».new other ≡ get «open».old other }
    ensures spare { IfSome spare.new (λ engine. Awaits engine (in_head arrived.entry.allowed [])) }
{
    let mut exchange = open.remove(key);
    // It is out of the table meanwhile: what ends is gone, what doesn't goes back to the key that it left.
    let end = exchange.came(lent, told, spare, lane, counts, writer, arrived);
    if let Some(why) = end {
        return Some(why);
    }
    open.insert_reserved(exchange);
    None
}

/// What a connection leaves by.
#[derive(Clone, Copy, PartialEq, Eq)]
pub enum Leaving {
    /// Its input ended.
    Over,
    /// A read failed.
    ReadFailed,
    /// A write failed, or took nothing for too long.
    WriteFailed,
}

/// The connection at this key has a turn that brought nothing. Where that ends it, it is open no more.
pub(crate) fn waited<
    'l,
    ShardPort: Port<Item>,
    Ledger: Counter,
    Writer: Write,
    Mark: HasStopMark,
    Time: Clock,
>(
    lent: &Lent<'l, Mark, Time>,
    open: &mut Slab<Exchange>,
    key: usize,
    lane: &Lane<ShardPort>,
    counts: &Ledger,
    writer: &mut Writer,
    moment: u64,
) -> Option<ServeEnd>
    requires { ContainsKey «open».old key }
    ensures fits { (allowed : Allowed) → GoesOn (Submits ShardPort.takes ShardPort.refuses) allowed (get «open».old) (lane_now lane.now (Ledger.counted counts.now)) (get «open».new) (lane_now lane.now (Ledger.counted counts.now)) (is_full_end result)
        (λ earlier more. TurnAt allowed (get «open».old) (get «open».new) key moment AnyOne (λ coming. coming ≡ nothing) (Appends (Writer.contents writer.old) (Writer.contents writer.new)) result earlier more × TakesNone more) }
    ensures others { (other : ℕ) → other ≢ key → get «open».new other ≡ get «open».old other }
{
    let exchange = open.remove(key);
    let end = exchange.waited(lent, writer, moment);
    if let Some(why) = end {
        return Some(why);
    }
    open.insert_reserved(exchange);
    None
}

/// The connection at this key leaves.
pub fn leave<P: Port<Item>, C: Counter>(
    open: &mut Slab<Exchange>,
    key: usize,
    lane: &Lane<P>,
    counts: &C,
    how: Leaving,
    moment: u64,
) -> ServeEnd
    requires { ContainsKey «open».old key }
    ensures fits { (allowed : Allowed) → GoesOn (Submits P.takes P.refuses) allowed (get «open».old) (lane_now lane.now (C.counted counts.now)) (get «open».new) (lane_now lane.now (C.counted counts.now)) (is_full_end (Some result))
        (λ earlier more. TurnAt allowed (get «open».old) (get «open».new) key moment AnyOne (λ coming. coming ≡ coming_of how) (λ text. text ≡ []) (Some result) earlier more × TakesNone more) }
    ensures others { (other : ℕ) → other ≢ key → get «open».new other ≡ get «open».old other }
{
    let exchange = open.remove(key);
    match how {
        Leaving::Over => exchange.over(),
        Leaving::ReadFailed => ServeEnd::ReadFault,
        Leaving::WriteFailed => ServeEnd::WriteFault,
    }
}

/// The connection at this key ends, if there is one and no request is under way on it.
pub fn dismiss<P: Port<Item>, C: Counter>(
    open: &mut Slab<Exchange>,
    key: usize,
    lane: &Lane<P>,
    counts: &C,
    moment: u64,
) -> Option<ServeEnd>
    ensures fits { (allowed : Allowed) → GoesOn (Submits P.takes P.refuses) allowed (get «open».old) (lane_now lane.now (C.counted counts.now)) (get «open».new) (lane_now lane.now (C.counted counts.now)) (is_full_end result)
        (λ earlier more. Dismisses allowed (get «open».old) (get «open».new) key moment result earlier more × TakesNone more) }
    ensures others { (other : ℕ) → other ≢ key → get «open».new other ≡ get «open».old other }
{
    if !is_idle(open, key) {
        return None;
    }
    open.remove(key);
    Some(ServeEnd::Quiet)
}

/// Whether there is a connection at this key on which no request is under way.
fn is_idle(open: &Slab<Exchange>, key: usize) -> bool
    ensures there { IsTrue result → ContainsKey «open».now key }
    ensures idle { (x : Exchange) → get «open».now key ≡ Some x → (allowed : Allowed) (w : Waiting) → AwaitsBy allowed Awaits x.engine w.reading → result ≡ is_between w.reading }
{
    match open.get(key) {
        Some(exchange) => exchange.is_between(),
        None => false,
    }
}

/// A connection is taken. `None`: there is no memory for it, or no number.
pub fn take<P: Port<Item>, C: Counter>(
    open: &mut Slab<Exchange>,
    lane: &mut Lane<P>,
    counts: &C,
    moment: u64,
) -> Option<usize>
    ensures fits { (allowed : Allowed) → GoesOn (Submits P.takes P.refuses) allowed (get «open».old) (lane_now lane.old (C.counted counts.now)) (get «open».new) (lane_now lane.new (C.counted counts.now)) false
        (λ earlier. TakesOne (get «open».old) (get «open».new) moment result) }
{
    // Each has a number of its own among its lane's, of 64 bits, and none is left.
    if lane.connected() == u64::MAX {
        return None;
    }
    // Before it gets its number, so that nothing has changed where memory is refused.
    let Ok(()) = open.reserve(1) else {
        return None;
    };
    let exchange = Exchange::new(lane.connect(), moment);
    Some(open.insert_reserved(exchange))
}
