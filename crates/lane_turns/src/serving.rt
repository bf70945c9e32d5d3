//! The loop of a lane over all its connections.
ghost use Rattle.std.specs.Prelude.{◌≡◌, ◌<◌, ◌≤◌, [], ℕ, Bool, List, None, IfSome, IsTrue, false, length};
ghost use Rattle.slab.specs.Slab.{get, ContainsKey};
ghost use Rattle.http_lane.specs.Intake.{Submits};
ghost use Rattle.http_lane.specs.Connection.{in_head};
ghost use Rattle.http_lane.specs.Requests.{Awaits};
ghost use Rattle.http_lane.specs.Telling.{AreHeard};
ghost use Rattle.lane_turns.specs.Acts.{lane_now, GoesOn, AllAwait, ServesTurns, TellsActs, acts_taken, is_full_done, is_full_end};
ghost use Rattle.lane_turns.specs.Driven.{AsTold, TellsTurn, IsDriven};
ghost use Rattle.lane_turns.specs.Driving.{FitsNext};
ghost use Rattle.lane_turns.specs.declared.serving.Next.{Next};
ghost use Rattle.lane_turns.specs.declared.serving.Next.TheVariants.{End};
ghost use Rattle.lane_turns.specs.declared.serving.Done.{Done};
ghost use Rattle.http_text.specs.declared.allowed.Allowed.{Allowed};

use crate::table::{Leaving, came, dismiss, leave, take, waited};
use drop_ledger::Counter;
use http_lane::{
    Arrived, Clock as Moments, Exchange, HasStopMark, Lent, PIECE_LIMIT, Requests, RequestsTold,
    ServeEnd,
};
use http_text::Allowed;
use lane_queue::Port;
use lane_seq::Lane;
use otlp_types::Item;
use slab::Slab;
use std::sync::Wait;
use std::time::Clock;

/// What a lane is to do next.
#[derive(Clone, Copy, PartialEq, Eq)]
pub enum Next {
    /// To take a connection.
    Take,
    /// `len` bytes came on the connection at this key.
    Came { key: usize, len: usize },
    /// To look at how long the connection at this key has waited.
    Look { key: usize },
    /// The connection at this key leaves.
    Leave { key: usize, how: Leaving },
    /// The connection at this key ends, if no request is under way on it.
    Dismiss { key: usize },
    /// To end.
    End,
}

/// What became of it.
#[derive(Clone, Copy, PartialEq, Eq)]
pub enum Done {
    /// The connection that was taken has this key; `None`: it can't be taken.
    Took(Option<usize>),
    /// The connection at this key had a turn, and ends so, if it does. Else it is to be looked at by this moment, and
    /// is idle where no request is under way.
    Turned {
        key: usize,
        end: Option<ServeEnd>,
        due: u64,
        is_idle: bool,
    },
    /// There is no connection at the key.
    Nothing,
}

/// What finds out which connections are ready, and when, and sends what is answered.
pub trait Driver {
    /// What one call of `next` does: the driver before it, what it said, with its moment and the bytes of the piece
    /// then, and the driver after it.
    ghost asks: { Self → Next → ℕ → List ℕ → Self → Type 0 };

    /// What one call of `done` does: the driver before it, what it was told of what it had said, with what is to be
    /// sent, and the driver after it.
    ghost hears: { Self → Done → List ℕ → Self → Type 0 };

    /// What is to be done next, and its moment in milliseconds. Bytes that came lie at the front of the piece. It may
    /// wait.
    fn next<R: Wait + Clock>(&mut self, rt: &R, piece: &mut [u8]) -> (Next, u64)
        requires { 0 < length piece.old }
        ensures fits { FitsNext result.0 (length piece.old) }
        ensures said { asks self.old result.0 result.1 piece.new self.new };

    /// What became of it, and what is to be sent on that connection.
    fn done(&mut self, done: Done, text: &[u8])
        ensures { hears self.old done text.now self.new };
}

/// Does what is to be done next. The text is then what is to be sent.
fn turn<'l, ShardPort: Port<Item>, Ledger: Counter, Mark: HasStopMark, Time: Moments>(
    lent: &Lent<'l, Mark, Time>,
    allowed: Allowed,
    next: Next,
    moment: u64,
    piece: &[u8],
    told: &mut RequestsTold,
    table: &mut Slab<Exchange>,
    spare: &mut Option<Requests>,
    lane: &mut Lane<ShardPort>,
    counts: &mut Ledger,
    text: &mut Vec<u8>,
) -> Done
    requires piece { length piece.now ≡ PIECE_LIMIT }
    requires next { FitsNext next PIECE_LIMIT }
    requires at { AllAwait allowed (get table.old) }
    requires spare { IfSome spare.old (λ engine. Awaits engine (in_head allowed [])) }
    ensures fits { GoesOn (Submits ShardPort.takes ShardPort.refuses) allowed (get table.old) (lane_now lane.old (Ledger.counted counts.old)) (get table.new) (lane_now lane.new (Ledger.counted counts.new)) (is_full_done result)
        (λ earlier more. AsTold allowed (get table.old) (get table.new) earlier next moment piece.now result text.new.items more × TellsActs (Time.heard lent.now.clock.now) told.old told.new lane.old.number more) }
    ensures spare { IfSome spare.new (λ engine. Awaits engine (in_head allowed [])) }
{
    text.clear();
    // No promise rests on what a driver says (D-170), so a key may be that of no connection.
    match next {
        Next::Take => Done::Took(take(table, lane, counts, moment)),
        Next::Came { key, len } => {
            if !table.contains(key) {
                return Done::Nothing;
            }
            let arrived = Arrived {
                piece: &piece[..len],
                moment,
                allowed,
            };
            let end = came(lent, told, table, key, spare, lane, counts, text, arrived);
            turned(table, key, end)
        }
        Next::Look { key } => {
            if !table.contains(key) {
                return Done::Nothing;
            }
            let end = waited(lent, table, key, lane, counts, text, moment);
            turned(table, key, end)
        }
        Next::Leave { key, how } => {
            if !table.contains(key) {
                return Done::Nothing;
            }
            let end = leave(table, key, lane, counts, how, moment);
            turned(table, key, Some(end))
        }
        Next::Dismiss { key } => {
            let end = dismiss(table, key, lane, counts, moment);
            turned(table, key, end)
        }
        Next::End => Done::Nothing,
    }
}

/// What became of the connection at this key.
fn turned(table: &Slab<Exchange>, key: usize, end: Option<ServeEnd>) -> Done
    ensures full { is_full_done result ≡ is_full_end end }
    ensures tells { (allowed : Allowed) → AllAwait allowed (get table.now) → TellsTurn (get table.now) key end result }
{
    let (due, is_idle) = match table.get(key) {
        Some(exchange) => (exchange.due(), exchange.is_between()),
        None => (0, false),
    };
    Done::Turned {
        key,
        end,
        due,
        is_idle,
    }
}

/// Whether the driver says to end, and no connection is open.
fn is_over(next: Next, table: &Slab<Exchange>) -> bool
    ensures over { IsTrue result → (next ≡ End) × ((key : ℕ) → get table.now key ≡ None) }
    ensures goes_on { result ≡ false → next ≡ End → (key : ℕ) × ContainsKey table.now key }
{
    // A driver that says `End` while a connection is open is told `Nothing`, and asked again.
    matches!(next, Next::End) && table.is_empty()
}

/// Whether a connection ended because a count would have passed 2^64-1.
fn is_full(done: &Done) -> bool
    ensures { result ≡ is_full_done done.now }
{
    matches!(
        done,
        Done::Turned {
            end: Some(ServeEnd::CounterOverflow),
            ..
        }
    )
}

/// Serves connections as the driver says, until it says to end and none is open. It ends at once where a count would
/// have passed 2^64-1, and says whether it did. `allowed`: what is allowed to clients.
pub fn serve_turns<
    'l,
    Poller: Driver,
    ShardPort: Port<Item>,
    Ledger: Counter,
    Mark: HasStopMark,
    Time: Moments,
    Runtime: Wait + Clock,
>(
    rt: &Runtime,
    lent: &Lent<'l, Mark, Time>,
    allowed: Allowed,
    driver: &mut Poller,
    lane: &mut Lane<ShardPort>,
    counts: &mut Ledger,
) -> bool
    ensures served { ServesTurns (Submits ShardPort.takes ShardPort.refuses) allowed (lane_now lane.old (Ledger.counted counts.old)) (lane_now lane.new (Ledger.counted counts.new)) result }
    ensures driven { IsDriven Poller.asks Poller.hears (Submits ShardPort.takes ShardPort.refuses) allowed driver.old (lane_now lane.old (Ledger.counted counts.old)) driver.new (lane_now lane.new (Ledger.counted counts.new)) result }
    // Its clock was told of the requests that were taken, in the order in which they were received.
    ensures told { (served : ServesTurns (Submits ShardPort.takes ShardPort.refuses) allowed (lane_now lane.old (Ledger.counted counts.old)) (lane_now lane.new (Ledger.counted counts.new)) result)
        × AreHeard (Time.heard lent.now.clock.now) 0 (acts_taken lane.old.number served.acts) }
{
    let mut table = Slab::new(lent.alloc);
    // The engine that the last whole request left, for whichever connection begins the next one.
    let mut spare = None;
    let mut told = RequestsTold::new();
    let mut piece = [0; PIECE_LIMIT];
    let mut text = Vec::new(lent.alloc);
    for _ in rt.forever() {
        let (next, moment) = driver.next(rt, &mut piece);
        if is_over(next, &table) {
            return false;
        }
        let done = turn(
            lent, allowed, next, moment, &piece, &mut told, &mut table, &mut spare, lane, counts,
            &mut text,
        );
        driver.done(done, &text);
        if is_full(&done) {
            return true;
        }
    }
    unreachable!()
}
