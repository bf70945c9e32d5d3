//! One turn of a connection among many.
ghost use Rattle.std.specs.Prelude.{◌≡◌, ◌+◌, ◌<◌, ◌≤◌, [], ℕ, List, Option, None, Bool, false, IfSome, IfNone, length, nat_le, ◌||◌, if◌then◌else◌};
ghost use Rattle.http_lane.specs.Intake.{Submits, intake};
ghost use Rattle.http_lane.specs.Telling.{TellsTaken};
ghost use Rattle.std.specs.Io.KnownBytes.{Appends};
ghost use Rattle.http_lane.specs.Connection.{RequestReading, ConnectionEvent, in_head, is_between, encoding_in, grown, Writes, submissions};
ghost use Rattle.http_lane.specs.declared.answer.ServeEnd.TheVariants.{Closed, Cut};
ghost use Rattle.http_lane.specs.Engine.{Does, IsAtRest, Settled};
ghost use Rattle.http_lane.specs.Requests.{Awaits};
ghost use Rattle.http_lane.specs.Turns.{Waiting, waiting, AwaitsBy, Coming, IsTaken, IsTurnBy, nothing};
ghost use Rattle.http_text.specs.declared.allowed.Allowed.{Allowed};

use crate::answer::{REQUEST_LIMIT, ServeEnd};
use crate::engine::Engine;
use crate::lent::{Clock, HasStopMark, Lent};
use crate::reads::PIECE_LIMIT;
use crate::requests::Requests;
use crate::serving::{is_over, lapse, settle};
use crate::told::RequestsTold;
use drop_ledger::Counter;
use http_text::Allowed;
use lane_queue::Port;
use lane_seq::{Conn, Lane};
use otlp_encoding::Encoding;
use otlp_types::Item;
use std::alloc::Global;
use std::io::Write;

/// The time without a byte that ends a connection between requests, in milliseconds (D-171).
pub const IDLE_LIMIT: u64 = 60_000;

/// A connection between two turns. It has a buffer only while a request is under way.
#[derive(Drop)]
pub struct Exchange {
    /// What reads the request under way; `None`: no byte of one has come.
    pub engine: Option<Requests>,
    /// Its number on its lane, and that of its next span.
    pub conn: Conn,
    /// The moment of the first byte of the request under way, or between requests that of the last answer.
    pub since: u64,
}

/// Bytes that came on a connection, the moment, in milliseconds, and what is allowed to its client.
#[derive(Drop)]
pub struct Arrived<'p> {
    pub piece: &'p [u8],
    pub moment: u64,
    pub allowed: Allowed,
}

impl Exchange {
    /// A connection that came at this moment.
    pub fn new(conn: Conn, moment: u64) -> Self
        ensures { result ≡ record { engine = None; conn = conn; since = moment } }
    {
        Exchange {
            engine: None,
            conn,
            since: moment,
        }
    }

    /// Whether no byte of a request has come.
    pub fn is_between(&self) -> bool
        ensures { (allowed : Allowed) (w : Waiting) → AwaitsBy allowed Awaits self.now.engine w.reading → result ≡ is_between w.reading }
    {
        self.engine.is_none()
    }

    /// What the answer to the request under way is written in.
    fn encoding(&self) -> Encoding
        ensures { (allowed : Allowed) (w : Waiting) → AwaitsBy allowed Awaits self.now.engine w.reading → result ≡ encoding_in w.reading }
    {
        match &self.engine {
            Some(engine) => engine.encoding(),
            None => Encoding::Json,
        }
    }

    /// A turn that brought bytes. What is allowed to the client is the same at each turn.
    pub fn came<
        'l,
        'p,
        ShardPort: Port<Item>,
        Ledger: Counter,
        Writer: Write,
        Mark: HasStopMark,
        Time: Clock,
    >(
        &mut self,
        lent: &Lent<'l, Mark, Time>,
        told: &mut RequestsTold,
        spare: &mut Option<Requests>,
        lane: &mut Lane<ShardPort>,
        counts: &mut Ledger,
        writer: &mut Writer,
        arrived: Arrived<'p>,
    ) -> Option<ServeEnd>
        requires piece { (0 < length arrived.piece.now) × (length arrived.piece.now ≤ PIECE_LIMIT) }
        requires at { (w : Waiting) × AwaitsBy arrived.allowed Awaits self.old.engine w.reading }
        requires spare { IfSome spare.old (λ engine. Awaits engine (in_head arrived.allowed [])) }
        ensures turn { (w : Waiting) → AwaitsBy arrived.entry.allowed Awaits self.old.engine w.reading → self.old.since ≡ w.since
            → (coming : Coming) × (events : List ConnectionEvent) × (next : Waiting) × IsTaken arrived.entry.piece.now coming × IsTurnBy coming w arrived.entry.moment false events next × (next.end ≡ result)
            × (result ≡ None → AwaitsBy arrived.entry.allowed Awaits self.new.engine next.reading × (self.new.since ≡ next.since))
            × Does (Submits ShardPort.takes ShardPort.refuses) (Writer.contents writer.old) (Writer.contents writer.new) (intake lane.old self.old.conn (Ledger.counted counts.old)) (intake lane.new self.new.conn (Ledger.counted counts.new)) events
            × TellsTaken (Time.heard lent.now.clock.now) told.old told.new self.old.conn.key self.new.conn.key (submissions events) }
        ensures spare { IfSome spare.new (λ engine. Awaits engine (in_head arrived.entry.allowed [])) }
    {
        let Arrived {
            piece,
            moment,
            allowed,
        } = arrived;
        let begins = self.is_between();
        let Some(mut engine) = taken(lent.alloc, allowed, &mut self.engine, spare) else {
            return Some(ServeEnd::NoMemory);
        };
        let (end, answered) = come(
            lent,
            &mut engine,
            told,
            lane,
            &mut self.conn,
            counts,
            writer,
            piece,
        );
        if let Some(why) = end {
            return Some(why);
        }
        let is_between = engine.is_between();
        self.since = since_after(is_between, begins, answered, self.since, moment);
        if is_between {
            *spare = kept(engine);
            return None;
        }
        self.engine = Some(engine);
        None
    }

    /// A turn that brought nothing.
    pub fn waited<'l, W: Write, S: HasStopMark, K>(
        &self,
        lent: &Lent<'l, S, K>,
        writer: &mut W,
        moment: u64,
    ) -> Option<ServeEnd>
        ensures turn { (allowed : Allowed) (w : Waiting) → AwaitsBy allowed Awaits self.now.engine w.reading → self.now.since ≡ w.since
            → (is_stopped : Bool) × (events : List ConnectionEvent) × IsTurnBy nothing w moment is_stopped events (waiting w.reading w.since result)
            × (bytes : List ℕ) × Appends (W.contents writer.old) (W.contents writer.new) bytes × Writes events bytes × (submissions events ≡ []) }
    {
        if self.is_between() {
            if lent.stop.is_set() {
                return Some(ServeEnd::Stopped);
            }
            if is_over(self.since, IDLE_LIMIT, moment) {
                return Some(ServeEnd::Quiet);
            }
            return None;
        }
        lapse(
            lent,
            self.encoding(),
            writer,
            self.since,
            REQUEST_LIMIT,
            moment,
        )
    }

    /// When it is to be looked at though nothing comes.
    pub fn due(&self) -> u64 {
        let limit = if self.is_between() {
            IDLE_LIMIT
        } else {
            REQUEST_LIMIT
        };
        self.since.saturating_add(limit)
    }

    /// How it ends at the end of its input.
    pub fn over(&self) -> ServeEnd
        ensures { (allowed : Allowed) (w : Waiting) → AwaitsBy allowed Awaits self.now.engine w.reading → result ≡ (if is_between w.reading then Closed else Cut) }
    {
        if self.is_between() {
            ServeEnd::Closed
        } else {
            ServeEnd::Cut
        }
    }
}

/// Since when a connection waits after bytes.
fn since_after(is_between: bool, begins: bool, answered: bool, since: u64, moment: u64) -> u64
    ensures { result ≡ (if is_between || (begins || answered) then moment else since) }
{
    if is_between || begins || answered {
        moment
    } else {
        since
    }
}

/// The engine of a connection: its own, or the spare one, or a new one. `None`: there is no memory for it.
fn taken(
    alloc: Global,
    allowed: Allowed,
    own: &mut Option<Requests>,
    spare: &mut Option<Requests>,
) -> Option<Requests>
    requires spare { IfSome spare.old (λ engine. Awaits engine (in_head allowed [])) }
    ensures own { IfSome result (λ engine. (r : RequestReading) → AwaitsBy allowed Awaits own.old r → Awaits engine r) }
    ensures none { IfNone result (own.old ≡ None) }
    ensures left { own.new ≡ None }
    ensures spare { IfSome spare.new (λ engine. Awaits engine (in_head allowed [])) }
{
    if let Some(engine) = own.take() {
        return Some(engine);
    }
    if let Some(engine) = spare.take() {
        return Some(engine);
    }
    Requests::new(alloc, allowed).ok()
}

/// An engine between requests, to be kept for the next one; `None`: it holds more memory than is kept.
fn kept(engine: Requests) -> Option<Requests>
    ensures { (r : RequestReading) → Awaits engine r → IfSome result (λ kept. Awaits kept r) }
{
    // What one large request took isn't held for as long as the lane lives (D-121).
    if engine.is_roomy() {
        return None;
    }
    Some(engine)
}

/// Bytes came to an engine that awaits them: all is done that they bring.
fn come<
    'l,
    Parser: Engine,
    ShardPort: Port<Item>,
    Ledger: Counter,
    Writer: Write,
    Mark: HasStopMark,
    Time: Clock,
>(
    lent: &Lent<'l, Mark, Time>,
    engine: &mut Parser,
    told: &mut RequestsTold,
    lane: &mut Lane<ShardPort>,
    conn: &mut Conn,
    counts: &mut Ledger,
    writer: &mut Writer,
    piece: &[u8],
) -> (Option<ServeEnd>, bool)
    requires rests { IsAtRest Parser.awaits engine.old }
    requires fits { length piece.now ≤ PIECE_LIMIT }
    ensures { (r : RequestReading) → Parser.awaits engine.old r → Settled Parser.awaits (Submits ShardPort.takes ShardPort.refuses) (TellsTaken (Time.heard lent.now.clock.now) told.old told.new conn.old.key conn.new.key) (Writer.contents writer.old) (Writer.contents writer.new) (intake lane.old conn.old (Ledger.counted counts.old)) (intake lane.new conn.new (Ledger.counted counts.new)) (grown r piece.now) result engine.new }
{
    engine.take(piece);
    settle(lent, engine, told, lane, conn, counts, writer)
}
