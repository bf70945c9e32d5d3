//! The loop of a connection.
ghost use Rattle.std.specs.Prelude.{◌≡◌, ◌+◌, ◌⊎◌, [], ℕ, ◌<◌, ◌≤◌, List, ◌++◌, IsTrue, take, IfOk, Option, Some, Bool, false, true, ◌^◌, ◌-◌, nat_le, if◌then◌else◌, MatchBool};
ghost use Rattle.lane_seq.specs.Replies.{is_received};
ghost use Rattle.http_lane.specs.Intake.{Submits, intake, first_conn, connected};
ghost use Rattle.http_lane.specs.Telling.{TellsTaken, AreHeard, taken_of};
ghost use Rattle.lane_seq.specs.declared.preparing.Conn.{Conn};
ghost use Rattle.std.specs.Io.KnownBytes.{Appends};
ghost use Rattle.http_answer.specs.Answer.{text_of_answer};
ghost use Rattle.http_lane.specs.Connection.{RequestReading, IsTextOf};
ghost use Rattle.http_lane.specs.Engine.{Puts, Settled, SettledTo, Responds, Acts, IsOpenAfter, IsFateOfText, Lapses, Waits, Served, Sees};
ghost use Rattle.http_lane.specs.Connection.{end_with, ConnectionStanding, in_head, is_between, encoding_in, submissions, events_of};
ghost use Rattle.http_lane.specs.declared.answer.ServeEnd.TheVariants.{Closed, Cut};

use crate::answer::{
    Brought, EventFate, QUIET_LIMIT, READ_LIMIT, ReadTurn, SLOW_LIMIT, ServeEnd, unfit,
};
use crate::engine::Engine;
use crate::lent::{Clock, HasStopMark, Lent};
use crate::reads::{PIECE_LIMIT, Source};
use crate::requests::Requests;
use crate::told::RequestsTold;
use drop_ledger::Counter;
use http_answer::{Response, status_of, text_of};
use inflate::gunzip;
use lane_queue::Port;
use lane_seq::{Conn, Lane, Reply, count_reply};
use otlp_encoding::Encoding;
use otlp_types::Item;
use span_ids::ConnKey;
use std::io::Write;

/// Writes the whole text, unless a write fails.
fn write_text<W: Write>(writer: &mut W, text: &[u8]) -> EventFate
    ensures puts { Puts (W.contents writer.old) (W.contents writer.new) result text.now }
    ensures fate { IsFateOfText result }
{
    let mut at = 0;
    while at < text.len() {
        match writer.write(&text[at..]) {
            Ok(n) if n > 0 => at += n,
            _ => return EventFate::Unwritten,
        }
    }
    EventFate::Written
}

/// Writes an answer in an encoding, and counts it.
pub(crate) fn answer<'l, W: Write, S, K>(
    lent: &Lent<'l, S, K>,
    encoding: Encoding,
    writer: &mut W,
    answer: &Response,
) -> EventFate
    ensures puts { Puts (W.contents writer.old) (W.contents writer.new) result (text_of_answer encoding answer.now) }
    ensures fate { IsFateOfText result }
{
    let Ok(text) = text_of(lent.alloc, encoding, answer) else {
        return EventFate::Unmade;
    };
    let fate = write_text(writer, text.as_slice());
    if matches!(fate, EventFate::Written) {
        lent.answers.add(status_of(answer));
    }
    fate
}

/// How an event ends the connection.
pub(crate) fn end_with(fate: EventFate, closes: bool) -> Option<ServeEnd>
    ensures { result ≡ end_with fate closes }
{
    match fate {
        EventFate::Written if closes => Some(ServeEnd::Answered),
        EventFate::Written => None,
        EventFate::Uncounted => Some(ServeEnd::CounterOverflow),
        EventFate::Unmade => Some(ServeEnd::NoMemory),
        EventFate::Unwritten => Some(ServeEnd::WriteFault),
    }
}

/// Hands a text to the lane, counts its spans and answers.
fn submit<
    'l,
    ShardPort: Port<Item>,
    Ledger: Counter,
    Writer: Write,
    Mark: HasStopMark,
    Time: Clock,
>(
    lent: &Lent<'l, Mark, Time>,
    told: &mut RequestsTold,
    lane: &mut Lane<ShardPort>,
    conn: &mut Conn,
    counts: &mut Ledger,
    writer: &mut Writer,
    encoding: Encoding,
    text: &[u8],
    says_close: bool,
) -> (bool, EventFate)
    ensures responds { (limit : ℕ) (is_packed : Bool) (body : List ℕ) → IsTextOf limit is_packed body text.now → Responds (Submits ShardPort.takes ShardPort.refuses) (TellsTaken (Time.heard lent.now.clock.now) told.old told.new conn.old.key conn.new.key) (Writer.contents writer.old) (Writer.contents writer.new) (intake lane.old conn.old (Ledger.counted counts.old)) (intake lane.new conn.new (Ledger.counted counts.new)) encoding limit is_packed (Some body) says_close result }
    // Nothing is written to a client whose spans were received, and whose request isn't kept.
    ensures kept { result.1 ≡ EventFate.Written → (conn.new ≡ conn.old) ⊎ ((moment : ℕ) × Time.kept lent.now.clock.now conn.old.key moment encoding text.now) }
{
    let (connection, moment) = (conn.key, lent.clock.now());
    let reply = lane.submit(lent.alloc, conn, encoding, text, moment);
    if !count_reply(counts, &reply) {
        return (says_close, EventFate::Uncounted);
    }
    // Nobody is told 200 whose request isn't kept where it has to be: the connection ends, and the client sends it again.
    if !is_kept(lent, told, connection, moment, encoding, text, &reply) {
        return (says_close, EventFate::Unwritten);
    }
    let replied = Response::Replied {
        reply,
        closes: says_close,
    };
    (says_close, answer(lent, encoding, writer, &replied))
}

/// Tells of a request that was taken, and answers whether it may be answered.
fn is_kept<'l, Mark: HasStopMark, Time: Clock>(
    lent: &Lent<'l, Mark, Time>,
    told: &mut RequestsTold,
    connection: ConnKey,
    moment: u64,
    encoding: Encoding,
    text: &[u8],
    reply: &Reply,
) -> bool
    ensures kept { result ≡ true → is_received reply.now ≡ true → Time.kept lent.now.clock.now connection moment encoding text.now }
    ensures told { MatchBool (is_received reply.now) (Time.heard lent.now.clock.now told.old (record { connection = connection; moment = moment; encoding = encoding; text = text.now }) × (told.new ≡ told.old + 1)) (told.new ≡ told.old) }
{
    if reply.is_received() {
        return lent.clock.took(told, connection, moment, encoding, text);
    }
    true
}

/// Unpacks a body and serves its text, which may have at most `limit` bytes.
fn unpack<
    'l,
    ShardPort: Port<Item>,
    Ledger: Counter,
    Writer: Write,
    Mark: HasStopMark,
    Time: Clock,
>(
    lent: &Lent<'l, Mark, Time>,
    told: &mut RequestsTold,
    lane: &mut Lane<ShardPort>,
    conn: &mut Conn,
    counts: &mut Ledger,
    writer: &mut Writer,
    encoding: Encoding,
    body: &[u8],
    says_close: bool,
    limit: u32,
) -> (bool, EventFate)
    ensures { Responds (Submits ShardPort.takes ShardPort.refuses) (TellsTaken (Time.heard lent.now.clock.now) told.old told.new conn.old.key conn.new.key) (Writer.contents writer.old) (Writer.contents writer.new) (intake lane.old conn.old (Ledger.counted counts.old)) (intake lane.new conn.new (Ledger.counted counts.new)) encoding limit true (Some body.now) says_close result }
{
    // What gives no text closes the connection, as what can't be read by HTTP does (D-122).
    match gunzip(lent.alloc, body, limit as usize) {
        Ok(text) => submit(
            lent,
            told,
            lane,
            conn,
            counts,
            writer,
            encoding,
            text.as_slice(),
            says_close,
        ),
        Err(fault) => (true, answer(lent, encoding, writer, &unfit(fault))),
    }
}

/// Serves a body that was read whole, packed by gzip or not; `None`: there was no memory for it.
fn respond<
    'l,
    ShardPort: Port<Item>,
    Ledger: Counter,
    Writer: Write,
    Mark: HasStopMark,
    Time: Clock,
>(
    lent: &Lent<'l, Mark, Time>,
    told: &mut RequestsTold,
    lane: &mut Lane<ShardPort>,
    conn: &mut Conn,
    counts: &mut Ledger,
    writer: &mut Writer,
    encoding: Encoding,
    is_packed: bool,
    body: Option<&[u8]>,
    says_close: bool,
    limit: u32,
) -> (bool, EventFate)
    ensures { (given : Option (List ℕ)) → Sees body.entry given → Responds (Submits ShardPort.takes ShardPort.refuses) (TellsTaken (Time.heard lent.now.clock.now) told.old told.new conn.old.key conn.new.key) (Writer.contents writer.old) (Writer.contents writer.new) (intake lane.old conn.old (Ledger.counted counts.old)) (intake lane.new conn.new (Ledger.counted counts.new)) encoding limit is_packed given says_close result }
{
    let Some(body) = body else {
        return (true, answer(lent, encoding, writer, &Response::Starved));
    };
    // Asked once the body is whole, before it is unpacked and before the clock is asked (D-120, D-125).
    if lent.stop.is_set() {
        return (true, answer(lent, encoding, writer, &Response::Stopping));
    }
    if is_packed {
        return unpack(
            lent, told, lane, conn, counts, writer, encoding, body, says_close, limit,
        );
    }
    submit(
        lent, told, lane, conn, counts, writer, encoding, body, says_close,
    )
}

/// Does what the bytes bring next, if they bring anything. The last flag says whether a request was answered.
fn act<
    'l,
    Parser: Engine,
    ShardPort: Port<Item>,
    Ledger: Counter,
    Writer: Write,
    Mark: HasStopMark,
    Time: Clock,
>(
    lent: &Lent<'l, Mark, Time>,
    engine: &mut Parser,
    told: &mut RequestsTold,
    lane: &mut Lane<ShardPort>,
    conn: &mut Conn,
    counts: &mut Ledger,
    writer: &mut Writer,
) -> Option<(bool, EventFate, bool)>
    ensures acts { (r : RequestReading) → Parser.stands engine.old r → Acts Parser.stands Parser.awaits (Submits ShardPort.takes ShardPort.refuses) (TellsTaken (Time.heard lent.now.clock.now) told.old told.new conn.old.key conn.new.key) (Writer.contents writer.old) (Writer.contents writer.new) (intake lane.old conn.old (Ledger.counted counts.old)) (intake lane.new conn.new (Ledger.counted counts.new)) r result engine.new }
    ensures less { IsOpenAfter result → Parser.left engine.new < Parser.left engine.old }
{
    // Before `advance`: once a body is whole the engine awaits the next head, and has JSON again (D-112).
    let encoding = engine.encoding();
    match engine.advance() {
        Brought::Nothing => None,
        Brought::Refused { refusal, is_head } => {
            let refused = Response::Refused { refusal, is_head };
            Some((true, answer(lent, encoding, writer, &refused), true))
        }
        Brought::Close => {
            // Before the answer is made, so also where there is no memory for that (D-124).
            lent.stop.set();
            Some((
                true,
                answer(lent, encoding, writer, &Response::CloseAsked),
                true,
            ))
        }
        Brought::Accepted { awaited: true } => {
            Some((
                false,
                answer(lent, encoding, writer, &Response::Continue),
                false,
            ))
        }
        Brought::Accepted { awaited: false } => Some((false, EventFate::Written, false)),
        Brought::Whole {
            is_packed,
            says_close,
            limit,
        } => {
            let body = engine.body();
            let (closes, fate) = respond(
                lent, told, lane, conn, counts, writer, encoding, is_packed, body, says_close,
                limit,
            );
            Some((closes, fate, true))
        }
    }
}

/// Does all that the bytes bring, and says how the connection ends, if it does, and whether a request was answered.
pub(crate) fn settle<
    'l,
    Parser: Engine,
    ShardPort: Port<Item>,
    Ledger: Counter,
    Writer: Write,
    Mark: HasStopMark,
    Time: Clock,
>(
    lent: &Lent<'l, Mark, Time>,
    engine: &mut Parser,
    told: &mut RequestsTold,
    lane: &mut Lane<ShardPort>,
    conn: &mut Conn,
    counts: &mut Ledger,
    writer: &mut Writer,
) -> (Option<ServeEnd>, bool)
    ensures { (r : RequestReading) → Parser.stands engine.old r → Settled Parser.awaits (Submits ShardPort.takes ShardPort.refuses) (TellsTaken (Time.heard lent.now.clock.now) told.old told.new conn.old.key conn.new.key) (Writer.contents writer.old) (Writer.contents writer.new) (intake lane.old conn.old (Ledger.counted counts.old)) (intake lane.new conn.new (Ledger.counted counts.new)) r result engine.new }
{
    let mut answered = false;
    while let Some((closes, fate, answers)) = act(lent, engine, told, lane, conn, counts, writer) {
        answered = answered | answers;
        if let Some(end) = end_with(fate, closes) {
            return (Some(end), answered);
        }
    }
    (None, answered)
}

/// The same, where nobody asks whether a request was answered.
fn settle_to_end<
    'l,
    Parser: Engine,
    ShardPort: Port<Item>,
    Ledger: Counter,
    Writer: Write,
    Mark: HasStopMark,
    Time: Clock,
>(
    lent: &Lent<'l, Mark, Time>,
    engine: &mut Parser,
    told: &mut RequestsTold,
    lane: &mut Lane<ShardPort>,
    conn: &mut Conn,
    counts: &mut Ledger,
    writer: &mut Writer,
) -> Option<ServeEnd>
    ensures { (r : RequestReading) → Parser.stands engine.old r → SettledTo Parser.awaits (Submits ShardPort.takes ShardPort.refuses) (TellsTaken (Time.heard lent.now.clock.now) told.old told.new conn.old.key conn.new.key) (Writer.contents writer.old) (Writer.contents writer.new) (intake lane.old conn.old (Ledger.counted counts.old)) (intake lane.new conn.new (Ledger.counted counts.new)) r result engine.new }
{
    let (end, _) = settle(lent, engine, told, lane, conn, counts, writer);
    end
}

/// Whether `limit` has passed since a moment, in milliseconds or in quiet turns.
pub(crate) fn is_over(since: u64, limit: u64, now: u64) -> bool
    ensures { result ≡ nat_le (since + limit) now }
{
    // In 128 bits, since a moment and a limit may add up to more than 2^64-1.
    since as u128 + limit as u128 <= now as u128
}

/// Answers a request under way, of which nothing came, with 408 once `limit` has passed since a moment.
pub(crate) fn lapse<'l, W: Write, S, K>(
    lent: &Lent<'l, S, K>,
    encoding: Encoding,
    writer: &mut W,
    since: u64,
    limit: u64,
    now: u64,
) -> Option<ServeEnd>
    ensures { (r : RequestReading) → encoding ≡ encoding_in r → Lapses (W.contents writer.old) (W.contents writer.new) r (since + limit) now result }
{
    if is_over(since, limit, now) {
        let told = answer(lent, encoding, writer, &Response::TimedOut);
        return end_with(told, true);
    }
    None
}

/// Deals with a quiet turn, the last of `row` in a row.
fn wait<'l, E: Engine, W: Write, S: HasStopMark, K>(
    lent: &Lent<'l, S, K>,
    engine: &E,
    writer: &mut W,
    row: u64,
) -> Option<ServeEnd>
    ensures { (s : ConnectionStanding) → E.awaits engine.now s.reading → row ≡ s.row + 1 → Waits (W.contents writer.old) (W.contents writer.new) s row result }
{
    if engine.is_between() {
        if lent.stop.is_set() {
            return Some(ServeEnd::Stopped);
        }
        if row >= QUIET_LIMIT {
            return Some(ServeEnd::Quiet);
        }
        return None;
    }
    lapse(lent, engine.encoding(), writer, 0, SLOW_LIMIT, row)
}

/// How a connection ends at the end of its stream: between requests, or within one.
fn ended<E: Engine>(engine: &E) -> ServeEnd
    ensures { (r : RequestReading) → E.awaits engine.now r → result ≡ (if is_between r then Closed else Cut) }
{
    if engine.is_between() {
        ServeEnd::Closed
    } else {
        ServeEnd::Cut
    }
}

/// Serves one connection with an engine that has read nothing.
fn serve_turns<
    'l,
    Parser: Engine,
    ShardPort: Port<Item>,
    Ledger: Counter,
    Reader: Source,
    Writer: Write,
    Mark: HasStopMark,
    Time: Clock,
>(
    lent: &Lent<'l, Mark, Time>,
    engine: &mut Parser,
    told: &mut RequestsTold,
    lane: &mut Lane<ShardPort>,
    conn: &mut Conn,
    counts: &mut Ledger,
    reader: &mut Reader,
    writer: &mut Writer,
) -> ServeEnd
    requires { Parser.awaits engine.old (in_head (Reader.given reader.old).allowed []) }
    ensures { (served : Served (Submits ShardPort.takes ShardPort.refuses) (Writer.contents writer.old) (Writer.contents writer.new) (intake lane.old conn.old (Ledger.counted counts.old)) (intake lane.new conn.new (Ledger.counted counts.new)) (Reader.given reader.old) (Reader.given reader.new) result)
        × TellsTaken (Time.heard lent.now.clock.now) told.old told.new conn.old.key conn.new.key (submissions (events_of served.0)) }
{
    let mut piece = [0; PIECE_LIMIT];
    let mut row = 0;
    for _ in 0..READ_LIMIT {
        // Quiet turns in a row are neighbours: a piece breaks the row, and an interrupted read does too (D-126).
        match reader.turn(&mut piece) {
            ReadTurn::Gave(n) => {
                row = 0;
                engine.take(&piece[..n]);
                if let Some(end) = settle_to_end(lent, engine, told, lane, conn, counts, writer) {
                    return end;
                }
            }
            ReadTurn::Quiet => {
                row += 1;
                if let Some(end) = wait(lent, engine, writer, row) {
                    return end;
                }
            }
            ReadTurn::Interrupted => row = 0,
            ReadTurn::Failed => return ServeEnd::ReadFault,
            ReadTurn::Ended => return ended(engine),
        }
    }
    ServeEnd::Turns
}

/// Serves the next connection of a lane: reads requests, hands their bodies to the lane, counts their spans, and writes
/// the answers, each by one write where the writer takes it whole. Of a packed body, where the reader takes such, the
/// lane gets what it unpacks to (RFC 1952); a broken one is answered 400, one that unpacks to more than a body may have
/// 413.
///
/// The moment of a request is asked of the clock once, when its body has been read. It ends as
/// [`ServeEnd::NoMemory`], with nothing read, where memory for its buffer was refused.
pub fn serve<
    'l,
    ShardPort: Port<Item>,
    Ledger: Counter,
    Reader: Source,
    Writer: Write,
    Mark: HasStopMark,
    Time: Clock,
>(
    lent: &Lent<'l, Mark, Time>,
    lane: &mut Lane<ShardPort>,
    counter: &mut Ledger,
    reader: &mut Reader,
    writer: &mut Writer,
) -> ServeEnd
    requires { lane.old.connected < 2 ^ 64 - 1 }
    ensures served { (conn : Conn) × Served (Submits ShardPort.takes ShardPort.refuses) (Writer.contents writer.old) (Writer.contents writer.new)
        (intake (connected lane.old) (first_conn lane.old) (Ledger.counted counter.old)) (intake lane.new conn (Ledger.counted counter.new))
        (Reader.given reader.old) (Reader.given reader.new) result }
    // The clock was told of the requests that were taken, in the order in which they were received.
    ensures told { (conn : Conn) × (served : Served (Submits ShardPort.takes ShardPort.refuses) (Writer.contents writer.old) (Writer.contents writer.new)
        (intake (connected lane.old) (first_conn lane.old) (Ledger.counted counter.old)) (intake lane.new conn (Ledger.counted counter.new))
        (Reader.given reader.old) (Reader.given reader.new) result)
        × AreHeard (Time.heard lent.now.clock.now) 0 (taken_of (first_conn lane.old).key (submissions (events_of served.0))) }
{
    let mut conn = lane.connect();
    let mut told = RequestsTold::new();
    match Requests::new(lent.alloc, reader.allowed()) {
        Ok(mut engine) => serve_turns(
            lent,
            &mut engine,
            &mut told,
            lane,
            &mut conn,
            counter,
            reader,
            writer,
        ),
        Err(_) => ServeEnd::NoMemory,
    }
}
