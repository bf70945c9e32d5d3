//! One connection, and whether it is as its row says.
ghost use Rattle.std.specs.Prelude.{◌≡◌, ◌<◌, IfOk};

use crate::peers::{Mark, Page, Pieces, Ticks};
use crate::row::{Outcome, Row, Setup};
use drop_ledger::{Count, Report};
use http_lane::{Answers, Lent, Reads, ServeEnd, serve};
use lane_queue::ListPort;
use lane_seq::Lane;
use otlp_types::Item;
use span_ids::Reason;
use std::alloc::{AllocError, Global};
use std::cell::Cell;

/// In which pieces the bytes come, and what the writer takes.
#[derive(Clone, Copy, Drop)]
pub struct Way {
    /// The first piece has so many bytes, where it isn't 0.
    pub cut: usize,
    /// No piece has more bytes.
    pub step: usize,
    /// No write takes more bytes.
    pub portion: usize,
    /// All writes take no more bytes.
    pub room: usize,
}

/// No queue of the table holds more spans.
const MOST_QUEUED: usize = 10_000;

/// In one piece.
pub const WHOLE: Way = Way {
    cut: 0,
    step: usize::MAX,
    portion: usize::MAX,
    room: usize::MAX,
};

/// What a connection came to.
#[derive(Drop)]
pub struct Came {
    pub end: &'static str,
    pub written: Vec<u8>,
    /// In so many writes.
    pub writes: u64,
    pub outcome: Outcome,
}

/// The name of an end.
pub fn name_of(end: ServeEnd) -> &'static str {
    match end {
        ServeEnd::Closed => "Closed",
        ServeEnd::Cut => "Cut",
        ServeEnd::Answered => "Answered",
        ServeEnd::Quiet => "Quiet",
        ServeEnd::Stopped => "Stopped",
        ServeEnd::ReadFault => "ReadFault",
        ServeEnd::WriteFault => "WriteFault",
        ServeEnd::Turns => "Turns",
        ServeEnd::NoMemory => "NoMemory",
        ServeEnd::CounterOverflow => "BookFull",
    }
}

/// How many spans are queued, and the number and moment of the last.
pub fn queued(lane: Lane<ListPort<Item>>) -> (u64, u64, u64) {
    let mut pushed: u64 = 0;
    let mut last = 0;
    let mut moment = 0;
    for mut port in lane.end().ports {
        for _ in 0..MOST_QUEUED {
            if let Some(Item::Span(arrival)) = port.pop() {
                pushed = pushed.saturating_add(1);
                last = arrival.key.number;
                moment = arrival.moment;
            }
        }
    }
    (pushed, last, moment)
}

/// A lane with one shard, whose queue has room for so many spans.
pub fn lane_of(alloc: Global, capacity: usize) -> Result<Lane<ListPort<Item>>, AllocError>
    requires { 0 < capacity }
    ensures { IfOk result (λ lane. lane.connected ≡ 0) }
{
    let port = ListPort::<Item>::new(alloc, capacity)?;
    let ports = Vec::from_array(alloc, [port])?;
    Ok(Lane::new(3, ports))
}

/// Serves one connection.
pub fn served(alloc: Global, setup: &Setup, input: &[u8], way: Way) -> Result<Came, AllocError> {
    let written = Vec::with_capacity(alloc, 4096)?;
    let mut lane = lane_of(alloc, setup.capacity.max(1))?;
    let mut report = Report::new();
    let _before = report.add(Count::Received, setup.received);
    let mut reader = Reads {
        reader: Pieces {
            rest: input,
            cut: way.cut,
            step: way.step,
            tail: setup.tail,
            reads: 0,
            idle: 0,
        },
        allowed: setup.allowed,
    };
    let mut page = Page {
        bytes: written,
        portion: way.portion,
        room: way.room,
        writes: 0,
    };
    let mark = Mark {
        set: Cell::new(setup.is_stopped),
    };
    let clock = Ticks {
        asked: Cell::new(0),
    };
    let counted = Answers::new();
    let lent = Lent {
        alloc,
        stop: &mark,
        clock: &clock,
        answers: &counted,
    };
    let end = serve(&lent, &mut lane, &mut report, &mut reader, &mut page);
    let (pushed, last, moment) = queued(lane);
    Ok(Came {
        end: name_of(end),
        writes: page.writes,
        written: page.bytes,
        outcome: Outcome {
            received: report.number(Count::Received),
            invalid: report.number(Count::Dropped(Reason::InvalidId)),
            full: report.number(Count::Dropped(Reason::QueueFull)),
            pushed,
            last,
            moment,
            asked: clock.asked.get(),
            is_stopped: mark.set.get(),
            reads: reader.reader.reads,
            after: 0,
        },
    })
}

/// The same counts, pushes, askings and mark.
pub fn is_same(a: &Outcome, b: &Outcome) -> bool {
    a.received == b.received
        && a.invalid == b.invalid
        && a.full == b.full
        && a.pushed == b.pushed
        && a.last == b.last
        && a.moment == b.moment
        && a.asked == b.asked
        && a.is_stopped == b.is_stopped
}

/// The answers, joined.
pub fn joined(alloc: Global, answers: &[Vec<u8>]) -> Result<Vec<u8>, AllocError> {
    let mut bytes = Vec::new(alloc);
    for answer in answers {
        bytes.extend_from_slice(answer)?;
    }
    Ok(bytes)
}

/// Whether the exchange comes to the answers in this way.
fn is_answered(alloc: Global, row: &Row, answers: &[u8], way: Way) -> Result<bool, AllocError> {
    let came = served(alloc, &row.setup, &row.input, way)?;
    Ok(
        came.end == row.end
            && came.written.as_slice() == answers
            && is_same(&came.outcome, &row.outcome),
    )
}

/// Whether it comes to a first part of them where writes fail after so many bytes.
fn is_cut_off(alloc: Global, row: &Row, answers: &[u8], room: usize) -> Result<bool, AllocError> {
    let came = served(alloc, &row.setup, &row.input, Way { room, ..WHOLE })?;
    let counted = if room < row.outcome.after {
        came.outcome.received == 0 && came.outcome.pushed == 0 && came.outcome.asked == 0
    } else {
        is_same(&came.outcome, &row.outcome)
    };
    Ok(
        came.end == "WriteFault"
            && answers.starts_with(&came.written)
            && came.written.len() == room
            && counted,
    )
}

/// Whether its first bytes, so many of them and not all, come to no answer, no count and no asking.
fn is_unanswered(alloc: Global, row: &Row, len: usize) -> Result<bool, AllocError> {
    let first = &row.input[..len.min(row.input.len())];
    let came = served(alloc, &row.setup, first, WHOLE)?;
    let end = if len == 0 { "Closed" } else { "Cut" };
    let outcome = came.outcome;
    Ok(
        came.end == end
            && came.written.is_empty()
            && outcome.received == 0
            && outcome.pushed == 0
            && outcome.asked == 0
            && !outcome.is_stopped,
    )
}

/// Whether both are so. Where one found no memory, neither is known.
pub fn both(a: Result<bool, AllocError>, b: Result<bool, AllocError>) -> Result<bool, AllocError> {
    match (a, b) {
        (Ok(a), Ok(b)) => Ok(a && b),
        _ => Err(AllocError),
    }
}

/// Whether a short row holds with its bytes in pieces, with its first bytes alone, and where writes fail.
fn holds_in_parts(alloc: Global, row: &Row, answers: &[u8]) -> Result<bool, AllocError> {
    let mut right = is_answered(alloc, row, answers, Way { step: 1, ..WHOLE });
    for cut in 1..row.input.len() {
        right = both(
            right,
            is_answered(alloc, row, answers, Way { cut, ..WHOLE }),
        );
    }
    if row.setup.cuts {
        for len in 0..row.input.len() {
            right = both(right, is_unanswered(alloc, row, len));
        }
    }
    if row.setup.writes {
        for room in 0..answers.len() {
            right = both(right, is_cut_off(alloc, row, answers, room));
        }
    }
    right
}

/// Whether it takes the reads and the writes that the row says.
fn is_whole(alloc: Global, row: &Row) -> Result<bool, AllocError> {
    let whole = served(alloc, &row.setup, &row.input, WHOLE)?;
    let reads = row.outcome.reads == 0 || row.outcome.reads == whole.outcome.reads;
    Ok(reads && whole.writes == row.writes())
}

/// Whether the row holds in each way.
pub fn holds(alloc: Global, row: &Row, answers: &[u8]) -> Result<bool, AllocError> {
    let bytewise = Way {
        portion: 1,
        ..WHOLE
    };
    let right = both(
        both(
            is_whole(alloc, row),
            is_answered(alloc, row, answers, WHOLE),
        ),
        is_answered(alloc, row, answers, bytewise),
    );
    let parts = if row.setup.is_long {
        let long = Way {
            step: 1000,
            ..WHOLE
        };
        is_answered(alloc, row, answers, long)
    } else {
        holds_in_parts(alloc, row, answers)
    };
    both(right, parts)
}
