//! The table of steps by running state. It looks back over nothing.
use crate::tests::running_shard::{Found, Shard};
use crate::tests::spans::{Kept, Place, are_at, are_counted, count, move_all, move_first};
use otlp_types::Record;
use span_ids::{ArrivalKey, ConnKey, Reason};
use span_world::{Step, World};
use std::alloc::{AllocError, Global};

/// How many spans a run has at most.
const SPANS: usize = 128;

/// The ticker's number as a sender.
const TICKER: u16 = 2;

/// A span as it was received.
fn kept_of(key: ArrivalKey, moment: u64, rec: &Record) -> Kept {
    let (trace, root) = match rec.span.get().ids {
        None => (0, false),
        Some(ids) => (ids.trace.bytes()[15], ids.parent.is_none()),
    };
    let place = match trace {
        0 => Place::Counted(Reason::InvalidId),
        _ => Place::Unrouted(key.conn.lane, (trace % 2) as usize),
    };
    Kept {
        key,
        moment,
        trace,
        error: rec.span.get().status.code == 2,
        root,
        place,
    }
}

/// A lane, with the number of the next span of each of its connections.
#[derive(Clone, Copy)]
struct Lane {
    ended: bool,
    numbers: [u64; 2],
}

/// Two lanes, two shards, a wait of ten milliseconds, and batches of two spans. A trace with an error is sampled. Given
/// are the root wait, in milliseconds, and the greatest size of a trace, in bytes, where 0 is off.
#[derive(Drop)]
pub struct Simulated {
    spans: Vec<Kept>,
    root_wait: u64,
    maximum_trace_size: u64,
    lanes: [Lane; 2],
    shards: [Shard; 2],
    handed: usize,
    down: bool,
    /// Whether some trace was too big.
    pub was_too_big: bool,
}

impl Simulated {
    pub fn new(
        alloc: Global,
        root_wait: u64,
        maximum_trace_size: u64,
    ) -> Result<Simulated, AllocError> {
        let nowhere = Kept {
            key: ArrivalKey {
                conn: ConnKey {
                    lane: 0,
                    ordinal: 0,
                },
                number: 0,
            },
            moment: 0,
            trace: 0,
            error: false,
            root: false,
            place: Place::Nowhere,
        };
        let lane = Lane {
            ended: false,
            numbers: [0; 2],
        };
        Ok(Simulated {
            spans: vec![in alloc; nowhere; SPANS]?,
            root_wait,
            maximum_trace_size,
            lanes: [lane; 2],
            shards: [Shard::new(); 2],
            handed: 0,
            down: false,
            was_too_big: false,
        })
    }

    /// Makes the step, and answers whether it was enabled.
    pub fn step(&mut self, step: &Step) -> bool {
        match step {
            Step::Receive {
                lane,
                ordinal,
                moment,
                records,
            } => {
                let conn = ConnKey {
                    lane: *lane,
                    ordinal: *ordinal,
                };
                self.receive(conn, *moment, records)
            }
            Step::Take {
                shard,
                refused,
                lost,
            } => self.take(*shard, *refused, *lost),
            Step::Tick { shard, moment } => self.tick(*shard, *moment),
            Step::Close { lane } => match self.lanes.get_mut(*lane as usize) {
                Some(lane) => !std::mem::replace(&mut lane.ended, true),
                None => false,
            },
            Step::End { shard, sender } => self.end(*shard, *sender),
            Step::Decide { shard, .. } => self.decide(*shard),
            Step::Fail => !std::mem::replace(&mut self.down, true),
            of_exporter => self.move_spans(of_exporter),
        }
    }

    /// A step that does no more than to move spans.
    fn move_spans(&mut self, step: &Step) -> bool {
        let batched = count(&self.spans, Place::Batched);
        let (from, to, applies) = match step {
            Step::Route { lane, shard } => (
                Place::Unrouted(*lane, *shard),
                Place::Queued(*shard),
                true,
            ),
            Step::Refuse { lane, shard } => (
                Place::Unrouted(*lane, *shard),
                Place::Counted(Reason::QueueFull),
                true,
            ),
            Step::Ship { shard } => (Place::Unshipped(*shard), Place::Exported, true),
            Step::Pull => (Place::Exported, Place::Batched, batched < 2),
            Step::Hand => return self.hand(),
            Step::DropBatch { reason } => return self.drop_batch(*reason),
            _ => return false,
        };
        applies && move_first(&mut self.spans, from, to)
    }

    /// False also where the list of spans is full.
    fn receive(&mut self, conn: ConnKey, moment: u64, records: &[Record]) -> bool {
        let lane = match self.lanes.get_mut(conn.lane as usize) {
            Some(lane) if !lane.ended => lane,
            _ => return false,
        };
        let mut has_room = true;
        for rec in records {
            let mut key = ArrivalKey { conn, number: 0 };
            if let Some(next) = lane.numbers.get_mut(conn.ordinal as usize) {
                key.number = *next;
                *next = next.wrapping_add(1);
            }
            let span = kept_of(key, moment, rec);
            has_room = has_room && move_first(&mut self.spans, Place::Nowhere, span.place);
            match self.spans.last_mut() {
                Some(last) if has_room => *last = span,
                _ => {}
            }
        }
        has_room
    }

    fn take(&mut self, number: usize, refused: bool, lost: bool) -> bool {
        let queued = Place::Queued(number);
        let Some(shard) = self.shards.get_mut(number) else {
            return false;
        };
        let Some(span) = self.spans.iter().find(|span| span.place == queued).copied() else {
            return false;
        };
        let found = shard.find(span.trace);
        if shard.is_due() || !shard.marks_apply(found, refused, lost) {
            return false;
        }
        shard.clock = shard.clock.max(span.moment);
        let place = match found {
            _ if refused => Place::Counted(Reason::NoMemory),
            Found::Joins | Found::Opens => Place::Waiting(span.trace),
            Found::Meets(true) | Found::Recalls(true) => Place::Unshipped(number),
            Found::Meets(false) | Found::Recalls(false) => Place::Counted(Reason::LateNotSampled),
        };
        if !refused {
            if let Some(trace) = shard.take(found, &span, lost) {
                let evicted = Place::Counted(Reason::Evicted);
                move_all(&mut self.spans, Place::Waiting(trace), evicted);
            }
        }
        move_first(&mut self.spans, queued, place);
        self.was_too_big = shard.fall_due_by_size(self.maximum_trace_size) || self.was_too_big;
        true
    }

    fn tick(&mut self, number: usize, moment: u64) -> bool {
        let Some(shard) = self.shards.get_mut(number) else {
            return false;
        };
        let [_, _, is_stopped] = shard.ended;
        if is_stopped || shard.is_due() {
            return false;
        }
        shard.clock = shard.clock.max(moment);
        shard.fall_due(false, self.root_wait);
        true
    }

    fn end(&mut self, number: usize, sender: u16) -> bool {
        let (unrouted, queued) = (Place::Unrouted(sender, number), Place::Queued(number));
        let is_under_way = self.spans.iter().any(|span| {
            span.key.conn.lane == sender && (span.place == unrouted || span.place == queued)
        });
        let done = match self.lanes.get(sender as usize) {
            Some(lane) => lane.ended && !is_under_way,
            None => sender == TICKER,
        };
        match self.shards.get_mut(number) {
            Some(shard) if done && !shard.is_due() => shard.end(sender, self.root_wait),
            _ => false,
        }
    }

    fn decide(&mut self, number: usize) -> bool {
        let decided = match self.shards.get_mut(number) {
            Some(shard) => shard.decide(self.maximum_trace_size),
            None => None,
        };
        let (trace, place) = match decided {
            Some((trace, true)) => (trace, Place::Unshipped(number)),
            Some((trace, false)) => (trace, Place::Counted(Reason::NotSampled)),
            None => return false,
        };
        move_all(&mut self.spans, Place::Waiting(trace), place);
        true
    }

    fn hand(&mut self) -> bool {
        let handed = Place::Handed(self.handed);
        if self.down || !move_all(&mut self.spans, Place::Batched, handed) {
            return false;
        }
        self.handed = self.handed.wrapping_add(1);
        true
    }

    fn drop_batch(&mut self, reason: Reason) -> bool {
        let applies = match reason {
            Reason::NoMemory => true,
            Reason::ExporterDown => self.down,
            _ => false,
        };
        applies && move_all(&mut self.spans, Place::Batched, Place::Counted(reason))
    }

    /// Whether each shard took every sender's End.
    pub fn have_ended(&self) -> bool {
        self.shards[0].ended == [true; 3] && self.shards[1].ended == [true; 3]
    }

    /// Whether the world's exporter is as this one: the export list, the batch, what was handed over and counted.
    pub fn is_like(&self, world: &World) -> bool {
        let mut is_like = self.down == world.is_down()
            && count(&self.spans, Place::Exported) == world.exported()
            && are_at(&self.spans, Place::Batched, world.batch())
            && are_counted(&self.spans, world.counted())
            && self.handed == world.handed().len();
        for (number, batch) in world.handed().iter().enumerate() {
            is_like = is_like && are_at(&self.spans, Place::Handed(number), batch.as_slice());
        }
        is_like
    }
}
