//! Steps of the core, chosen at random.
use otlp_types::Record;
use plain_spans::{numbered_ids, plain_record};
use span_ids::Reason;
use span_world::Step;
use std::alloc::{AllocError, Global};

/// Random numbers, of which a step is made at about this time. Lanes close and the sink fails only in the second part
/// of a run, where nothing is received.
#[derive(Clone, Copy)]
pub struct Choice {
    kind: u64,
    lane: u16,
    shard: usize,
    bits: u64,
    more: u64,
    moment: u64,
    closing: bool,
}

/// The next number of a generator, and 31 bits of it.
fn draw(seed: u64) -> (u64, u64) {
    let next = seed
        .wrapping_mul(6364136223846793005)
        .wrapping_add(1442695040888963407);
    (next, next >> 33)
}

/// The next number of the generator, and a choice.
pub fn choose(seed: u64, now: u64, closing: bool) -> (u64, Choice) {
    let (seed, kind) = draw(seed);
    let (seed, place) = draw(seed);
    let (seed, bits) = draw(seed);
    let (seed, more) = draw(seed);
    let choice = Choice {
        kind,
        lane: of_two(place),
        shard: of_two(place >> 8) as usize,
        bits,
        more,
        moment: now.saturating_add(bits % 16),
        closing,
    };
    (seed, choice)
}

/// A span by some bits: one in eight has invalid ids, one in four an error, every second no parent.
fn draw_record(alloc: Global, bits: u64) -> Result<Record, AllocError> {
    let is_root = (bits >> 11) & 1 == 0;
    let ids = if bits & 7 == 0 {
        None
    } else {
        numbered_ids(((bits >> 3) % 6) as u8 + 1, is_root)
    };
    let code = if (bits >> 9) & 3 == 0 { 2 } else { 0 };
    plain_record(alloc, ids, code, 0, 0)
}

/// Three in a hundred are of a lane, shard or sender that isn't there.
fn of_two(bits: u64) -> u16 {
    if bits % 97 < 3 { 2 } else { (bits & 1) as u16 }
}

impl Choice {
    /// The step, whose moment may go back a little. The same each time.
    pub fn step(self, alloc: Global) -> Result<Step, AllocError> {
        match self.kind % 32 {
            0..=2 if !self.closing => self.receipt(alloc),
            0 | 1 => Ok(Step::Close { lane: self.lane }),
            3..=17 => Ok(self.step_of_queues()),
            20..=23 => Ok(Step::Decide {
                shard: self.shard,
                answers: Vec::new(alloc),
            }),
            kind => Ok(self.further_step(kind)),
        }
    }

    /// Two spans.
    fn receipt(self, alloc: Global) -> Result<Step, AllocError> {
        let mut records = vec![in alloc; draw_record(alloc, self.bits >> 6)?]?;
        records.push(draw_record(alloc, self.more)?)?;
        Ok(Step::Receive {
            lane: self.lane,
            ordinal: self.bits & 1,
            moment: self.moment,
            records,
        })
    }

    /// Into a shard's queue, past it, or out of it.
    fn step_of_queues(self) -> Step {
        let shard = self.shard;
        match self.kind % 32 {
            3..=8 => Step::Route {
                lane: self.lane,
                shard,
            },
            9 => Step::Refuse {
                lane: self.lane,
                shard,
            },
            _ => Step::Take {
                shard,
                refused: self.bits % 8 == 0,
                lost: self.bits % 8 == 1,
            },
        }
    }

    /// A tick, an End, or a step of the exporter.
    fn further_step(self, kind: u64) -> Step {
        let shard = self.shard;
        match kind {
            18 | 19 => Step::Tick {
                shard,
                moment: self.moment,
            },
            2 | 29 | 30 => Step::End {
                shard,
                sender: (self.bits % 4) as u16,
            },
            24 | 25 => Step::Ship { shard },
            26 | 27 => Step::Pull,
            28 => Step::Hand,
            _ if self.more % 16 == 0 && self.closing => Step::Fail,
            _ => Step::DropBatch {
                reason: match self.more % 8 {
                    0 => Reason::NoMemory,
                    1 | 2 => Reason::ExporterDown,
                    _ => Reason::QueueFull,
                },
            },
        }
    }
}
