//! The same exchange on several connections of a lane at once, whose pieces are dealt at random.
ghost use Rattle.std.specs.Prelude.{◌≡◌, ◌<◌, ◌≤◌, length, ⊤};
ghost use Rattle.lane_turns.specs.Driving.{FitsNext};

use crate::peers::{Mark, Tail, Ticks};
use crate::row::Row;
use crate::trial::{both, lane_of, name_of, queued};
use drop_ledger::{Count, Report};
use http_lane::{Answers, Lent, ServeEnd};
use lane_turns::{Done, Driver, Leaving, Next, serve_turns};
use span_ids::Reason;
use std::alloc::{AllocError, Global};
use std::cell::Cell;
use std::sync::Wait;
use std::time::Clock;

/// A connection.
#[derive(Drop)]
struct Peer {
    /// So many of its bytes have come.
    at: usize,
    key: usize,
    written: Vec<u8>,
    end: Option<ServeEnd>,
    /// It can't be taken.
    is_refused: bool,
}

/// Deals the bytes of an exchange to several connections.
#[derive(Drop)]
struct Deal<'b> {
    input: &'b [u8],
    /// No piece has more bytes.
    step: usize,
    /// Behind the bytes each read fails.
    fails: bool,
    seed: u64,
    peers: Vec<Peer>,
    /// So many of them have been taken.
    taken: usize,
    /// The one that was told last.
    told: usize,
}

impl<'b> Deal<'b> {
    /// A number below `count`, which isn't 0.
    fn random(&mut self, count: usize) -> usize
        requires { 0 < count }
        ensures { result < count }
    {
        self.seed = self
            .seed
            .wrapping_mul(6_364_136_223_846_793_005)
            .wrapping_add(1_442_695_040_888_963_407);
        (self.seed >> 33) as usize % count
    }

    /// The first connection from this place on, in a ring, that was taken and isn't over.
    fn open_from(&self, place: usize) -> Option<usize> {
        let count = self.peers.len();
        for step in 0..count {
            let at = place.wrapping_add(step) % count;
            if let Some(peer) = self.peers.get(at)
                && at < self.taken
                && peer.end.is_none()
                && !peer.is_refused
            {
                return Some(at);
            }
        }
        None
    }

    /// What the connection at this place does next.
    fn next_of(&mut self, place: usize, piece: &mut [u8]) -> Next
        requires { 0 < length piece.old }
        ensures { FitsNext result (length piece.old) }
    {
        self.told = place;
        let most = self.random(self.step.max(1)).saturating_add(1);
        let Some(peer) = self.peers.get_mut(place) else {
            return Next::End;
        };
        let key = peer.key;
        let rest = if peer.at <= self.input.len() {
            &self.input[peer.at..]
        } else {
            &[]
        };
        let len = rest.len().min(most).min(piece.len());
        if len == 0 {
            let how = if self.fails {
                Leaving::ReadFailed
            } else {
                Leaving::Over
            };
            return Next::Leave { key, how };
        }
        piece[..len].copy_from_slice(&rest[..len]);
        peer.at = peer.at.saturating_add(len);
        Next::Came { key, len }
    }

    /// What the lane is to do next.
    fn deal(&mut self, piece: &mut [u8]) -> Next
        requires { 0 < length piece.old }
        ensures { FitsNext result (length piece.old) }
    {
        let count = self.peers.len();
        if count == 0 {
            return Next::End;
        }
        let place = self.random(count);
        if self.taken < count && place >= self.taken {
            self.told = self.taken;
            return Next::Take;
        }
        match self.open_from(place) {
            Some(at) => self.next_of(at, piece),
            None if self.taken < count => {
                self.told = self.taken;
                Next::Take
            }
            None => Next::End,
        }
    }
}

impl<'b> Driver for Deal<'b> {
    ghost asks = { λ old next moment piece new. ⊤ };

    ghost hears = { λ old done text new. ⊤ };

    fn next<R: Wait + Clock>(&mut self, _rt: &R, piece: &mut [u8]) -> (Next, u64) {
        (self.deal(piece), 0)
    }

    fn done(&mut self, done: Done, text: &[u8]) {
        let Some(peer) = self.peers.get_mut(self.told) else {
            return;
        };
        match done {
            Done::Took(key) => {
                self.taken = self.taken.saturating_add(1);
                peer.is_refused = key.is_none();
                peer.key = key.unwrap_or(0);
            }
            Done::Turned { end, .. } => {
                peer.end = end;
                peer.is_refused |= peer.written.extend_from_slice(text).is_err();
            }
            Done::Nothing => peer.is_refused = true,
        }
    }
}

/// Connections that haven't come.
fn peers(alloc: Global, count: usize) -> Result<Vec<Peer>, AllocError> {
    let mut peers = Vec::with_capacity(alloc, count)?;
    for _ in 0..count {
        peers.reserve(1)?;
        peers.push_reserved(Peer {
            at: 0,
            key: 0,
            written: Vec::new(alloc),
            end: None,
            is_refused: false,
        });
    }
    Ok(peers)
}

/// Whether each of so many connections comes to what the row says.
fn comes<R: Wait + Clock>(
    rt: &R,
    alloc: Global,
    row: &Row,
    answers: &[u8],
    count: usize,
    step: usize,
) -> Result<bool, AllocError> {
    let capacity = row.setup.capacity.clamp(1, 1000) * count.clamp(1, 1000);
    let peers = peers(alloc, count)?;
    let mut lane = lane_of(alloc, capacity)?;
    let mut report = Report::new();
    let _before = report.add(Count::Received, row.setup.received);
    let mark = Mark {
        set: Cell::new(row.setup.is_stopped),
    };
    let clock = Ticks {
        asked: Cell::new(0),
    };
    let mut deal = Deal {
        input: &row.input,
        step,
        fails: matches!(row.setup.tail, Tail::Fails),
        seed: row.input.len() as u64,
        peers,
        taken: 0,
        told: 0,
    };
    let counted = Answers::new();
    let lent = Lent {
        alloc,
        stop: &mark,
        clock: &clock,
        answers: &counted,
    };
    serve_turns(
        rt,
        &lent,
        row.setup.allowed,
        &mut deal,
        &mut lane,
        &mut report,
    );
    let mut right = true;
    for peer in &deal.peers {
        let end = match peer.end {
            Some(end) => name_of(end),
            None => "",
        };
        right &= end == row.end && peer.written.as_slice() == answers && !peer.is_refused;
    }
    let (pushed, _, _) = queued(lane);
    let times = count as u64;
    right &= report.number(Count::Received) == row.outcome.received.wrapping_mul(times);
    right &= report.number(Count::Dropped(Reason::InvalidId))
        == row.outcome.invalid.wrapping_mul(times);
    right &= report.number(Count::Dropped(Reason::QueueFull))
        == row.outcome.full.wrapping_mul(times);
    right &= pushed == row.outcome.pushed.wrapping_mul(times);
    right &= clock.asked.get() == row.outcome.asked.wrapping_mul(times);
    Ok(right && mark.set.get() == row.outcome.is_stopped)
}

/// Whether the row holds on one, two and fifty connections at once. A row that says what quiet reads come to isn't run
/// so, and one on one connection alone whose connections would meet at a full queue, a full count or the stop mark.
pub fn holds<R: Wait + Clock>(
    rt: &R,
    alloc: Global,
    row: &Row,
    answers: &[u8],
) -> Result<bool, AllocError> {
    if !matches!(row.setup.tail, Tail::Ends | Tail::Fails) {
        return Ok(true);
    }
    let step = if row.setup.is_long { 16384 } else { 40 };
    let alone = comes(rt, alloc, row, answers, 1, step);
    if row.outcome.full > 0 || row.setup.received > 0 || row.outcome.is_stopped {
        return alone;
    }
    if row.setup.is_long {
        return both(alone, comes(rt, alloc, row, answers, 2, step));
    }
    both(
        both(alone, comes(rt, alloc, row, answers, 2, 1)),
        comes(rt, alloc, row, answers, 50, 400),
    )
}
