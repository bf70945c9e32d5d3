//! Which connection has its turn next.
ghost use Rattle.std.specs.Prelude.{◌≡◌, ◌<◌, ◌≤◌, None, Some, IfOk, length, ⊤};
ghost use Rattle.lane_turns.specs.Driving.{FitsNext};
ghost use Rattle.lane_driver.specs.Heard.{AllStay, Hears, MayEnd, PutsText, SendTheSame, unsent};

use crate::link::{ConnectionSocket, Got, Looked, Phase, SocketStep, TurnResult};
use crate::links::{Links, leaves_by};
use crate::loads::ConnectionShare;
use crate::readiness::{Accepted, NAP, Readiness};
use crate::rounds::{RoundKeeper, Rounds, Sending};
use crate::traffic::TrafficEvent;
use crate::walk::Walk;
use http_lane::{HasStopMark, IDLE_LIMIT, ServeEnd};
use lane_turns::{Done, Driver, Leaving, Next};
use mio::net::TcpStream;
use std::alloc::Global;
use std::io;
use std::net::{Net, TcpListener};
use std::sync::Wait;
use std::time::Clock;

/// The most reads of a connection at a turn: a request of 100 kB is then read at one, and its memory serves the next.
const READS: usize = 16;

/// What follows.
#[derive(Clone, Copy)]
enum Follows {
    /// The lane has this to do.
    Do(Next),
    /// Something was done here.
    On,
    /// There is nothing to do but to wait.
    Waits,
}

/// Drives a lane by the readiness of its connections, which it takes from a listener that doesn't block. Several lanes
/// may share the listener: each connection goes to one of them.
#[derive(Drop)]
pub struct TurnDriver<'l, P: HasStopMark, K: RoundKeeper> {
    pub(crate) alloc: Global,
    pub(crate) stop: &'l P,
    pub(crate) keeper: &'l K,
    pub(crate) lane: usize,
    pub(crate) rounds: Rounds,
    /// Whether a round is under way.
    pub(crate) is_inside: bool,
    pub(crate) readiness: Readiness<'l>,
    pub(crate) links: Links,
    /// How many of them are served before it is asked again which are ready.
    pub(crate) to_serve: usize,
    /// The place of the one that is being served, and how many reads it still has.
    pub(crate) current: Option<usize>,
    pub(crate) reads: usize,
    /// The place of the one of which the lane was told last.
    pub(crate) told: usize,
    /// The socket that was taken from the listener; the key of a connection that the lane has without a link.
    pub(crate) arrived: Option<TcpStream>,
    pub(crate) orphan: Option<usize>,
    /// Whether connections may wait at the listener, since when at the earliest, and how many more are taken now.
    pub(crate) may_take: bool,
    pub(crate) since: u64,
    pub(crate) to_take: usize,
    pub(crate) walk: Walk,
    /// The moment from which on no request goes on, once the mark to stop is set.
    pub(crate) stopping: Option<u64>,
    pub(crate) now: u64,
}

impl<'l, P: HasStopMark, K: RoundKeeper> TurnDriver<'l, P, K> {
    /// One with no connection.
    pub fn new<R: Net + Clock>(
        rt: &R,
        alloc: Global,
        listener: &'l TcpListener,
        stop: &'l P,
        keeper: &'l K,
        share: ConnectionShare,
    ) -> io::Result<Self>
        ensures { IfOk result (λ driver. driver.links.limit ≡ share.limit) }
    {
        let ConnectionShare { limit, loads, lane } = share;
        Ok(TurnDriver {
            alloc,
            stop,
            keeper,
            lane,
            rounds: Rounds::new(),
            is_inside: false,
            readiness: Readiness::new(rt, alloc, listener)?,
            links: Links::new(alloc, limit, loads, lane),
            to_serve: 0,
            current: None,
            reads: 0,
            told: 0,
            arrived: None,
            orphan: None,
            may_take: true,
            since: 0,
            to_take: 0,
            walk: Walk::new(),
            stopping: None,
            now: 0,
        })
    }

    /// Closes the socket at this place.
    fn forget(&mut self, place: usize)
        ensures ends { MayEnd place self.old.links.slab self.new.links.slab }
        ensures gone { unsent self.new.links.slab place ≡ None }
    {
        self.links.remove(place);
        if self.current == Some(place) {
            self.current = None;
        }
    }

    /// The link at this place goes on so.
    fn goes(&mut self, place: usize, step: SocketStep)
        ensures ends { MayEnd place self.old.links.slab self.new.links.slab }
    {
        if self.current == Some(place) {
            self.current = None;
        }
        match step {
            SocketStep::Waits => self.watch_deadline(place),
            SocketStep::GoesOn => self.links.list(place),
            SocketStep::Over => self.forget(place),
        }
    }

    /// The next walk comes no later than the deadline of the link at this place.
    fn watch_deadline(&mut self, place: usize)
        ensures same { SendTheSame self.old.links.slab self.new.links.slab }
    {
        if let Some(link) = self.links.get(place) {
            self.walk.comes_by(link.deadline());
        }
    }

    /// Serves the link at this place on. What is to be sent goes before further reads.
    fn serve(&mut self, place: usize, piece: &mut [u8]) -> Follows
        ensures { (next : Next) → result ≡ Follows.Do next → FitsNext next (length piece.old) }
    {
        let (now, reads, rounds) = (self.now, self.reads, self.rounds);
        let Some(link) = self.links.get_mut(place) else {
            self.current = None;
            return Follows::On;
        };
        let (key, sending) = (link.key, rounds.sending(link.round));
        let step = match (link.phase, sending) {
            (Phase::Lingering { left }, _) => link.drain(piece, left),
            // Behind those that are to be served in this round: its commit comes first (D-526).
            (_, Sending::Later) => SocketStep::GoesOn,
            (Phase::Closing, Sending::Never) => SocketStep::Over,
            (Phase::Closing, Sending::Now) => link.close(&rounds, now),
            (Phase::Serving, Sending::Never) => return self.leave(place, key, Leaving::WriteFailed),
            (Phase::Serving, Sending::Now) => {
                if !link.flush(&rounds, now) {
                    return self.leave(place, key, Leaving::WriteFailed);
                }
                match link.before_read(reads) {
                    Some(step) => step,
                    None => match link.receive(piece) {
                        Got::Bytes(len) => return self.came(place, key, len),
                        Got::Nothing => SocketStep::Waits,
                        Got::End => return self.leave(place, key, Leaving::Over),
                        Got::Fault => return self.leave(place, key, Leaving::ReadFailed),
                    },
                }
            }
        };
        self.goes(place, step);
        Follows::On
    }

    /// This number of bytes came on the connection.
    fn came(&mut self, place: usize, key: usize, len: usize) -> Follows
        ensures { result ≡ Follows.Do (Next.Came key len) }
    {
        self.reads = self.reads.saturating_sub(1);
        self.links.traffic().came(len);
        self.told = place;
        Follows::Do(Next::Came { key, len })
    }

    /// The connection leaves.
    fn leave(&mut self, place: usize, key: usize, how: Leaving) -> Follows
        ensures { result ≡ Follows.Do (Next.Leave key how) }
    {
        self.told = place;
        Follows::Do(Next::Leave { key, how })
    }

    /// Takes a connection from the listener, unless as many as may be are open and none is idle. Where there is then
    /// one too many, the one that has been idle longest leaves (D-178).
    fn take(&mut self, piece: &mut [u8]) -> Follows
        requires { 0 < length piece.old }
        ensures { (next : Next) → result ≡ Follows.Do next → FitsNext next (length piece.old) }
    {
        self.to_take = self.to_take.saturating_sub(1);
        self.since = self.now;
        if self.links.is_beyond_limit() {
            return self.make_room(piece, u64::MAX);
        }
        if self.links.is_at_limit() && self.links.idle_longest(u64::MAX).is_none() {
            self.to_take = 0;
            return Follows::On;
        }
        match self.readiness.accept() {
            Accepted::Connection(stream) => {
                self.arrived = Some(stream);
                return Follows::Do(Next::Take);
            }
            Accepted::Nothing => {
                self.to_take = 0;
                self.may_take = false;
            }
            Accepted::Broken => {}
            Accepted::NoFile => return self.make_file(piece),
        }
        Follows::On
    }

    /// Too many files are open, whether a connection waits or not: one that has been idle for `GRACE` leaves (D-170).
    fn make_file(&mut self, piece: &mut [u8]) -> Follows
        requires { 0 < length piece.old }
        ensures { (next : Next) → result ≡ Follows.Do next → FitsNext next (length piece.old) }
    {
        self.since = self.now.saturating_add(NAP);
        self.links.traffic().sees(TrafficEvent::LacksFile);
        self.make_room(piece, leaves_by(self.now))
    }

    /// The connection that has been idle longest, and would be idle too long by this moment, leaves, unless bytes wait
    /// on it that it wasn't told of yet: then it has its turn (D-170). Where there is none, none is taken for now.
    fn make_room(&mut self, piece: &mut [u8], by: u64) -> Follows
        requires { 0 < length piece.old }
        ensures { (next : Next) → result ≡ Follows.Do next → FitsNext next (length piece.old) }
    {
        let Some((place, key)) = self.links.idle_longest(by) else {
            self.to_take = 0;
            return Follows::On;
        };
        self.told = place;
        let Some(link) = self.links.get_mut(place) else {
            return Follows::On;
        };
        if link.outgoing.is_empty() {
            match link.receive(piece) {
                Got::Bytes(len) => {
                    self.links.list(place);
                    return self.came(place, key, len);
                }
                Got::End => return self.leave(place, key, Leaving::Over),
                Got::Fault => return self.leave(place, key, Leaving::ReadFailed),
                Got::Nothing => {}
            }
        }
        self.links.traffic().sees(TrafficEvent::ClosesIdle);
        Follows::Do(Next::Dismiss { key })
    }

    /// Looks at the links from this place on, up to one of which the lane is to be told.
    fn walk_on(&mut self, from: usize) -> Follows
        ensures { (next : Next) → result ≡ Follows.Do next → FitsNext next 1 }
    {
        for place in from..self.links.end {
            if let Some(follows) = self.look(place) {
                self.walk.at = Some(place + 1);
                return follows;
            }
        }
        self.walk.end(self.now);
        Follows::On
    }

    /// Looks at the link at this place: whether its time is over.
    fn look(&mut self, place: usize) -> Option<Follows>
        ensures { (next : Next) → result ≡ Some (Follows.Do next) → FitsNext next 1 }
    {
        let link = self.links.get(place)?;
        let key = link.key;
        match link.looked_at(self.now, self.stopping) {
            Looked::Waits(deadline) => {
                self.walk.meets(deadline);
                None
            }
            Looked::Over => {
                self.forget(place);
                None
            }
            Looked::Leaves(how) => Some(self.leave(place, key, how)),
            Looked::HasTurn => {
                self.told = place;
                Some(Follows::Do(Next::Look { key }))
            }
        }
    }

    /// The next thing that there is to do. At a close those who stand at the listener are still taken (D-177).
    fn step(&mut self, piece: &mut [u8]) -> Follows
        requires { 0 < length piece.old }
        ensures { (next : Next) → result ≡ Follows.Do next → FitsNext next (length piece.old) }
    {
        if let Some(key) = self.orphan.take() {
            // No link has this place, so what the lane says of it changes none.
            self.told = usize::MAX;
            return Follows::Do(Next::Leave {
                key,
                how: Leaving::ReadFailed,
            });
        }
        if let Some(place) = self.current {
            return self.serve(place, piece);
        }
        if self.to_take > 0 {
            return self.take(piece);
        }
        if self.to_serve > 0 {
            self.to_serve -= 1;
            self.serve_next();
            return Follows::On;
        }
        if let Some(place) = self.walk.at {
            return self.walk_on(place);
        }
        if self.stopping.is_some() && self.links.is_empty() && !self.may_take {
            return Follows::Do(Next::End);
        }
        Follows::Waits
    }

    /// The next of those that are to be served has its turn.
    fn serve_next(&mut self) {
        if let Some(place) = self.links.next_ready() {
            self.current = Some(place);
            self.reads = READS;
        }
    }

    /// The lane took the connection that came, under this key. If it gets no link the lane is told that it leaves.
    fn took(&mut self, key: Option<usize>)
        ensures stay { AllStay self.old.links.slab self.new.links.slab }
    {
        let (Some(key), Some(mut stream)) = (key, self.arrived.take()) else {
            return;
        };
        if !self.readiness.watch(&mut stream, self.links.next_place()) {
            self.orphan = Some(key);
            return;
        }
        let until = self.now.saturating_add(IDLE_LIMIT);
        let link = ConnectionSocket::new(self.alloc, stream, key, until);
        let Some(place) = self.links.insert(link) else {
            self.orphan = Some(key);
            return;
        };
        self.watch_deadline(place);
        self.links.list(place);
    }

    /// The connection of the link at the place that was told had a turn.
    #[tactic(auto, using(crate::proofs::Heard::gone_puts))]
    fn turned(&mut self, end: Option<ServeEnd>, due: u64, is_idle: bool, text: &[u8])
        ensures puts { PutsText self.old.told text.now end self.old.links.slab self.new.links.slab }
    {
        let (place, moment) = (self.told, self.now);
        self.links.traffic().went(text.len());
        let round = if self.keeper.holds_answers() && !text.is_empty() {
            self.rounds.hold()
        } else {
            0
        };
        let turn = TurnResult {
            end,
            due,
            is_idle,
            text,
            moment,
            round,
        };
        match self.links.turned(place, &turn) {
            Some(Ok(Some(step))) => self.goes(place, step),
            Some(Ok(None)) => self.watch_deadline(place),
            Some(Err(key)) => {
                self.forget(place);
                if end.is_none() {
                    self.orphan = Some(key);
                }
            }
            None => {}
        }
    }
}

impl<'l, P: HasStopMark, K: RoundKeeper> Driver for TurnDriver<'l, P, K> {
    ghost asks = { λ old next moment piece new. ⊤ };

    ghost hears = { λ old done text new. Hears old.told old.links.slab done text new.links.slab };

    fn next<R: Wait + Clock>(&mut self, rt: &R, piece: &mut [u8]) -> (Next, u64) {
        for _ in rt.forever() {
            match self.step(piece) {
                Follows::Do(Next::End) => {
                    self.end_round(rt);
                    return (Next::End, self.now);
                }
                Follows::Do(next) => return (next, self.now),
                Follows::On => {}
                Follows::Waits => self.wait(rt),
            }
        }
        unreachable!()
    }

    fn done(&mut self, done: Done, text: &[u8]) {
        match done {
            Done::Took(key) => self.took(key),
            Done::Turned {
                end,
                due,
                is_idle,
                ..
            } => self.turned(end, due, is_idle, text),
            Done::Nothing => self.current = None,
        }
    }
}
