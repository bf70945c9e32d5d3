//! A connection's socket.
ghost use Rattle.std.specs.Prelude.{◌≡◌, ◌<◌, ◌≤◌, ◌++◌, ℕ, List, [], None, is_none, true, Ok, OnOk, OnErr, IfOk, length};
ghost use Rattle.lane_driver.specs.Looks.{before_read, deadline, is_sent, looked, since_flushed, since_put};
ghost use Rattle.lane_driver.specs.Rounds.{sending};

use crate::looks::{before_read, looked};
use crate::outgoing::{Flushed, Outgoing};
use crate::rounds::{Rounds, Sending};
use http_lane::ServeEnd;
use lane_turns::Leaving;
use mio::net::TcpStream;
use std::alloc::{AllocError, Global};
use std::io::{ErrorKind, Read};
use std::net::Shutdown;

/// The time for which writes may take nothing before their connection ends, in milliseconds (D-171).
pub const WRITE_LIMIT: u64 = 30_000;

/// The longest time for which what a client still sends behind the last answer is thrown away, in milliseconds.
pub const LINGER_LIMIT: u64 = 1_000;

/// The most bytes of it that are thrown away.
pub const LINGER_BYTES: usize = 8_388_608;

/// The most reads that are thrown away in one turn.
const THROWN: usize = 16;

/// What a connection does.
#[derive(Clone, Copy, PartialEq, Eq)]
pub enum Phase {
    /// Requests are read and answered.
    Serving,
    /// Its last answer is to be sent.
    Closing,
    /// The last answer was sent: what still comes is thrown away, at most `left` bytes.
    Lingering { left: usize },
}

/// How a connection goes on.
#[derive(Clone, Copy, PartialEq, Eq)]
pub enum SocketStep {
    /// It waits until it is ready.
    Waits,
    /// It may go on at once.
    GoesOn,
    /// It is over.
    Over,
}

/// What a look at a connection comes to.
#[derive(Clone, Copy, PartialEq, Eq)]
pub enum Looked {
    /// It waits on, and is to be looked at again at this moment.
    Waits(u64),
    /// It is over.
    Over,
    /// It leaves.
    Leaves(Leaving),
    /// It has a turn that brings nothing.
    HasTurn,
}

/// What a turn of a connection came to: its end, if it ended; when its time is over else, and whether no request is
/// under way; and what is to be sent, at this moment.
#[derive(Clone, Copy)]
pub struct TurnResult<'t> {
    pub end: Option<ServeEnd>,
    pub due: u64,
    pub is_idle: bool,
    pub text: &'t [u8],
    pub moment: u64,
    /// The round whose commit this waits for, or 0.
    pub round: u64,
}

/// What a read that doesn't wait gave.
#[derive(Clone, Copy, PartialEq, Eq)]
pub enum Got {
    /// This number of bytes.
    Bytes(usize),
    /// Nothing for now.
    Nothing,
    /// The end of the input.
    End,
    /// A fault.
    Fault,
}

/// A connection's socket, and what is to be sent there.
#[derive(Drop)]
pub struct ConnectionSocket {
    pub stream: TcpStream,
    pub outgoing: Outgoing,
    /// Its key in the lane's table, until it has ended there.
    pub key: usize,
    pub phase: Phase,
    /// When the request under way, or the idle time, is over.
    pub due: u64,
    /// No request is under way.
    pub is_idle: bool,
    /// Since when what is to be sent stands still, or the last answer was sent.
    pub since: u64,
    /// It stands among those that are to be served.
    pub is_listed: bool,
    /// The round in which its last answers were put, if they wait for a commit, or 0.
    pub round: u64,
}

impl ConnectionSocket {
    /// A connection that has just come.
    pub fn new(alloc: Global, stream: TcpStream, key: usize, due: u64) -> Self {
        ConnectionSocket {
            stream,
            outgoing: Outgoing::new(alloc),
            key,
            phase: Phase::Serving,
            due,
            is_idle: true,
            since: 0,
            is_listed: false,
            round: 0,
        }
    }

    /// When it is to be looked at though nothing is ready.
    pub fn deadline(&self) -> u64
        ensures { result ≡ deadline self.now.phase (is_sent self.now.outgoing) self.now.due self.now.since }
    {
        if let Phase::Lingering { .. } = self.phase {
            return self.since.saturating_add(LINGER_LIMIT);
        }
        if self.outgoing.is_empty() {
            return self.due;
        }
        self.since.saturating_add(WRITE_LIMIT)
    }

    /// What a look at it comes to now, where `stopping` is the moment from which on no request goes on.
    pub fn looked_at(&self, now: u64, stopping: Option<u64>) -> Looked
        ensures { result ≡ looked self.now.phase self.now.is_idle (is_sent self.now.outgoing) (deadline self.now.phase (is_sent self.now.outgoing) self.now.due self.now.since) now stopping }
    {
        looked(
            self.phase,
            self.is_idle,
            self.outgoing.is_empty(),
            self.deadline(),
            now,
            stopping,
        )
    }

    /// An answer is to be sent, behind those that weren't yet. `Err`: there is no memory to keep it.
    pub fn answer(&mut self, text: &[u8], moment: u64) -> Result<(), AllocError>
        ensures put { OnOk result (self.new.outgoing ≡ self.old.outgoing ++ text.now) }
        ensures kept { OnErr result (self.new.outgoing ≡ self.old.outgoing) }
        ensures since { self.new.since ≡ since_put self.old.outgoing self.old.since moment }
    {
        if self.outgoing.is_empty() {
            self.since = moment;
        }
        self.outgoing.put(text)
    }

    /// Sends what can be sent, which waits for no commit. `false`: it failed.
    pub fn flush(&mut self, rounds: &Rounds, moment: u64) -> bool
        requires { sending rounds.now self.old.round ≡ Sending.Now }
        ensures sends { (sent : List ℕ) × (self.old.outgoing ≡ sent ++ self.new.outgoing) }
        ensures since { self.new.since ≡ since_flushed self.old.outgoing self.new.outgoing self.old.since moment }
    {
        let Flushed { took, failed } = self.outgoing.flush(&mut self.stream);
        if took {
            self.since = moment;
        }
        !failed
    }

    /// What it does before a read, if it doesn't read.
    pub fn before_read(&self, reads: usize) -> Option<SocketStep>
        ensures step { result ≡ before_read (is_sent self.now.outgoing) reads }
        ensures sent { result ≡ None → self.now.outgoing ≡ [] }
    {
        before_read(self.outgoing.is_empty(), reads)
    }

    /// Its connection had a turn, with this to be sent behind the rest; where that ended it, how it goes on. `Err`:
    /// there is no memory to keep that.
    pub fn turned(&mut self, turn: &TurnResult<'_>) -> Result<Option<SocketStep>, AllocError>
        ensures put { result ≡ Ok None → self.new.outgoing ≡ self.old.outgoing ++ turn.now.text.now }
        ensures sends { IfOk result (λ _. (sent : List ℕ) × (self.old.outgoing ++ turn.now.text.now ≡ sent ++ self.new.outgoing)) }
        ensures kept { OnErr result (self.new.outgoing ≡ self.old.outgoing) }
        ensures goes_on { is_none turn.now.end ≡ true → IfOk result (λ _. self.new.outgoing ≡ self.old.outgoing ++ turn.now.text.now) }
    {
        if !turn.text.is_empty() {
            self.answer(turn.text, turn.moment)?;
            self.round = turn.round;
        }
        let Some(end) = turn.end else {
            self.due = turn.due;
            self.is_idle = turn.is_idle;
            return Ok(None);
        };
        Ok(Some(self.end(end, turn.moment)))
    }

    /// One read of a request. None is read before the answer to the one before it was sent.
    pub fn receive(&mut self, piece: &mut [u8]) -> Got
        requires { self.old.outgoing ≡ [] }
        ensures { (n : ℕ) → result ≡ Got.Bytes n → (0 < n) × (n ≤ length piece.old) }
    {
        read(&mut self.stream, piece)
    }

    /// Its connection has ended in the lane's table. An answer that closes is still to be sent.
    pub fn end(&mut self, end: ServeEnd, moment: u64) -> SocketStep
        ensures { (sent : List ℕ) × (self.old.outgoing ≡ sent ++ self.new.outgoing) }
    {
        // Behind every other end there is nothing to send.
        if end != ServeEnd::Answered {
            return SocketStep::Over;
        }
        self.phase = Phase::Closing;
        if self.round > 0 {
            // It is closed once the commit is over for which its last answer may wait.
            return SocketStep::GoesOn;
        }
        self.close(&Rounds::new(), moment)
    }

    /// Sends the rest of the last answer, and then tells the client that nothing more comes.
    pub fn close(&mut self, rounds: &Rounds, moment: u64) -> SocketStep
        requires { sending rounds.now self.old.round ≡ Sending.Now }
        ensures sends { (sent : List ℕ) × (self.old.outgoing ≡ sent ++ self.new.outgoing) }
        ensures all { result ≡ SocketStep.GoesOn → self.new.outgoing ≡ [] }
    {
        if !self.flush(rounds, moment) {
            return SocketStep::Over;
        }
        if !self.outgoing.is_empty() {
            return SocketStep::Waits;
        }
        if self.stream.shutdown(Shutdown::Write).is_err() {
            return SocketStep::Over;
        }
        // A socket closed with bytes unread is reset, and the answer may be lost by that (RFC 9112, section 9.6).
        self.phase = Phase::Lingering { left: LINGER_BYTES };
        self.since = moment;
        SocketStep::GoesOn
    }

    /// Throws away what came, of which `left` bytes may still come.
    pub fn drain(&mut self, piece: &mut [u8], left: usize) -> SocketStep {
        let mut left = left;
        for _ in 0..THROWN {
            match read(&mut self.stream, piece) {
                Got::Bytes(n) => {
                    if n >= left {
                        return SocketStep::Over;
                    }
                    left -= n;
                }
                Got::Nothing => {
                    self.phase = Phase::Lingering { left };
                    return SocketStep::Waits;
                }
                Got::End | Got::Fault => return SocketStep::Over,
            }
        }
        self.phase = Phase::Lingering { left };
        SocketStep::GoesOn
    }
}

/// One read that doesn't wait.
fn read(stream: &mut TcpStream, piece: &mut [u8]) -> Got
    ensures { (n : ℕ) → result ≡ Got.Bytes n → (0 < n) × (n ≤ length piece.old) }
{
    match stream.read(piece) {
        Ok(0) => Got::End,
        Ok(n) => Got::Bytes(n),
        Err(error) => match error.kind() {
            ErrorKind::WouldBlock | ErrorKind::Interrupted => Got::Nothing,
            _ => Got::Fault,
        },
    }
}
