//! The rounds of a lane, and which answers may be sent: where what they promise has to outlive a crash, those of rounds that
//! were committed.
ghost use Rattle.std.specs.Prelude.{◌≡◌, true};
ghost use Rattle.lane_driver.specs.Rounds.{sending, after_commit, starts};

use std::sync::Wait;
use std::time::Clock;

/// What there is to do where a round of a lane begins and ends. Between two rounds it waits, and takes nothing.
pub trait RoundKeeper {
    /// Whether answers wait for a commit.
    fn holds_answers(&self) -> bool;

    /// Makes all that this lane took so far outlive a crash. `false`: it failed, and of what was taken since the commit
    /// before nothing is sure.
    fn commit<R: Wait>(&self, rt: &R, lane: usize) -> bool;

    /// A lane begins a round.
    fn begin<R: Wait + Clock>(&self, rt: &R);

    /// A lane ends the round that it began.
    fn end(&self);
}

/// Answers wait for nothing, and nobody has to know of rounds.
impl RoundKeeper for () {
    fn holds_answers(&self) -> bool {
        false
    }

    fn commit<R: Wait>(&self, _rt: &R, _lane: usize) -> bool {
        true
    }

    fn begin<R: Wait + Clock>(&self, _rt: &R) {}

    fn end(&self) {}
}

/// Whether the answers of a connection may be sent.
#[derive(Clone, Copy, PartialEq, Eq)]
pub enum Sending {
    /// They may.
    Now,
    /// Their round isn't committed yet.
    Later,
    /// The commit of their round has failed.
    Never,
}

/// The rounds of a lane, between two of which it waits: one commit serves all answers of a round (D-526).
#[derive(Clone, Copy)]
pub struct Rounds {
    /// The number of the one under way, from 1 on.
    pub number: u64,
    /// The last one whose commit failed, or 0.
    pub lost: u64,
    /// Answers of the one under way wait for its commit.
    pub waits: bool,
}

impl Rounds {
    /// The first one is under way.
    pub fn new() -> Self
        ensures { result ≡ starts }
    {
        Rounds {
            number: 1,
            lost: 0,
            waits: false,
        }
    }

    /// Whether the answers of a connection may be sent that were put in this round; 0: none waited for a commit.
    pub fn sending(&self, round: u64) -> Sending
        ensures { result ≡ sending self.now round }
    {
        if round == 0 {
            Sending::Now
        } else if round <= self.lost {
            Sending::Never
        } else if round == self.number {
            Sending::Later
        } else {
            Sending::Now
        }
    }

    /// Answers of the round under way wait: its number.
    pub fn hold(&mut self) -> u64
        ensures round { result ≡ self.old.number }
        ensures waits { self.new ≡ record self.old { waits = true } }
    {
        self.waits = true;
        self.number
    }

    /// The round under way was committed, or that failed, and the next one begins.
    pub fn end(&mut self, is_committed: bool)
        ensures { self.new ≡ after_commit is_committed self.old }
    {
        if !is_committed {
            self.lost = self.number;
        }
        self.waits = false;
        self.number = self.number.saturating_add(1);
    }
}
