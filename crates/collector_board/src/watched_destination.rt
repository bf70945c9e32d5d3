//! A destination that tells for how long a line has been under way.
ghost use Rattle.std.specs.Prelude.{◌≡◌};

use crate::output_stall::OutputStall;
use span_sink::{Destination, SinkFault};
use std::time::Clock;

/// A destination over another one. While a line is under way others can tell for how long; what it does with lines is
/// what the other does.
#[derive(Drop)]
pub struct WatchedDestination<'s, D, R: Clock> {
    rt: &'s R,
    destination: D,
    stall: &'s OutputStall,
}

impl<'s, D: Destination, R: Clock> WatchedDestination<'s, D, R> {
    /// A destination over this one.
    pub fn new(rt: &'s R, destination: D, stall: &'s OutputStall) -> Self
        ensures { result.destination ≡ destination }
    {
        WatchedDestination {
            rt,
            destination,
            stall,
        }
    }

    /// Gives the other destination back.
    pub fn end(self) -> D
        ensures { result ≡ self.entry.destination }
    {
        let WatchedDestination {
            rt: _,
            destination,
            stall: _,
        } = self;
        destination
    }
}

impl<'s, D: Destination, R: Clock> Destination for WatchedDestination<'s, D, R> {
    ghost manner = { D.manner };

    ghost state = { λ s. D.state s.destination };

    fn hand(&mut self, line: &[u8]) -> Result<(), SinkFault> {
        self.stall.begins(self.rt);
        let answer = self.destination.hand(line);
        self.stall.ends();
        answer
    }

    fn is_down(&self) -> bool {
        self.destination.is_down()
    }
}
