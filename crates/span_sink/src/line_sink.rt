//! A sink of whole lines.
ghost use Rattle.std.specs.Prelude.{◌≡◌, ℕ, ◌+◌, ◌-◌, ◌^◌, ◌<◌, ◌≤◌, ◌++◌, Bool, true, false, Option, List, length, take, OnOk, OnErr};
ghost use Rattle.std.specs.Result.{IsErrOf};
ghost use Rattle.std.specs.Io.KnownBytes.{Appends, Keeps};
ghost use Rattle.span_sink.specs.LineSinks.{LineSinkState, up_state, down_state, TakesWhole, FailsInside};
ghost use Rattle.span_sink.specs.Hands.{HandsOne};

use crate::destination::Destination;
use crate::sink::{Sink, SinkFault};
use std::marker::Model;

/// Hands whole lines to a sink until a write fails, and writes nothing after that.
#[derive(Drop)]
pub struct LineSink<S: Sink> {
    sink: S,
    is_down: bool,
}

impl<S: Sink> Model for LineSink<S> {
    ghost Value = { LineSinkState };

    ghost view = { λ s. record { taken = S.taken s.sink; failures = S.failures s.sink; is_down = s.is_down } };

    ghost invariant = { λ s. s.is_down ≡ false → S.failures s.sink < 2 ^ 64 - 1 };
}

impl<S: Sink> LineSink<S> {
    /// A sink of lines over this sink, which is up.
    pub fn new(sink: S) -> Self
        requires { S.failures sink < 2 ^ 64 - 1 }
        ensures { result ≡ up_state (S.taken sink) (S.failures sink) }
    {
        LineSink {
            sink,
            is_down: false,
        }
    }

    /// Gives the sink back.
    pub fn end(self) -> S
        ensures taken { S.taken result ≡ self.taken }
        ensures failures { S.failures result ≡ self.failures }
    {
        let LineSink { sink, is_down: _ } = self;
        sink
    }

    /// Whether a write has failed.
    pub fn is_down(&self) -> bool
        ensures { result ≡ self.now.is_down }
    {
        self.is_down
    }

    /// Hands a line over, with the line feed that it brings. `Failed`: a write failed in this call, and a part of
    /// the line may have been taken. `Down`: a write failed earlier, and nothing was written.
    pub fn hand(&mut self, line: &[u8]) -> Result<(), SinkFault>
        ensures { HandsOne self.old line.now result self.new }
    {
        if self.is_down {
            return Err(SinkFault::Down);
        }
        if write_whole(&mut self.sink, line) < line.len() {
            self.is_down = true;
            return Err(SinkFault::Failed);
        }
        Ok(())
    }
}

impl<S: Sink> Destination for LineSink<S> {
    ghost use Rattle.span_sink.specs.Manners.{takes_all};

    ghost manner = { takes_all };

    ghost state = { λ s. s };

    fn hand(&mut self, line: &[u8]) -> Result<(), SinkFault> {
        LineSink::hand(self, line)
    }

    fn is_down(&self) -> bool {
        LineSink::is_down(self)
    }
}

/// Writes until all of the text is taken, or a write fails, and answers how many bytes were taken.
pub fn write_whole<S: Sink>(sink: &mut S, text: &[u8]) -> usize
    requires { S.failures sink.old < 2 ^ 64 - 1 }
    ensures within { result ≤ length text.now }
    ensures taken { Appends (S.taken sink.old) (S.taken sink.new) (take result text.now) }
    ensures whole { result ≡ length text.now → S.failures sink.new ≡ S.failures sink.old }
    ensures part { result < length text.now → S.failures sink.new ≡ S.failures sink.old + 1 }
{
    let mut rest = text;
    while !rest.is_empty() {
        match sink.write(rest) {
            Ok(count) => rest = &rest[count..],
            Err(_) => return text.len() - rest.len(),
        }
    }
    text.len()
}
