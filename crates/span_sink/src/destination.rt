//! What takes lines whole.
ghost use Rattle.std.specs.Prelude.{◌≡◌};
ghost use Rattle.span_sink.specs.Manners.{Manner};
ghost use Rattle.span_sink.specs.LineSinks.{LineSinkState};
ghost use Rattle.span_sink.specs.Hands.{HandsTo};

use crate::sink::SinkFault;

/// What takes lines, each whole: it takes a line, refuses it, or is down for good.
pub trait Destination {
    /// What it may do with a line.
    ghost manner: { Manner };

    /// The bytes that it took, how many writes have failed, and whether it is down.
    ghost state: { Self → LineSinkState };

    /// Hands a line over, with the line feed that it brings. `Failed`: it went down in this call, and a part of the line
    /// may have been taken. `Down`: it was down, and nothing was taken. `Refused`: it refused the line, and may take the
    /// next one.
    fn hand(&mut self, line: &[u8]) -> Result<(), SinkFault>
        ensures hands { HandsTo manner (state self.old) line.now result (state self.new) };

    /// Whether it is down: it takes nothing more.
    fn is_down(&self) -> bool
        ensures { result ≡ (state self.now).is_down };
}
