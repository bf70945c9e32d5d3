//! What takes bytes.
ghost use Rattle.std.specs.Prelude.{◌≡◌, ℕ, ◌+◌, ◌-◌, ◌^◌, ◌<◌, ◌≤◌, Option, List, length, take, IfOk, OnOk, OnErr};
ghost use Rattle.std.specs.Io.KnownBytes.{Appends, Keeps};

use std::error::Error;
use std::fmt;

/// Why bytes or a line were not taken.
#[derive(Clone, Copy, Debug, PartialEq, Eq, Drop)]
pub enum SinkFault {
    /// A write failed in this call.
    Failed,
    /// A write failed in an earlier call, and nothing was written in this one.
    Down,
    /// The line was refused, and the next one may be taken.
    Refused,
}

impl fmt::Display for SinkFault {
    ghost use Rattle.std.specs.Prelude.{Some};
    ghost use Rattle.span_sink.specs.FaultTexts.{fault_text};

    ghost output = { λ fault. Some (fault_text fault) };

    fn fmt<W: fmt::Write>(&self, f: &mut fmt::Formatter<W>) -> fmt::Result {
        match self {
            SinkFault::Failed => f.write_str("a write failed"),
            SinkFault::Down => f.write_str("a write failed earlier"),
            SinkFault::Refused => f.write_str("the line was refused"),
        }
    }
}

impl Error for SinkFault {}

/// What takes bytes, in pieces of its own choice, and counts the writes that failed.
pub trait Sink {
    /// The bytes taken so far, where they are known.
    ghost taken: { Self → Option (List ℕ) };

    /// How many writes have failed.
    ghost failures: { Self → ℕ };

    /// Offers bytes, and answers how many of them, from the first on, were taken. An error says that none were,
    /// and counts as one failure. A write of no bytes is held to the same, but may take nothing.
    fn write(&mut self, bytes: &[u8]) -> Result<usize, SinkFault>
        requires { failures self.old < 2 ^ 64 - 1 }
        ensures within { IfOk result (λ count. count ≤ length bytes.now) }
        ensures some { IfOk result (λ count. 0 < length bytes.now → 0 < count) }
        ensures taken { IfOk result (λ count. Appends (taken self.old) (taken self.new) (take count bytes.now)) }
        ensures no_failure { OnOk result (failures self.new ≡ failures self.old) }

        ensures refused { OnErr result (Keeps (taken self.old) (taken self.new)) }
        ensures one_failure { OnErr result (failures self.new ≡ failures self.old + 1) };

    /// How many writes have failed.
    fn failures(&self) -> u64
        ensures { result ≡ failures self.now };
}
