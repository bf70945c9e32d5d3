//! Why a run did not end as it should.
use drop_ledger::Report;
use std::fmt;

/// Why a run did not end as `Ok`.
#[derive(Clone, Copy, PartialEq, Eq)]
pub enum ServeFault {
    /// There was no memory at the start, or no random source, or a thread could not be started: nothing was asked of
    /// an acceptor, and nothing was handed over.
    NoMemory,
    /// A count would have passed 2^64-1.
    CounterOverflow,
    /// A write failed, and what would have been handed over was counted.
    SinkDown(Report),
}

impl fmt::Display for ServeFault {
    ghost use Rattle.std.specs.Prelude.{Some};
    ghost use Rattle.pipeline.specs.FaultTexts.{fault_text};

    ghost output = { λ fault. Some (fault_text fault) };

    fn fmt<W: fmt::Write>(&self, f: &mut fmt::Formatter<W>) -> fmt::Result {
        match self {
            ServeFault::NoMemory => f.write_str(
                "no memory, no random source or no thread at the start",
            ),
            ServeFault::CounterOverflow => f.write_str("a count would pass 2^64-1"),
            ServeFault::SinkDown(_) => f.write_str("a write failed"),
        }
    }
}
