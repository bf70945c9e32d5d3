//! Why a run did not end as it should.
use drop_ledger::Report;
use std::fmt;

/// Why a run did not end as `Ok`.
#[derive(Clone, Copy, PartialEq, Eq)]
pub enum ReplayFault {
    /// There was no memory at the start: nothing was handed over.
    NoMemory,
    /// This line of the script is refused. Lines count from 1.
    Refused(u64),
    /// The reader failed at this line, or the last of 2^32 reads was made there.
    Fault(u64),
    /// A count would have passed 2^64-1.
    CounterOverflow,
    /// A write failed, and what would have been handed over was counted.
    SinkDown(Report),
}

impl fmt::Display for ReplayFault {
    ghost use Rattle.std.specs.Prelude.{Some};
    ghost use Rattle.script_session.specs.FaultTexts.{fault_text};

    ghost output = { λ fault. Some (fault_text fault) };

    fn fmt<W: fmt::Write>(&self, f: &mut fmt::Formatter<W>) -> fmt::Result {
        match self {
            ReplayFault::NoMemory => f.write_str("no memory at the start"),
            ReplayFault::Refused(line) => write!(f, "line {line} is refused"),
            ReplayFault::Fault(line) => write!(f, "line {line} could not be read"),
            ReplayFault::CounterOverflow => f.write_str("a count would pass 2^64-1"),
            ReplayFault::SinkDown(_) => f.write_str("a write failed"),
        }
    }
}
