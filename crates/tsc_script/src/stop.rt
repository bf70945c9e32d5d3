//! Why a script was not played to its end.
use std::error::Error;
use std::fmt;

/// Why a script was not played to its end. The program reports `Refused` and `Fault` alike, as a script that is
/// refused at that line. Lines count from 1.
#[derive(Clone, Copy, Debug, PartialEq, Eq, Drop)]
pub enum ScriptStop {
    /// There is no memory for a line and a read: nothing was read or played.
    NoMemory,
    /// This line is refused: the lines before it were played, and nothing else.
    Refused(u64),
    /// The reader failed at this line, or the last read that may be made, of 2^32, was made there: the lines before
    /// it were played, and nothing else.
    Fault(u64),
    /// The machine takes no further instruction: no further line was read, and `close` was played.
    Down,
}

impl fmt::Display for ScriptStop {
    ghost use Rattle.std.specs.Prelude.{Some};
    ghost use Rattle.tsc_script.specs.FaultTexts.{fault_text};

    ghost output = { λ fault. Some (fault_text fault) };

    fn fmt<W: fmt::Write>(&self, f: &mut fmt::Formatter<W>) -> fmt::Result {
        match self {
            ScriptStop::NoMemory => f.write_str("no memory"),
            ScriptStop::Refused(line) => write!(f, "line {line} is refused"),
            ScriptStop::Fault(line) => write!(f, "line {line} could not be read"),
            ScriptStop::Down => f.write_str("a write failed"),
        }
    }
}

impl Error for ScriptStop {}
