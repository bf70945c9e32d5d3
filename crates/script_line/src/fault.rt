//! Why no line is put.
use std::alloc::AllocError;

/// Why no line is put.
#[derive(Clone, Copy, Debug, PartialEq, Eq, Drop)]
pub enum LineFault {
    /// There is no memory for it.
    NoMemory,
    /// It would be longer than a script's line may be: 4,194,368 bytes without its line feed.
    TooLong,
}

impl From<AllocError> for LineFault {
    ghost use Rattle.std.specs.Prelude.{◌≡◌};
    ghost use Rattle.script_line.specs.declared.fault.LineFault.TheVariants.{NoMemory};

    ghost from_gives = { λ _ e. e ≡ NoMemory };

    fn from(_refused: AllocError) -> LineFault {
        LineFault::NoMemory
    }
}
