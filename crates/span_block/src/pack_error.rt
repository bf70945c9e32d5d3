//! Why a span was not packed.
use std::alloc::AllocError;
use std::error::Error;
use std::fmt;

/// Why a span was not packed. It stays as it is then.
#[derive(Clone, Copy, Debug, PartialEq, Eq, Drop)]
pub enum PackError {
    /// The span has no block: it would not be read again from its canonical bytes. A value of bytes is no base64 text, an
    /// id of a link is no text of lower-case hex digits, or a value nests more than 29 levels deep.
    NoBlock,
    /// Memory was refused.
    NoMemory,
}

impl fmt::Display for PackError {
    ghost use Rattle.std.specs.Prelude.{Some};
    ghost use Rattle.span_block.specs.FaultTexts.{error_text};

    ghost output = { λ error. Some (error_text error) };

    fn fmt<W: fmt::Write>(&self, f: &mut fmt::Formatter<W>) -> fmt::Result {
        match self {
            PackError::NoBlock => f.write_str("the span has no block"),
            PackError::NoMemory => f.write_str("no memory"),
        }
    }
}

impl Error for PackError {}

impl From<AllocError> for PackError {
    ghost use Rattle.std.specs.Prelude.{◌≡◌};
    ghost use Rattle.span_block.specs.declared.pack_error.PackError.TheVariants.{NoMemory};

    ghost from_gives = { λ _ e. e ≡ NoMemory };

    fn from(_refused: AllocError) -> PackError {
        PackError::NoMemory
    }
}
