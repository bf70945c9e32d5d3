//! Why bytes are no request.
use std::alloc::{AllocError, AllocFailed};
use std::error::Error;
use std::fmt;

/// Why no request was read.
#[derive(Clone, Copy, Debug, PartialEq, Eq, Drop)]
pub enum DecodeError {
    /// The bytes are no JSON text in UTF-8 that nests at most 127 deep.
    Json,
    /// They are JSON, but some field has another shape than its kind.
    Shape,
    /// Memory was refused.
    NoMemory,
}

impl fmt::Display for DecodeError {
    ghost use Rattle.std.specs.Prelude.{Some};
    ghost use Rattle.otlp_reading.specs.FaultTexts.{fault_text};

    ghost output = { λ fault. Some (fault_text fault) };

    fn fmt<W: fmt::Write>(&self, f: &mut fmt::Formatter<W>) -> fmt::Result {
        match self {
            DecodeError::Json => f.write_str(
                "the bytes are no JSON in UTF-8 that nests at most 127 deep",
            ),
            DecodeError::Shape => f.write_str("a field has another shape than its kind"),
            DecodeError::NoMemory => f.write_str("no memory"),
        }
    }
}

impl Error for DecodeError {}

impl From<AllocError> for DecodeError {
    ghost use Rattle.std.specs.Prelude.{◌≡◌};
    ghost use Rattle.otlp_reading.specs.declared.decode_error.DecodeError.TheVariants.{NoMemory};

    ghost from_gives = { λ _ e. e ≡ NoMemory };

    fn from(_refused: AllocError) -> DecodeError {
        DecodeError::NoMemory
    }
}

impl<T: Drop> From<AllocFailed<T>> for DecodeError {
    ghost use Rattle.std.specs.Prelude.{◌≡◌};
    ghost use Rattle.otlp_reading.specs.declared.decode_error.DecodeError.TheVariants.{NoMemory};

    ghost from_gives = { λ _ e. e ≡ NoMemory };

    fn from(_refused: AllocFailed<T>) -> DecodeError {
        DecodeError::NoMemory
    }
}
