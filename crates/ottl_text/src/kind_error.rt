//! Why a piece is refused, before its column is known.
use crate::fault::FaultKind;
use std::alloc::{AllocError, AllocFailed};

/// Why a piece is refused.
#[derive(Clone, Copy, Drop)]
pub enum KindError {
    /// It has this fault.
    Refused(FaultKind),
    /// Memory was refused.
    NoMemory,
}

impl From<AllocError> for KindError {
    ghost use Rattle.std.specs.Prelude.{◌≡◌};
    ghost use Rattle.ottl_text.specs.declared.kind_error.KindError.TheVariants.{NoMemory};

    ghost from_gives = { λ _ e. e ≡ NoMemory };

    fn from(_refused: AllocError) -> KindError {
        KindError::NoMemory
    }
}

impl<T: Drop> From<AllocFailed<T>> for KindError {
    ghost use Rattle.std.specs.Prelude.{◌≡◌};
    ghost use Rattle.ottl_text.specs.declared.kind_error.KindError.TheVariants.{NoMemory};

    ghost from_gives = { λ _ e. e ≡ NoMemory };

    fn from(_refused: AllocFailed<T>) -> KindError {
        KindError::NoMemory
    }
}
