//! Why no request was read.
use crate::protobuf_fault::ProtobufFault;
use protobuf_wire::WireFault;
use std::alloc::{AllocError, AllocFailed};
use std::error::Error;
use std::fmt;

/// Why no request was read.
#[derive(Clone, Copy, Debug, PartialEq, Eq, Drop)]
pub enum DecodeError {
    /// The bytes are no request.
    Refused(ProtobufFault),
    /// Memory was refused.
    NoMemory,
}

impl fmt::Display for DecodeError {
    ghost use Rattle.std.specs.Prelude.{Some};
    ghost use Rattle.otlp_protobuf.specs.FaultTexts.{error_text};

    ghost output = { λ error. Some (error_text error) };

    fn fmt<W: fmt::Write>(&self, f: &mut fmt::Formatter<W>) -> fmt::Result {
        match self {
            DecodeError::Refused(fault) => fault.fmt(f),
            DecodeError::NoMemory => f.write_str("no memory"),
        }
    }
}

impl Error for DecodeError {}

impl From<WireFault> for DecodeError {
    ghost use Rattle.std.specs.Prelude.{◌≡◌};
    ghost use Rattle.otlp_protobuf.specs.declared.protobuf_fault.ProtobufFault.TheVariants.{Wire};
    ghost use Rattle.otlp_protobuf.specs.declared.decode_error.DecodeError.TheVariants.{Refused};

    ghost from_gives = { λ fault e. e ≡ Refused (Wire fault) };

    fn from(fault: WireFault) -> DecodeError {
        DecodeError::Refused(ProtobufFault::Wire(fault))
    }
}

impl From<AllocError> for DecodeError {
    ghost use Rattle.std.specs.Prelude.{◌≡◌};
    ghost use Rattle.otlp_protobuf.specs.declared.decode_error.DecodeError.TheVariants.{NoMemory};

    ghost from_gives = { λ _ e. e ≡ NoMemory };

    fn from(_refused: AllocError) -> DecodeError {
        DecodeError::NoMemory
    }
}

impl<T: Drop> From<AllocFailed<T>> for DecodeError {
    ghost use Rattle.std.specs.Prelude.{◌≡◌};
    ghost use Rattle.otlp_protobuf.specs.declared.decode_error.DecodeError.TheVariants.{NoMemory};

    ghost from_gives = { λ _ e. e ≡ NoMemory };

    fn from(_refused: AllocFailed<T>) -> DecodeError {
        DecodeError::NoMemory
    }
}
