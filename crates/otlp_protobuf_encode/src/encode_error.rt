//! Why a request was not written.
use std::alloc::AllocError;
use std::error::Error;
use std::fmt;

/// Why a request has no bytes.
#[derive(Clone, Copy, Debug, PartialEq, Eq, Drop)]
pub enum EncodeError {
    /// A value of bytes is no base64 text (RFC 4648, section 4, with padding), as it came in JSON.
    NotBase64,
    /// An id of a link is no text of hex digits, two for each byte.
    NotHex,
    /// Memory was refused.
    NoMemory,
}

impl fmt::Display for EncodeError {
    ghost use Rattle.std.specs.Prelude.{Some};
    ghost use Rattle.otlp_protobuf_encode.specs.FaultTexts.{fault_text};

    ghost output = { λ fault. Some (fault_text fault) };

    fn fmt<W: fmt::Write>(&self, f: &mut fmt::Formatter<W>) -> fmt::Result {
        match self {
            EncodeError::NotBase64 => f.write_str("a value of bytes is no base64 text"),
            EncodeError::NotHex => f.write_str("an id of a link is no text of hex digits"),
            EncodeError::NoMemory => f.write_str("no memory"),
        }
    }
}

impl Error for EncodeError {}

impl From<AllocError> for EncodeError {
    ghost use Rattle.std.specs.Prelude.{◌≡◌};
    ghost use Rattle.otlp_protobuf_encode.specs.declared.encode_error.EncodeError.TheVariants.{NoMemory};

    ghost from_gives = { λ _ e. e ≡ NoMemory };

    fn from(_refused: AllocError) -> EncodeError {
        EncodeError::NoMemory
    }
}
