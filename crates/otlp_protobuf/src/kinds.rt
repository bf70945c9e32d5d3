//! Values of fields, by the kinds of the fields.
ghost use Rattle.std.specs.Prelude.{◌≡◌, IfOk};
ghost use Rattle.base64.specs.Engines.{standard};
ghost use Rattle.base64.specs.GeneralPurpose.{encode_of};
ghost use Rattle.hex.specs.Hex.{encode_lower};
ghost use Rattle.otlp_protobuf.specs.Kinds.{text, int32, int64, uint32, truth, double};
ghost use Rattle.otlp_protobuf.specs.Gives.{Gives};

use crate::decode_error::DecodeError;
use crate::protobuf_fault::ProtobufFault;
use base64::engine::general_purpose::STANDARD;
use otlp_types::{Double, Text};
use std::alloc::{AllocError, Global};
use std::num::f64_from_bits_with_nan;

/// A `string`: a text in UTF-8, copied.
pub fn text(alloc: Global, bytes: &[u8]) -> Result<Text, DecodeError>
    ensures { Gives result (text bytes.now) }
{
    match str::from_utf8(bytes) {
        Ok(text) => Ok(Text::from_str(alloc, text)?),
        Err(_) => Err(DecodeError::Refused(ProtobufFault::Utf8)),
    }
}

/// An `int32`, or the number of an enumeration.
pub fn int32(bits: u64) -> i32
    ensures { result ≡ int32 bits }
{
    uint32(bits).cast_signed()
}

/// An `int64`.
pub fn int64(bits: u64) -> i64
    ensures { result ≡ int64 bits }
{
    bits.cast_signed()
}

/// A `uint32`.
pub fn uint32(bits: u64) -> u32
    ensures { result ≡ uint32 bits }
{
    (bits % 0x1_0000_0000) as u32
}

/// A `bool`.
pub fn truth(bits: u64) -> bool
    ensures { result ≡ truth bits }
{
    bits != 0
}

/// A `double`. Each NaN is the same one.
pub fn double(bits: u64) -> Double
    ensures { result ≡ double bits }
{
    Double::new(f64_from_bits_with_nan(bits))
}

/// The base64 text of `bytes`, as the JSON encoding has it (RFC 4648, section 4, with padding).
pub fn base64_text(alloc: Global, bytes: &[u8]) -> Result<Text, AllocError>
    ensures { IfOk result (λ text. text ≡ encode_of standard bytes.now) }
{
    Ok(Text::from_string(STANDARD.encode(alloc, bytes)?))
}

/// The lower-case hex digits of an id, as the JSON encoding of OTLP 1.x has it.
pub fn hex_text(alloc: Global, bytes: &[u8]) -> Result<Text, AllocError>
    ensures { IfOk result (λ text. text ≡ encode_lower bytes.now) }
{
    Ok(Text::from_string(hex::encode(alloc, bytes)?))
}
