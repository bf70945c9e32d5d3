//! What the pieces of a text that are literals write.
ghost use Rattle.std.specs.Prelude.{◌≡◌, false, [], Some};
ghost use Rattle.ottl_text.specs.Literals as spec;
ghost use Rattle.ottl_text.specs.Gives.{seen_as, KindGives};

use crate::fault::FaultKind;
use crate::kind_error::KindError;
use hex::FromHexError;
use otlp_types::{List, Text};
use std::alloc::Global;

/// The whole number that a sign or none and digits write. `Err` where they write none, or one of more than 64 bits.
pub fn int_of(digits: &[u8]) -> Result<i64, FaultKind>
    ensures { result ≡ spec.int_of digits.now }
{
    match fast_float::parse_i64(digits) {
        Ok(number) => Ok(number),
        Err(_) => Err(FaultKind::NumberTooBig),
    }
}

/// The nearest float to what a text writes. `Err` where it writes no number, or that is an infinity.
#[tactic(auto, unfolding(crate::specs::Literals::float_of))]
pub fn float_of(digits: &[u8]) -> Result<f64, FaultKind>
    ensures { result ≡ spec.float_of digits.now }
{
    match fast_float::parse::<f64, _>(digits) {
        Ok(number) if number.is_finite() => Ok(number),
        _ => Err(FaultKind::NumberTooBig),
    }
}

/// The bytes that hex digits write.
#[tactic(auto, unfolding(crate::specs::Literals::bytes_of))]
pub(crate) fn bytes_of(alloc: Global, digits: &[u8]) -> Result<List<u8>, KindError>
    ensures { KindGives (λ bytes. bytes) result (spec.bytes_of digits.now) }
{
    match hex::decode(alloc, digits) {
        Ok(bytes) => Ok(List::from_vec(bytes)),
        Err(FromHexError::OutOfMemory) => Err(KindError::NoMemory),
        Err(_) => Err(KindError::Refused(FaultKind::OddDigits)),
    }
}

/// The text that is written between quotes.
#[tactic(auto, unfolding(crate::specs::Literals::text_of))]
pub(crate) fn text_of(alloc: Global, written: &[u8]) -> Result<Text, KindError>
    ensures { KindGives (λ text. text) result (spec.text_of written.now) }
{
    let bytes = unescaped(alloc, written)?;
    in_utf8(alloc, &bytes)
}

/// The bytes that are written between quotes.
fn unescaped(alloc: Global, written: &[u8]) -> Result<Vec<u8>, KindError>
    ensures { KindGives (λ bytes. bytes.items) result (spec.unescape (false, []) written.now) }
{
    let mut bytes = Vec::with_capacity(alloc, written.len())?;
    let mut escaped = false;
    for byte in written {
        escaped = put_byte(&mut bytes, escaped, *byte)?;
    }
    Ok(bytes)
}

/// Puts what a byte adds last, before which a backslash stands or not; whether one stands before the next.
fn put_byte(bytes: &mut Vec<u8>, escaped: bool, byte: u8) -> Result<bool, KindError>
    ensures { KindGives (λ next. (next, bytes.new.items)) result (spec.unescape_byte escaped bytes.old.items byte) }
{
    if escaped {
        let stands_for = escape_of(byte);
        if stands_for == 0 {
            return Err(KindError::Refused(FaultKind::UnknownEscape));
        }
        bytes.push(stands_for)?;
        return Ok(false);
    }
    if byte == b'\\' {
        return Ok(true);
    }
    if byte == b'\n' {
        return Err(KindError::Refused(FaultKind::LineEnd));
    }
    bytes.push(byte)?;
    Ok(false)
}

/// What a byte behind a backslash stands for, or 0.
fn escape_of(byte: u8) -> u8
    ensures { result ≡ spec.escape_of byte }
{
    match byte {
        b'"' => b'"',
        b'\\' => b'\\',
        b'a' => 7,
        b'b' => 8,
        b'f' => 12,
        b'n' => 10,
        b'r' => 13,
        b't' => 9,
        b'v' => 11,
        _ => 0,
    }
}

/// A text in UTF-8, copied.
fn in_utf8(alloc: Global, bytes: &[u8]) -> Result<Text, KindError>
    ensures { KindGives (λ text. text) result (spec.in_utf8 bytes.now) }
{
    match str::from_utf8(bytes) {
        Ok(text) => Ok(Text::from_str(alloc, text)?),
        Err(_) => Err(KindError::Refused(FaultKind::Utf8)),
    }
}
