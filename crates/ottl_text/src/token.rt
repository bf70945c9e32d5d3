//! The pieces of a text.
ghost use Rattle.std.specs.Prelude.{◌≡◌, slice_index};
ghost use Rattle.ottl_text.specs.Gives.{seen_as};
ghost use Rattle.ottl_text.specs.Tokens as spec;

use crate::expression::Binary;
use crate::fault::FaultKind;
use ottl_lengths::{
    behind, byte_at, bytes_len, float_len, front, int_len, quote_at, skip_blank, word_len,
};

/// A piece of a text.
#[derive(Clone, Copy)]
pub(crate) enum Token<'a> {
    /// There is no more.
    End,
    /// The digits behind `0x`.
    Bytes(&'a [u8]),
    Float(&'a [u8]),
    Int(&'a [u8]),
    /// What stands between the quotes.
    Text(&'a [u8]),
    /// A name, with its dots.
    Word(&'a [u8]),
    Operator(Binary),
    /// A parenthesis, a bracket or a comma.
    Sign(u8),
}

/// The first piece of a text, and what is left behind it.
#[tactic(auto, unfolding(crate::specs::Tokens::next_piece, crate::specs::Tokens::piece_at))]
pub(crate) fn next(text: &[u8]) -> Result<(Token<'_>, &[u8]), FaultKind>
    ensures { seen_as (λ found. (spec.piece_of found.0, found.1.now)) result ≡ spec.next_piece text.now }
{
    let text = skip_blank(text);
    if text.len() == 0 {
        return Ok((Token::End, text));
    }
    let digits = bytes_len(text);
    if 0 < digits {
        return Ok((
            Token::Bytes(behind(front(text, digits), 2)),
            behind(text, digits),
        ));
    }
    // Before whole numbers, since a float begins with digits, too.
    let digits = float_len(text);
    if 0 < digits {
        return Ok((Token::Float(front(text, digits)), behind(text, digits)));
    }
    let digits = int_len(text);
    if 0 < digits {
        return Ok((Token::Int(front(text, digits)), behind(text, digits)));
    }
    unnumbered(text)
}

/// A name, a text or a mark.
#[tactic(auto, unfolding(crate::specs::Tokens::unnumbered))]
fn unnumbered(text: &[u8]) -> Result<(Token<'_>, &[u8]), FaultKind>
    ensures { seen_as (λ found. (spec.piece_of found.0, found.1.now)) result ≡ spec.unnumbered text.now }
{
    let letters = word_len(text);
    if 0 < letters {
        Ok((Token::Word(front(text, letters)), behind(text, letters)))
    } else if byte_at(text, 0) == b'"' {
        quoted(behind(text, 1))
    } else {
        marked(text)
    }
}

/// What stands between the quote that stood before and the next.
#[tactic(auto, unfolding(crate::specs::Tokens::quoted))]
fn quoted(text: &[u8]) -> Result<(Token<'_>, &[u8]), FaultKind>
    ensures { seen_as (λ found. (spec.piece_of found.0, found.1.now)) result ≡ spec.quoted text.now }
{
    let end = quote_at(text);
    if end < text.len() {
        Ok((Token::Text(front(text, end)), behind(text, end + 1)))
    } else {
        Err(FaultKind::OpenText)
    }
}

/// An operator of two bytes, or else of one, or a sign.
#[tactic(auto, unfolding(crate::specs::Tokens::marked))]
fn marked(text: &[u8]) -> Result<(Token<'_>, &[u8]), FaultKind>
    ensures { seen_as (λ found. (spec.piece_of found.0, found.1.now)) result ≡ spec.marked text.now }
{
    let first = byte_at(text, 0);
    if let Some(operator) = long_operator(first, byte_at(text, 1)) {
        return Ok((Token::Operator(operator), behind(text, 2)));
    }
    if let Some(operator) = short_operator(first) {
        return Ok((Token::Operator(operator), behind(text, 1)));
    }
    if is_sign(first) {
        Ok((Token::Sign(first), behind(text, 1)))
    } else {
        Err(FaultKind::UnknownCharacter)
    }
}

/// An operator of two bytes.
fn long_operator(first: u8, second: u8) -> Option<Binary>
    ensures { result ≡ spec.long_operator first second }
{
    if second != b'=' {
        return None;
    }
    match first {
        b'=' => Some(Binary::Equal),
        b'!' => Some(Binary::NotEqual),
        b'>' => Some(Binary::AtLeast),
        b'<' => Some(Binary::AtMost),
        _ => None,
    }
}

/// An operator of one byte.
fn short_operator(byte: u8) -> Option<Binary>
    ensures { result ≡ spec.short_operator byte }
{
    match byte {
        b'>' => Some(Binary::Greater),
        b'<' => Some(Binary::Less),
        b'+' => Some(Binary::Add),
        b'-' => Some(Binary::Subtract),
        b'*' => Some(Binary::Multiply),
        b'/' => Some(Binary::Divide),
        _ => None,
    }
}

fn is_sign(byte: u8) -> bool
    ensures { result ≡ spec.is_sign byte }
{
    byte == b'(' || byte == b')' || byte == b'[' || byte == b']' || byte == b','
}
