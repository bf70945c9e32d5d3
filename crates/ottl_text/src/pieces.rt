//! Pieces and literals with the columns of their faults.
ghost use Rattle.std.specs.Prelude.{◌≡◌};
ghost use Rattle.ottl_text.specs.Gives.{GivesAs};
ghost use Rattle.ottl_text.specs.Grammar as spec;
ghost use Rattle.ottl_text.specs.Syntax.{term_of};
ghost use Rattle.ottl_text.specs.Tokens.{piece_of};

use crate::expression::{Case, Expression, Key, Literal};
use crate::fault::{Fault, FaultKind, ParseError};
use crate::kind_error::KindError;
use crate::literals::{bytes_of, float_of, int_of, text_of};
use crate::names::case_named;
use crate::token::{Token, next};
use otlp_types::{List, Text};
use ottl_lengths::skip_blank;
use std::alloc::Global;

/// What is answered where something is wrong with the piece that the bytes begin with; `behind` is the column behind the
/// last byte.
pub(crate) fn refused(behind: usize, kind: FaultKind, bytes: &[u8]) -> ParseError
    ensures { result ≡ ParseError.Refused (spec.fault_at behind kind bytes.now) }
{
    ParseError::Refused(Fault {
        kind,
        column: behind.saturating_sub(skip_blank(bytes).len()),
    })
}

/// A fault of a piece, with the column of the piece.
fn error_at(behind: usize, error: KindError, bytes: &[u8]) -> ParseError
    ensures { result ≡ spec.error_at behind error bytes.now }
{
    match error {
        KindError::Refused(kind) => refused(behind, kind, bytes),
        KindError::NoMemory => ParseError::NoMemory,
    }
}

/// The next piece, and what is left.
#[tactic(auto, unfolding(crate::specs::Grammar::next_at))]
pub(crate) fn next_at(behind: usize, bytes: &[u8]) -> Result<(Token<'_>, &[u8]), ParseError>
    ensures { GivesAs (λ found. (piece_of found.0, found.1.now)) result (spec.next_at behind bytes.now) }
{
    match next(bytes) {
        Ok(found) => Ok(found),
        Err(kind) => Err(refused(behind, kind, bytes)),
    }
}

/// Whether the piece is this parenthesis, bracket or comma.
pub(crate) fn is_the_sign(sign: u8, token: Token<'_>) -> bool
    ensures { result ≡ spec.is_the_sign sign (piece_of token.entry) }
{
    match token {
        Token::Sign(byte) => byte == sign,
        _ => false,
    }
}

/// Whether the piece is the end.
pub(crate) fn is_end(token: Token<'_>) -> bool
    ensures { result ≡ spec.is_end (piece_of token.entry) }
{
    matches!(token, Token::End)
}

/// What is left behind this sign, which has to come next.
#[tactic(auto, unfolding(crate::specs::Grammar::after_sign))]
pub(crate) fn after_sign(
    behind: usize,
    sign: u8,
    kind: FaultKind,
    bytes: &[u8],
) -> Result<&[u8], ParseError>
    ensures { GivesAs (λ rest. rest.now) result (spec.after_sign behind sign kind bytes.now) }
{
    let (token, rest) = next_at(behind, bytes)?;
    if is_the_sign(sign, token) {
        Ok(rest)
    } else {
        Err(refused(behind, kind, bytes))
    }
}

/// A text with the column of its fault.
#[tactic(auto, unfolding(crate::specs::Grammar::text_at))]
fn text_at(alloc: Global, behind: usize, written: &[u8], bytes: &[u8]) -> Result<Text, ParseError>
    ensures { GivesAs (λ text. text) result (spec.text_at behind written.now bytes.now) }
{
    match text_of(alloc, written) {
        Ok(text) => Ok(text),
        Err(error) => Err(error_at(behind, error, bytes)),
    }
}

/// Bytes with the column of their fault.
#[tactic(auto, unfolding(crate::specs::Grammar::bytes_at))]
fn bytes_at(
    alloc: Global,
    behind: usize,
    written: &[u8],
    bytes: &[u8],
) -> Result<List<u8>, ParseError>
    ensures { GivesAs (λ found. found) result (spec.bytes_at behind written.now bytes.now) }
{
    match bytes_of(alloc, written) {
        Ok(found) => Ok(found),
        Err(error) => Err(error_at(behind, error, bytes)),
    }
}

/// A whole number with the column of its fault.
#[tactic(auto, unfolding(crate::specs::Grammar::int_at))]
fn int_at(behind: usize, written: &[u8], bytes: &[u8]) -> Result<i64, ParseError>
    ensures { GivesAs (λ number. number) result (spec.int_at behind written.now bytes.now) }
{
    match int_of(written) {
        Ok(number) => Ok(number),
        Err(kind) => Err(refused(behind, kind, bytes)),
    }
}

/// A float with the column of its fault.
#[tactic(auto, unfolding(crate::specs::Grammar::float_at))]
fn float_at(behind: usize, written: &[u8], bytes: &[u8]) -> Result<f64, ParseError>
    ensures { GivesAs (λ number. number) result (spec.float_at behind written.now bytes.now) }
{
    match float_of(written) {
        Ok(number) => Ok(number),
        Err(kind) => Err(refused(behind, kind, bytes)),
    }
}

/// A literal that is no name, with which the bytes begin.
#[tactic(auto, unfolding(crate::specs::Grammar::literal_at))]
pub(crate) fn literal_at(
    alloc: Global,
    behind: usize,
    token: Token<'_>,
    bytes: &[u8],
) -> Result<Literal, ParseError>
    ensures { GivesAs (λ found. found) result (spec.literal_at behind (piece_of token.entry) bytes.now) }
{
    match token {
        Token::Bytes(written) => Ok(Literal::Bytes(bytes_at(alloc, behind, written, bytes)?)),
        Token::Float(written) => Ok(Literal::Float(float_at(behind, written, bytes)?)),
        Token::Int(written) => Ok(Literal::Int(int_at(behind, written, bytes)?)),
        Token::Text(written) => Ok(Literal::Text(text_at(alloc, behind, written, bytes)?)),
        _ => Err(refused(behind, FaultKind::NoValueHere, bytes)),
    }
}

/// A key that the piece is, with which the bytes begin.
#[tactic(auto, unfolding(crate::specs::Grammar::key_of))]
fn key_of(alloc: Global, behind: usize, token: Token<'_>, bytes: &[u8]) -> Result<Key, ParseError>
    ensures { GivesAs (λ key. key) result (spec.key_of behind (piece_of token.entry) bytes.now) }
{
    match token {
        Token::Int(written) => Ok(Key::Index(int_at(behind, written, bytes)?)),
        Token::Text(written) => Ok(Key::Text(text_at(alloc, behind, written, bytes)?)),
        _ => Err(refused(behind, FaultKind::NoKey, bytes)),
    }
}

/// A key, and what is left.
#[tactic(auto, unfolding(crate::specs::Grammar::key_at))]
pub(crate) fn key_at(alloc: Global, behind: usize, bytes: &[u8]) -> Result<(Key, &[u8]), ParseError>
    ensures { GivesAs (λ found. (found.0, found.1.now)) result (spec.key_at behind bytes.now) }
{
    let (token, rest) = next_at(behind, bytes)?;
    let key = key_of(alloc, behind, token, bytes)?;
    Ok((key, rest))
}

/// A regular expression, and what is left.
#[tactic(auto, unfolding(crate::specs::Grammar::pattern_at))]
pub(crate) fn pattern_at(
    alloc: Global,
    behind: usize,
    bytes: &[u8],
) -> Result<(Text, &[u8]), ParseError>
    ensures { GivesAs (λ found. (found.0, found.1.now)) result (spec.pattern_at behind bytes.now) }
{
    let (token, rest) = next_at(behind, bytes)?;
    match token {
        Token::Text(written) => {
            let text = text_at(alloc, behind, written, bytes)?;
            Ok((text, rest))
        }
        _ => Err(refused(behind, FaultKind::NoPattern, bytes)),
    }
}

/// What `ConvertCase` makes of letters, and what is left.
#[tactic(auto, unfolding(crate::specs::Grammar::case_at))]
pub(crate) fn case_at(behind: usize, bytes: &[u8]) -> Result<(Case, &[u8]), ParseError>
    ensures { GivesAs (λ found. (found.0, found.1.now)) result (spec.case_at behind bytes.now) }
{
    let (token, rest) = next_at(behind, bytes)?;
    match token {
        Token::Text(written) => match case_named(written) {
            Some(case) => Ok((case, rest)),
            None => Err(refused(behind, FaultKind::NoCase, bytes)),
        },
        _ => Err(refused(behind, FaultKind::NoCase, bytes)),
    }
}

/// What `Concat` puts between texts, and what is left behind its call.
#[tactic(auto, unfolding(crate::specs::Grammar::delimiter_at))]
pub(crate) fn delimiter_at(
    alloc: Global,
    behind: usize,
    bytes: &[u8],
) -> Result<(Text, &[u8]), ParseError>
    ensures { GivesAs (λ found. (found.0, found.1.now)) result (spec.delimiter_at behind bytes.now) }
{
    let bytes = after_sign(behind, b',', FaultKind::NoComma, bytes)?;
    let (token, rest) = next_at(behind, bytes)?;
    match token {
        Token::Text(written) => {
            let delimiter = text_at(alloc, behind, written, bytes)?;
            let rest = after_sign(behind, b')', FaultKind::NoClosing, rest)?;
            Ok((delimiter, rest))
        }
        _ => Err(refused(behind, FaultKind::NoDelimiter, bytes)),
    }
}

/// `Concat` of no value, behind `]`.
#[tactic(auto, unfolding(crate::specs::Grammar::no_values_at))]
pub(crate) fn no_values_at(
    alloc: Global,
    behind: usize,
    bytes: &[u8],
) -> Result<(Expression, &[u8]), ParseError>
    ensures { GivesAs (λ found. (term_of found.0, found.1.now)) result (spec.no_values_at behind bytes.now) }
{
    // It is read as if the empty text stood there (D-355).
    let (_, rest) = delimiter_at(alloc, behind, bytes)?;
    Ok((Expression::Literal(Literal::Text(Text::new(alloc))), rest))
}
