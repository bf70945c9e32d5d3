//! The bytes of literals and attributes.
ghost use Rattle.std.specs.Prelude.{◌≡◌, ◌<◌, IfSome};
ghost use Rattle.std.specs.Ordering.{nat_cmp};
ghost use Rattle.std.specs.Cmp.Lexicographic.{slice_cmp};
ghost use Rattle.ottl_equality.specs.Encoded as spec;

use std::cmp::Ordering;

/// One of the three bytes that four letters of base64 are.
#[derive(Clone, Copy)]
pub enum Part {
    First,
    Second,
    Third,
}

/// Bytes that are written out, or letters of base64 from a byte on.
#[derive(Clone, Copy)]
pub enum Bytes<'a> {
    Plain(&'a [u8]),
    Encoded(Part, &'a [u8]),
}

/// The six bits of a letter.
fn sextet(letter: u8) -> Option<u8>
    ensures bits { result ≡ spec.sextet letter }
    ensures small { IfSome result (λ bits. bits < 64) }
{
    match letter {
        b'A'..=b'Z' => Some(letter - b'A'),
        b'a'..=b'z' => Some(letter - b'a' + 26),
        b'0'..=b'9' => Some(letter - b'0' + 52),
        b'+' => Some(62),
        b'/' => Some(63),
        _ => None,
    }
}

/// The byte that lies in two times six bits.
fn byte_of(part: Part, first: u8, second: u8) -> u8
    requires first { first < 64 }
    requires second { second < 64 }
    ensures { result ≡ spec.byte_of part first second }
{
    match part {
        Part::First => first * 4 + second / 16,
        Part::Second => first % 16 * 16 + second / 4,
        Part::Third => first % 4 * 64 + second,
    }
}

/// The byte that lies in two letters.
fn byte_in(part: Part, first: u8, second: u8) -> Option<u8>
    ensures { result ≡ spec.byte_in part (spec.sextet first) (spec.sextet second) }
{
    match (sextet(first), sextet(second)) {
        (Some(first), Some(second)) => Some(byte_of(part, first, second)),
        _ => None,
    }
}

/// The first byte of letters, and the others.
fn decoded(part: Part, letters: &[u8]) -> Option<(u8, Bytes<'_>)>
    ensures { spec.parted_of result ≡ spec.parted (spec.bytes_from part letters.now) }
{
    let (first, behind) = letters.split_first()?;
    let (second, rest) = behind.split_first()?;
    let byte = byte_in(part, *first, *second)?;
    match part {
        Part::First => Some((byte, Bytes::Encoded(Part::Second, behind))),
        Part::Second => Some((byte, Bytes::Encoded(Part::Third, behind))),
        Part::Third => Some((byte, Bytes::Encoded(Part::First, rest))),
    }
}

impl<'a> Bytes<'a> {
    /// The first byte, and the others.
    fn parted(self) -> Option<(u8, Bytes<'a>)>
        ensures { spec.parted_of result ≡ spec.parted (spec.bytes_of self.entry) }
    {
        match self {
            Bytes::Plain([first, rest @ ..]) => Some((*first, Bytes::Plain(rest))),
            Bytes::Plain([]) => None,
            Bytes::Encoded(part, letters) => decoded(part, letters),
        }
    }
}

/// The order of bytes: that of the first that differ, and else the shorter ones come first.
pub fn order(mut left: Bytes<'_>, mut right: Bytes<'_>) -> Ordering
    ensures { result ≡ slice_cmp nat_cmp (spec.bytes_of left.entry) (spec.bytes_of right.entry) }
{
    loop {
        match (left.parted(), right.parted()) {
            (None, None) => return Ordering::Equal,
            (None, Some(_)) => return Ordering::Less,
            (Some(_), None) => return Ordering::Greater,
            (Some((first, others)), Some((second, behind))) => {
                if first != second {
                    return first.cmp(&second);
                }
                left = others;
                right = behind;
            }
        }
    }
}
