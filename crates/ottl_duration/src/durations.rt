//! Durations by their texts.
ghost use Rattle.std.specs.Prelude.{◌≡◌, ◌≤◌, length};
ghost use Rattle.std.specs.Option.{option_map};
ghost use Rattle.ottl_duration.specs.Durations as spec;

use ottl_lengths::{behind, byte_at, digits_len, front, sign_len};

/// So many numbers with units may stand in a row.
const MOST_PARTS: usize = 100;

/// The duration that a text is, in nanoseconds: a sign or none, and then `0`, or up to 100 numbers each with its unit (`ns`,
/// `us`, `ms`, `s`, `m`, `h`). `None` where it is none, or not below 2^63.
#[tactic(auto, unfolding(crate::specs::Durations::duration_of))]
pub fn duration_of(text: &[u8]) -> Option<i64>
    ensures { result ≡ spec.duration_of text.now }
{
    let nanoseconds = unsigned_of(behind(text, sign_len(text)))?;
    signed(byte_at(text, 0) == b'-', nanoseconds)
}

/// A duration with its sign.
fn signed(negative: bool, nanoseconds: u64) -> Option<i64>
    ensures { result ≡ spec.signed negative (Some nanoseconds) }
{
    if nanoseconds > i64::MAX as u64 {
        return None;
    }
    if negative {
        Some(-(nanoseconds as i64))
    } else {
        Some(nanoseconds as i64)
    }
}

/// The nanoseconds of a text without its sign.
#[tactic(auto, unfolding(crate::specs::Durations::unsigned_of))]
fn unsigned_of(text: &[u8]) -> Option<u64>
    ensures { result ≡ spec.unsigned_of text.now }
{
    if text == b"0".as_slice() {
        return Some(0);
    }
    parts_from(MOST_PARTS, 0, text)
}

/// The nanoseconds of the numbers with units that follow, and of those before.
#[tactic(auto, unfolding(crate::specs::Durations::parts_from))]
fn parts_from(parts: usize, so_far: u64, text: &[u8]) -> Option<u64>
    ensures { result ≡ spec.parts_from parts so_far text.now }
{
    if parts == 0 {
        return None;
    }
    match part_at(text) {
        Some((nanoseconds, rest)) => {
            let so_far = so_far.saturating_add(nanoseconds);
            if rest.len() == 0 {
                Some(so_far)
            } else {
                parts_from(parts - 1, so_far, rest)
            }
        }
        None => None,
    }
}

/// The nanoseconds of a number with its unit at the front, and what is left.
#[tactic(auto, unfolding(crate::specs::Durations::part_at))]
fn part_at(text: &[u8]) -> Option<(u64, &[u8])>
    ensures { option_map (λ found. (found.0, found.1.now)) result ≡ spec.part_at text.now }
{
    let digits = digits_len(text);
    let whole = front(text, digits);
    let (fraction, rest) = fraction_at(behind(text, digits));
    if whole.len() == 0 && fraction.len() == 0 {
        return None;
    }
    with_unit(whole, fraction, rest)
}

/// The digits behind a point, where one stands, and what is left.
#[tactic(auto, unfolding(crate::specs::Durations::fraction_at))]
fn fraction_at(text: &[u8]) -> (&[u8], &[u8])
    ensures { (result.0.now, result.1.now) ≡ spec.fraction_at text.now }
{
    if byte_at(text, 0) == b'.' {
        let text = behind(text, 1);
        let digits = digits_len(text);
        (front(text, digits), behind(text, digits))
    } else {
        (&[], text)
    }
}

/// The nanoseconds of digits before a point and behind it, whose unit follows, and what is left.
#[tactic(auto, unfolding(crate::specs::Durations::with_unit))]
fn with_unit<'a>(whole: &[u8], fraction: &[u8], text: &'a [u8]) -> Option<(u64, &'a [u8])>
    ensures { option_map (λ found. (found.0, found.1.now)) result ≡ spec.with_unit whole.now fraction.now text.now }
{
    let letters = unit_len(text);
    match unit_of(front(text, letters)) {
        Some(unit) => {
            let nanoseconds = number_of(whole).saturating_mul(unit);
            let all = nanoseconds.saturating_add(fraction_of(unit, fraction));
            Some((all, behind(text, letters)))
        }
        None => None,
    }
}

/// How long the unit at the front is: it goes on to the next digit or point.
#[tactic(auto, unfolding(crate::specs::Durations::unit_len))]
fn unit_len(text: &[u8]) -> usize
    ensures { result ≡ spec.unit_len text.now }
{
    text.iter().take_while(|byte| is_of_unit(**byte)).count()
}

fn is_of_unit(byte: u8) -> bool
    ensures { result ≡ spec.is_of_unit byte }
{
    !(byte.is_ascii_digit() || byte == b'.')
}

/// The nanoseconds of a unit.
fn unit_of(letters: &[u8]) -> Option<u64>
    ensures { result ≡ spec.unit_of letters.now }
{
    if letters == b"ns".as_slice() {
        Some(1)
    } else if letters == b"us".as_slice() {
        Some(1_000)
    } else if letters == [194, 181, b's'].as_slice() {
        Some(1_000)
    } else if letters == [206, 188, b's'].as_slice() {
        Some(1_000)
    } else if letters == b"ms".as_slice() {
        Some(1_000_000)
    } else if letters == b"s".as_slice() {
        Some(1_000_000_000)
    } else if letters == b"m".as_slice() {
        Some(60_000_000_000)
    } else if letters == b"h".as_slice() {
        Some(3_600_000_000_000)
    } else {
        None
    }
}

/// The number that digits write, or 2^64 - 1.
fn number_of(digits: &[u8]) -> u64
    ensures { result ≡ spec.number_from 0 digits.now }
{
    let mut number: u64 = 0;
    for digit in digits {
        number = number
            .saturating_mul(10)
            .saturating_add(u64::from(digit.saturating_sub(b'0')));
    }
    number
}

/// What digits behind a point make of a unit. From the last digit on, a tenth is taken at each.
fn fraction_of(unit: u64, digits: &[u8]) -> u64
    ensures { result ≡ spec.fraction_of unit digits.now }
{
    let mut part: u64 = 0;
    let mut at = digits.len();
    while at > 0 {
        at -= 1;
        let digit = u64::from(digits[at].saturating_sub(b'0'));
        part = digit.saturating_mul(unit).saturating_add(part) / 10;
    }
    part
}
