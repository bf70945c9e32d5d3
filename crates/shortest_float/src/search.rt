//! The shortest decimal by exact numbers alone, from the largest power down. It takes thousands of steps, and stands
//! behind a guess that no float is known to refute.
ghost use Rattle.std.specs.Prelude.{◌≡◌, ◌+◌, ◌*◌, ◌^◌, ◌<◌, ◌≤◌, true, false, IfSome, IfNone};
ghost use Rattle.shortest_float.specs.Decimals.{multiple_below, closest_multiple, has_decimal, digits_over, shortest_power, shortest_digits};
ghost use Rattle.shortest_float.specs.Sizes.{IsFinite};

use crate::exact::{compare_twice, multiples_below};
use crate::reading::{LARGEST_POWER, reads_as};
use crate::shortest::Decimal;
use crate::size::Size;
use std::cmp::Ordering;

/// The decimal with the fewest digits that reads as the float, the closest such one.
#[cold]
pub(crate) fn search(size: Size) -> Decimal
    requires { IsFinite size.bits size.significand size.exponent }
    ensures power { result.power ≡ shortest_power size.bits (size.significand * 2 ^ size.exponent) }
    ensures digits { result.digits
        ≡ shortest_digits size.bits (size.significand * 2 ^ size.exponent) }
    ensures range { (0 < result.digits) × (result.digits < 10 ^ 18) × (result.power ≤ 650) }
{
    let mut power = LARGEST_POWER;
    loop {
        if let Some(digits) = digits_at(size, power) {
            return Decimal { digits, power };
        }
        power -= 1;
    }
}

/// The multiple of 10 ^ (`power` - 342) that reads as the float, the closest such one.
fn digits_at(size: Size, power: u64) -> Option<u64>
    requires finite { IsFinite size.bits size.significand size.exponent }
    requires small { multiple_below (size.significand * 2 ^ size.exponent) power < 40 * 2 ^ 53 }
    requires power { power ≤ 650 }
    ensures some { IfSome result (λ d.
        (has_decimal size.bits (size.significand * 2 ^ size.exponent) power ≡ true)
        × (d ≡ digits_over size.bits (size.significand * 2 ^ size.exponent) power)) }
    ensures none { IfNone result
        (has_decimal size.bits (size.significand * 2 ^ size.exponent) power ≡ false) }
{
    let below = multiples_below(size, power);
    let lower = reads_as(size.bits, power, below);
    let upper = reads_as(size.bits, power, below + 1);
    if lower {
        if upper {
            Some(closer(size, power, below))
        } else {
            Some(below)
        }
    } else if upper {
        Some(below + 1)
    } else {
        None
    }
}

/// The closer of two multiples of the power of ten, between which the size lies, or the even one.
fn closer(size: Size, power: u64, below: u64) -> u64
    requires finite { (size.significand < 2 ^ 53) × (size.exponent ≤ 2045) }
    requires below { below ≡ multiple_below (size.significand * 2 ^ size.exponent) power }
    requires small { (below < 40 * 2 ^ 53) × (power ≤ 650) }
    ensures { result ≡ closest_multiple (size.significand * 2 ^ size.exponent) power }
{
    match compare_twice(size, power, 2 * below + 1) {
        Ordering::Less => below,
        Ordering::Equal => below + below % 2,
        Ordering::Greater => below + 1,
    }
}
