//! Exact comparisons of a float with multiples of a power of ten.
ghost use Rattle.std.specs.Prelude.{◌≡◌, ◌+◌, ◌*◌, ◌^◌, ◌<◌, ◌≤◌, nat_lt, IsTrue};
ghost use Rattle.std.specs.Ordering.{nat_cmp};
ghost use Rattle.shortest_float.specs.Decimals.{over, under, multiple_below, closest_multiple};
ghost use Rattle.shortest_float.specs.Orders.{is_between};

use crate::natural::Natural;
use crate::size::Size;
use std::cmp::Ordering;

/// More than the multiples that have to be tried.
const MOST_MULTIPLES: u64 = 40 << 53;

/// The order of twice the size and `count` times 10 ^ (`power` - 342).
pub(crate) fn compare_twice(size: Size, power: u64, count: u64) -> Ordering
    requires finite { (size.significand < 2 ^ 53) × (size.exponent ≤ 2045) }
    requires power { power ≤ 650 }
    ensures { result ≡ nat_cmp (2 * over (size.significand * 2 ^ size.exponent) power) (count * under power) }
{
    let shared = size.exponent.min(1074);
    let mut left = Natural::of_word(2 * size.significand);
    left.multiply_by_tens(342u64.saturating_sub(power));
    left.multiply_by_twos(size.exponent - shared);
    let mut right = Natural::of_word(count);
    right.multiply_by_tens(power.saturating_sub(342));
    right.multiply_by_twos(1074 - shared);
    left.compare(&right)
}

/// Whether twice the size is less than `count` times 10 ^ (`power` - 342).
fn is_below(size: Size, power: u64, count: u64) -> bool
    requires finite { (size.significand < 2 ^ 53) × (size.exponent ≤ 2045) }
    requires power { power ≤ 650 }
    ensures { result ≡ nat_lt (2 * over (size.significand * 2 ^ size.exponent) power) (count * under power) }
{
    compare_twice(size, power, count).is_lt()
}

/// Whether `digits` is the multiple of 10 ^ (`power` - 342) that is closest to the size.
#[cold]
pub(crate) fn is_closest(size: Size, power: u64, digits: u64) -> bool
    requires finite { (size.significand < 2 ^ 53) × (size.exponent ≤ 2045) }
    requires digits { (0 < digits) × (digits < 10 ^ 18) × (power ≤ 650) }
    ensures { IsTrue result → closest_multiple (size.significand * 2 ^ size.exponent) power ≡ digits }
{
    let lower = compare_twice(size, power, 2 * digits - 1);
    let upper = compare_twice(size, power, 2 * digits + 1);
    is_between(lower, upper, digits % 2 == 0)
}

/// Whether a number lies between two halfway points, by how it compares with them; at one of them where `even` says so.
fn is_between(lower: Ordering, upper: Ordering, even: bool) -> bool
    ensures { result ≡ is_between lower upper even }
{
    match lower {
        Ordering::Less => false,
        Ordering::Equal => even,
        Ordering::Greater => match upper {
            Ordering::Less => true,
            Ordering::Equal => even,
            Ordering::Greater => false,
        },
    }
}

/// How many times 10 ^ (`power` - 342) goes into the size.
pub(crate) fn multiples_below(size: Size, power: u64) -> u64
    requires finite { (size.significand < 2 ^ 53) × (size.exponent ≤ 2045) }
    requires small { multiple_below (size.significand * 2 ^ size.exponent) power < 40 * 2 ^ 53 }
    requires power { power ≤ 650 }
    ensures { result ≡ multiple_below (size.significand * 2 ^ size.exponent) power }
{
    if is_below(size, power, 2) {
        return 0;
    }
    let mut least = 1;
    let mut beyond = MOST_MULTIPLES;
    while beyond - least > 1 {
        let middle = (least + beyond) / 2;
        if is_below(size, power, 2 * middle) {
            beyond = middle;
        } else {
            least = middle;
        }
    }
    least
}
