//! Whether a decimal is the closest, by the leading bits of the powers of ten.
ghost use Rattle.std.specs.Prelude.{◌≡◌, ◌+◌, ◌-◌, ◌*◌, ◌^◌, ◌<◌, ◌≤◌, IsTrue};
ghost use Rattle.shortest_float.specs.Decimals.{closest_multiple};
ghost use Rattle.shortest_float.specs.Orders.{product};

use crate::size::Size;
use fast_float::power_of_ten;

const LOW_WORD: u128 = 0xffff_ffff_ffff_ffff;

/// Whether `digits` is seen to be the multiple of 10 ^ (`power` - 342) that is closest to the size. It can be so unseen
/// where the size is about halfway between two multiples.
#[inline(always)]
pub(crate) fn is_near(size: Size, power: u64, digits: u64) -> bool
    requires finite { (0 < size.significand) × (size.significand < 2 ^ 53) × (size.exponent ≤ 2045) }
    requires digits { (0 < digits) × (digits < 10 ^ 18) × (power ≤ 650) }
    ensures { IsTrue result
        → closest_multiple (size.significand * 2 ^ size.exponent) power ≡ digits }
{
    if power < 17 {
        return false;
    }
    let index = 684 - power;
    // The row holds the 128 leading bits of 10 ^ (342 - power), of which so many less 1266 stand before the point.
    let places = size.exponent + (index * 217_706 + 58_980) / 65_536 + 2;
    if places > 2276 || places <= 2148 {
        return false;
    }
    let twice = 2 * leading_product(power_of_ten(index), size.significand);
    lies_between(twice, 2276 - places, 2 * digits)
}

/// The row times the significand, without its lowest 64 bits, or 1 less.
#[inline(always)]
fn leading_product(row: u128, significand: u64) -> u128
    requires { significand < 2 ^ 53 }
    ensures same { result ≡ product row significand }
    ensures small { result < 2 ^ 120 }
{
    (row >> 64) * significand as u128 + (((row & LOW_WORD) * significand as u128) >> 64)
}

/// Whether each number from `twice` up to `twice` + 4, over 2 ^ `shift`, lies between the numbers beside `middle`.
#[inline(always)]
fn lies_between(twice: u128, shift: u64, middle: u64) -> bool
    requires { (shift < 128) × (twice < 2 ^ 127) × (1 < middle) × (middle < 2 ^ 63) }
    ensures lower { IsTrue result → (middle - 1) * 2 ^ shift < twice }
    ensures upper { IsTrue result → twice + 4 ≤ (middle + 1) * 2 ^ shift }
{
    twice.saturating_sub(1) >> shift >= middle as u128 - 1 && (twice + 3) >> shift <= middle as u128
}
