//! The shortest decimal that reads as a float.
ghost use Rattle.std.specs.Prelude.{◌≡◌, ◌+◌, ◌-◌, ◌*◌, ◌/◌, ◌^◌, ◌<◌, ◌≤◌, false, IsTrue};
ghost use Rattle.shortest_float.specs.Decimals.{reads, shortest_power, shortest_digits};
ghost use Rattle.shortest_float.specs.Sizes.{IsFinite};

use crate::exact::is_closest;
use crate::near::is_near;
use crate::reading::{LARGEST_POWER, reads_as};
use crate::search::search;
use crate::size::Size;

/// The number `digits` * 10 ^ (`power` - 342).
#[derive(Clone, Copy)]
pub(crate) struct Decimal {
    pub(crate) digits: u64,
    pub(crate) power: u64,
}

/// The decimal with the fewest digits that reads as the float, the closest such one: the guess, where it is that one.
#[inline(always)]
pub(crate) fn shortest_decimal(size: Size, guess: Decimal) -> Decimal
    requires { IsFinite size.bits size.significand size.exponent }
    ensures power { result.power ≡ shortest_power size.bits (size.significand * 2 ^ size.exponent) }
    ensures digits { result.digits
        ≡ shortest_digits size.bits (size.significand * 2 ^ size.exponent) }
    ensures range { (0 < result.digits) × (result.digits < 10 ^ 18) × (result.power ≤ 650) }
{
    if is_shortest(size, guess) {
        return guess;
    }
    search(size)
}

/// Whether the decimal is known to be that one.
#[inline(always)]
fn is_shortest(size: Size, decimal: Decimal) -> bool
    requires { IsFinite size.bits size.significand size.exponent }
    ensures power { IsTrue result
        → decimal.power ≡ shortest_power size.bits (size.significand * 2 ^ size.exponent) }
    ensures digits { IsTrue result
        → decimal.digits ≡ shortest_digits size.bits (size.significand * 2 ^ size.exponent) }
    ensures range { IsTrue result
        → (0 < decimal.digits) × (decimal.digits < 10 ^ 18) × (decimal.power ≤ 650) }
{
    if !is_in_range(decimal) {
        return false;
    }
    let Decimal { digits, power } = decimal;
    if !reads_as(size.bits, power, digits) {
        return false;
    }
    if !is_fewest(size.bits, power, digits) {
        return false;
    }
    if is_near(size, power, digits) {
        return true;
    }
    if is_alone(size.bits, power, digits) {
        return true;
    }
    is_closest(size, power, digits)
}

/// Whether the digits and the power are ones that can be tried.
#[inline(always)]
fn is_in_range(decimal: Decimal) -> bool
    ensures { IsTrue result
        → (0 < decimal.digits) × (decimal.digits < 10 ^ 18) × (decimal.power < 650) }
{
    decimal.digits > 0
        && decimal.digits < 1_000_000_000_000_000_000
        && decimal.power < LARGEST_POWER
}

/// Whether neither multiple of the next larger power reads as the float.
#[inline(always)]
fn is_fewest(bits: u64, power: u64, digits: u64) -> bool
    requires { (0 < bits) × (power < 650) × (digits < 10 ^ 18) }
    ensures lower { IsTrue result → reads bits (power + 1) (digits / 10) ≡ false }
    ensures upper { IsTrue result → reads bits (power + 1) (digits / 10 + 1) ≡ false }
{
    !reads_as(bits, power + 1, digits / 10) && !reads_as(bits, power + 1, digits / 10 + 1)
}

/// Whether neither multiple beside this one reads as the float.
#[inline(always)]
fn is_alone(bits: u64, power: u64, digits: u64) -> bool
    requires { (0 < bits) × (power ≤ 650) × (0 < digits) × (digits < 10 ^ 18) }
    ensures lower { IsTrue result → reads bits power (digits - 1) ≡ false }
    ensures upper { IsTrue result → reads bits power (digits + 1) ≡ false }
{
    !reads_as(bits, power, digits + 1) && !reads_as(bits, power, digits - 1)
}
