//! A guess at the shortest decimal, out of the text that the kit's `ryu` writes. No clause speaks of it: it is checked
//! afterwards.
ghost use Rattle.std.specs.Prelude.{◌≡◌, true};
ghost use Rattle.std.specs.Float.{float_is_finite};

use crate::shortest::Decimal;

/// What `ryu` writes of a finite float.
#[inline(always)]
pub(crate) fn guess(x: f64) -> Decimal
    requires { float_is_finite x ≡ true }
{
    let mut buffer = ryu::Buffer::new();
    decimal_in(buffer.format_finite(x).as_bytes())
}

/// The decimal in a text such as `-12.5e-7`.
fn decimal_in(text: &[u8]) -> Decimal {
    let mut digits = 0u64;
    let mut places = 0u64;
    let mut behind_point = 0;
    for i in 0..text.len() {
        match text[i] {
            b'.' => behind_point = 1,
            b'e' => return without_zeros(digits, exponent_in(&text[i + 1..]).wrapping_sub(places)),
            byte => {
                if byte.is_ascii_digit() {
                    digits = digits.wrapping_mul(10).wrapping_add((byte - b'0') as u64);
                    places = places.wrapping_add(behind_point);
                }
            }
        }
    }
    without_zeros(digits, 0u64.wrapping_sub(places))
}

/// The number in a text such as `-7`, where a negative one wraps.
fn exponent_in(text: &[u8]) -> u64 {
    let mut size = 0u64;
    for i in 0..text.len() {
        if text[i].is_ascii_digit() {
            size = size.wrapping_mul(10).wrapping_add((text[i] - b'0') as u64);
        }
    }
    if text.first() == Some(&b'-') {
        return 0u64.wrapping_sub(size);
    }
    size
}

/// The digits times 10 ^ `exponent`, without the zeros at their end.
fn without_zeros(mut digits: u64, exponent: u64) -> Decimal {
    let mut power = exponent.wrapping_add(342);
    while digits > 0 && digits % 10 == 0 {
        digits /= 10;
        power = power.wrapping_add(1);
    }
    Decimal { digits, power }
}
