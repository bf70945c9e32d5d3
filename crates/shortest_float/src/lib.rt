//! The shortest decimal text that reads as a 64-bit float again.
//!
//! ```
//! assert!(text_of(0.1).as_str() == "0.1");
//! assert!(text_of(5e-324).as_str() == "5e-324");
//! ```
#![tactic(auto)]

ghost use Rattle.std.specs.Prelude.{◌≡◌, ◌≤◌, true, length, IsAscii};
ghost use Rattle.std.specs.Float.{float_is_finite};
ghost use Rattle.std.specs.Fmt.{sign_text};
ghost use Rattle.shortest_float.specs.Shortest.{shortest_text, HasText, HasFewestDigits, HasClosestDigits};

mod exact;
mod guess;
mod layout;
mod natural;
mod near;
mod reading;
mod search;
mod shortest;
mod size;

use crate::guess::guess;
use crate::layout::push_layout;
use crate::shortest::shortest_decimal;
use crate::size::Size;
use arrayvec::ArrayString;
use std::num::f64_to_bits_with_nan;

/// The bit of a negative float.
const SIGN: u64 = 1 << 63;

/// The text of a finite float (RFC 8259, section 6): the fewest digits that read as it, the closest such ones, and a
/// point or an exponent. At most 25 bytes of ASCII, as `0.1`, `-0.0`, `12.0`, `1e22` and `1.5e-7`.
pub fn text_of(x: f64) -> ArrayString<32>
    requires { float_is_finite x ≡ true }
    ensures bytes { result.bytes ≡ shortest_text x }
    ensures number { HasText x }
    ensures fewest { HasFewestDigits x }
    ensures closest { HasClosestDigits x }
    ensures short { length result.bytes ≤ 25 }
    ensures ascii { IsAscii result.bytes }
{
    let raw = f64_to_bits_with_nan(x);
    let mut text = sign_text(raw >= SIGN);
    let bits = raw % SIGN;
    if bits == 0 {
        text.push_str("0.0");
        return text;
    }
    let decimal = shortest_decimal(Size::of_bits(bits), guess(x));
    let mut buffer = itoa::Buffer::new();
    push_layout(&mut text, buffer.format(decimal.digits), decimal.power);
    text
}

/// A minus before a negative float.
fn sign_text(negative: bool) -> ArrayString<32>
    ensures { result.bytes ≡ sign_text negative }
{
    let mut text = ArrayString::new();
    if negative {
        text.push('-');
    }
    text
}
