//! The text of a decimal as a JSON number with a point or an exponent (RFC 8259, section 6).
ghost use Rattle.std.specs.Prelude.{◌≡◌, ℕ, ◌+◌, ◌-◌, ◌<◌, ◌≤◌, List, ◌∷◌, ◌++◌, length, take, drop, replicate, decimal, IsAscii};
ghost use Rattle.arrayvec.specs.ArrayString.{array_string_len};
ghost use Rattle.shortest_float.specs.Layout.{with_point, with_zeros, one_before_point, exponent, has_exponent, layout};

use arrayvec::ArrayString;

/// Room for each text: at most 25 bytes.
pub(crate) const ROOM: usize = 32;

/// What a power is counted from: it stands for 10 ^ (power - 342).
const BIAS: u64 = 342;

/// The most digits that are written before the point with no exponent.
const MOST_BEFORE: u64 = 16;

/// The most zeros that are written behind the point with no exponent.
const MOST_ZEROS: u64 = 4;

/// Writes `digits` times 10 ^ (`power` - 342).
#[tactic(auto, unfolding(crate::specs::Layout::layout))]
pub(crate) fn push_layout(text: &mut ArrayString<32>, digits: &str, power: u64)
    requires digits { (0 < length digits.now) × (length digits.now ≤ 18) × IsAscii digits.now }
    requires room { (array_string_len text.old ≤ 1) × (power ≤ 650) }
    ensures bytes { text.new.bytes ≡ text.old.bytes ++ layout digits.now power }
    ensures short { array_string_len text.new ≤ array_string_len text.old + 24 }
{
    let place = power + digits.len() as u64;
    if has_exponent(place) {
        push_one_before_point(text, digits);
        push_exponent(text, place);
    } else if place > BIAS {
        push_with_point(text, digits, (place - BIAS) as usize);
    } else {
        push_with_zeros(text, digits, BIAS - place);
    }
}

/// Whether an exponent is written where `place` - 342 digits stand before the point.
fn has_exponent(place: u64) -> bool
    ensures { result ≡ has_exponent place }
{
    place < BIAS - MOST_ZEROS || place > BIAS + MOST_BEFORE
}

/// `12.34`, or `1200.0`.
fn push_with_point(text: &mut ArrayString<32>, digits: &str, before: usize)
    requires digits { (0 < length digits.now) × (length digits.now ≤ 18) × IsAscii digits.now }
    requires room { (array_string_len text.old ≤ 1) × (before ≤ 16) }
    ensures bytes { text.new.bytes ≡ text.old.bytes ++ with_point digits.now before }
    ensures short { array_string_len text.new ≤ array_string_len text.old + 19 }
{
    if before < digits.len() {
        text.push_str(&digits[..before]);
        text.push('.');
        text.push_str(&digits[before..]);
    } else {
        text.push_str(digits);
        push_zeros(text, (before - digits.len()) as u64);
        text.push_str(".0");
    }
}

/// `0.0012`.
fn push_with_zeros(text: &mut ArrayString<32>, digits: &str, zeros: u64)
    requires digits { length digits.now ≤ 18 }
    requires room { (array_string_len text.old ≤ 1) × (zeros ≤ 4) }
    ensures bytes { text.new.bytes ≡ text.old.bytes ++ with_zeros digits.now zeros }
    ensures short { array_string_len text.new ≤ array_string_len text.old + 24 }
{
    text.push_str("0.");
    push_zeros(text, zeros);
    text.push_str(digits);
}

/// The digit 0, `count` times.
fn push_zeros(text: &mut ArrayString<32>, count: u64)
    requires { array_string_len text.old + count ≤ 32 }
    ensures bytes { text.new.bytes ≡ text.old.bytes ++ replicate count 48 }
    ensures len { array_string_len text.new ≡ array_string_len text.old + count }
{
    for _ in 0..count {
        text.push('0');
    }
}

/// `1.2`, or `1`.
fn push_one_before_point(text: &mut ArrayString<32>, digits: &str)
    requires digits { (0 < length digits.now) × (length digits.now ≤ 18) × IsAscii digits.now }
    requires room { array_string_len text.old ≤ 1 }
    ensures bytes { text.new.bytes ≡ text.old.bytes ++ one_before_point digits.now }
    ensures short { array_string_len text.new ≤ array_string_len text.old + 19 }
{
    text.push_str(&digits[..1]);
    if digits.len() > 1 {
        text.push('.');
        text.push_str(&digits[1..]);
    }
}

/// `e30`, or `e-7`.
fn push_exponent(text: &mut ArrayString<32>, place: u64)
    requires { (array_string_len text.old ≤ 20) × (place ≤ 700) }
    ensures bytes { text.new.bytes ≡ text.old.bytes ++ exponent place }
    ensures short { array_string_len text.new ≤ array_string_len text.old + 5 }
{
    text.push('e');
    if place <= BIAS {
        text.push('-');
        push_number(text, BIAS + 1 - place);
    } else {
        push_number(text, place - BIAS - 1);
    }
}

/// A number of at most three digits.
#[tactic(auto, using(crate::proofs::Written::short_decimal))]
fn push_number(text: &mut ArrayString<32>, n: u64)
    requires { (array_string_len text.old ≤ 22) × (n < 1000) }
    ensures bytes { text.new.bytes ≡ text.old.bytes ++ decimal n }
    ensures short { array_string_len text.new ≤ array_string_len text.old + 3 }
{
    let mut buffer = itoa::Buffer::new();
    text.push_str(buffer.format(n));
}
