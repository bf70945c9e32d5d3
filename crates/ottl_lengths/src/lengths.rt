//! How long the piece at the front of a text is.
ghost use Rattle.std.specs.Prelude.{◌≡◌, ◌≤◌, length, take, slice_index};
ghost use Rattle.ottl_lengths.specs.Lengths as spec;

/// The byte at a place, or 0 behind the end.
pub fn byte_at(text: &[u8], place: usize) -> u8
    ensures { result ≡ slice_index text.now place }
{
    text.get(place).copied().unwrap_or(0)
}

/// What is left behind so many bytes; nothing where there are not so many.
pub fn behind(text: &[u8], count: usize) -> &[u8]
    ensures { result.now ≡ spec.behind text.now count }
{
    match text.get(count..) {
        Some(rest) => rest,
        None => &[],
    }
}

/// The text without blanks in front.
pub fn skip_blank(mut text: &[u8]) -> &[u8]
    ensures { result.now ≡ spec.skip_blank text.now }
{
    while let [first, rest @ ..] = text
        && is_blank(*first)
    {
        text = rest;
    }
    text
}

/// Whether it is a space, a tab or an end of a line.
fn is_blank(byte: u8) -> bool
    ensures { result ≡ spec.is_blank byte }
{
    byte == b' ' || byte == b'\t' || byte == b'\n' || byte == 12 || byte == b'\r'
}

fn is_letter(byte: u8) -> bool
    ensures { result ≡ spec.is_letter byte }
{
    (b'A' <= byte && byte <= b'Z') || (b'a' <= byte && byte <= b'z')
}

fn is_of_word(byte: u8) -> bool
    ensures { result ≡ spec.is_of_word byte }
{
    is_letter(byte) || byte.is_ascii_digit() || byte == b'_' || byte == b'.'
}

fn is_hex(byte: u8) -> bool
    ensures { result ≡ spec.is_hex byte }
{
    byte.is_ascii_digit() || (b'A' <= byte && byte <= b'F') || (b'a' <= byte && byte <= b'f')
}

/// How many digits stand in front.
#[tactic(auto, unfolding(crate::specs::Lengths::digits_len))]
pub fn digits_len(text: &[u8]) -> usize
    ensures len { result ≡ spec.digits_len text.now }
    ensures within { result ≤ length text.now }
{
    text.iter().take_while(|byte| byte.is_ascii_digit()).count()
}

fn hex_len(text: &[u8]) -> usize
    ensures len { result ≡ spec.front_len spec.is_hex text.now }
    ensures within { result ≤ length text.now }
{
    text.iter().take_while(|byte| is_hex(**byte)).count()
}

/// 1 where a sign stands in front.
pub fn sign_len(text: &[u8]) -> usize
    ensures len { result ≡ spec.sign_len text.now }
    ensures within { result ≤ length text.now }
{
    match text.first() {
        Some(b'-' | b'+') => 1,
        _ => 0,
    }
}

/// `0x` and hex digits.
#[tactic(auto, unfolding(crate::specs::Lengths::bytes_len))]
pub fn bytes_len(text: &[u8]) -> usize
    ensures { result ≡ spec.bytes_len text.now }
{
    let digits = hex_len(behind(text, 2));
    if byte_at(text, 0) == b'0' && byte_at(text, 1) == b'x' && 0 < digits {
        2 + digits
    } else {
        0
    }
}

/// A sign or none, and digits.
#[tactic(auto, unfolding(crate::specs::Lengths::int_len))]
pub fn int_len(text: &[u8]) -> usize
    ensures len { result ≡ spec.int_len text.now }
    ensures within { result ≤ length text.now }
{
    let sign = sign_len(text);
    let digits = digits_len(behind(text, sign));
    if 0 < digits { sign + digits } else { 0 }
}

/// `e` or `E`, a sign or none, and digits.
#[tactic(auto, unfolding(crate::specs::Lengths::exponent_len))]
fn exponent_len(text: &[u8]) -> usize
    ensures len { result ≡ spec.exponent_len text.now }
    ensures within { result ≤ length text.now }
{
    let digits = int_len(behind(text, 1));
    if (byte_at(text, 0) == b'e' || byte_at(text, 0) == b'E') && 0 < digits {
        1 + digits
    } else {
        0
    }
}

/// A sign or none, digits or none, a point, digits, and an exponent or none.
#[tactic(auto, unfolding(crate::specs::Lengths::float_len))]
pub fn float_len(text: &[u8]) -> usize
    ensures { result ≡ spec.float_len text.now }
{
    let sign = sign_len(text);
    let whole = sign + digits_len(behind(text, sign));
    let digits = digits_len(behind(text, whole + 1));
    let plain = whole + 1 + digits;
    if byte_at(text, whole) == b'.' && 0 < digits {
        plain + exponent_len(behind(text, plain))
    } else {
        0
    }
}

/// A letter, and what else a name has.
#[tactic(auto, unfolding(crate::specs::Lengths::word_len))]
pub fn word_len(text: &[u8]) -> usize
    ensures { result ≡ spec.word_len text.now }
{
    if is_letter(byte_at(text, 0)) {
        name_len(text)
    } else {
        0
    }
}

fn name_len(text: &[u8]) -> usize
    ensures { result ≡ spec.front_len spec.is_of_word text.now }
{
    text.iter().take_while(|byte| is_of_word(**byte)).count()
}

/// Where the text in quotes ends, whose opening quote stands before; the length where it doesn't.
#[tactic(auto, unfolding(crate::specs::Lengths::quote_at))]
pub fn quote_at(text: &[u8]) -> usize
    ensures place { result ≡ spec.quote_at text.now }
    ensures within { result ≤ length text.now }
{
    let mut escaped = false;
    for (place, byte) in text.iter().enumerate() {
        if is_closing(escaped, *byte) {
            return place;
        }
        escaped = is_escape(escaped, *byte);
    }
    text.len()
}

/// Whether a byte ends a text in quotes, before which a backslash stands or not.
fn is_closing(escaped: bool, byte: u8) -> bool
    ensures { result ≡ spec.is_closing escaped byte }
{
    !escaped && byte == b'"'
}

/// Whether a byte is a backslash that stands for none.
fn is_escape(escaped: bool, byte: u8) -> bool
    ensures { result ≡ spec.is_escape escaped byte }
{
    !escaped && byte == b'\\'
}

/// So many bytes at the front, or all of them.
pub fn front(text: &[u8], count: usize) -> &[u8]
    ensures { result.now ≡ take count text.now }
{
    match text.get(..count) {
        Some(front) => front,
        None => text,
    }
}
