//! For how long an answer asks to wait.
ghost use Rattle.std.specs.Prelude.{◌≡◌, ◌≤◌, length, drop, All, map};
ghost use Rattle.httparse.specs.Spans.{IsHeaderWithin, header_bytes};
ghost use Rattle.post_http.specs.declared.wait.TheConstants.{LONGEST_WAIT};
ghost use Rattle.post_http.specs.Waits.{seconds_of, digits_on, wait_in};

use http1::text::eq_ignore_case;
use httparse::spans::HeaderSpan;

/// The longest wait that is told, in seconds: a longer one is told as this.
pub const LONGEST_WAIT: u64 = 1_000_000;

/// The number that digits write, behind the number that was read so far.
fn digits_on(start: u64, digits: &[u8]) -> Option<u64>
    requires { start ≤ LONGEST_WAIT }
    ensures { result ≡ digits_on start digits.now }
{
    let mut number = start;
    let mut left = digits;
    while let [digit, rest @ ..] = left {
        if !digit.is_ascii_digit() {
            return None;
        }
        let value = u64::from(*digit - b'0');
        number = (number * 10 + value).min(LONGEST_WAIT);
        left = rest;
    }
    Some(number)
}

/// The seconds that a value says in digits.
fn seconds_of(value: &[u8]) -> Option<u64>
    ensures { result ≡ seconds_of value.now }
{
    if value.is_empty() {
        return None;
    }
    digits_on(0, value)
}

/// The seconds of the first field `Retry-After` of these.
pub fn wait_in(input: &[u8], fields: &[HeaderSpan]) -> Option<u64>
    requires { All (IsHeaderWithin (length input.now)) fields.now }
    ensures { result ≡ wait_in (map (header_bytes input.now) fields.now) }
{
    let [field, rest @ ..] = fields else {
        return None;
    };
    if eq_ignore_case(field.name.of(input), b"retry-after") {
        return seconds_of(field.value.of(input));
    }
    wait_in(input, rest)
}
