//! The bytes of a text, counted a token at a time as they would be written.
ghost use Rattle.std.specs.Prelude.{◌≡◌, ◌+◌, ◌*◌, ◌&&◌, cond, true, [], ◌∷◌, length};
ghost use Rattle.std.specs.Float.{float_is_finite};
ghost use Rattle.base64.specs.Rfc4648.{encoded_size};
ghost use Rattle.json.specs.Token.{Token, key, string, number};
ghost use Rattle.otlp_types.specs.Doubles.{double_text};
ghost use Rattle.span_size.specs.Counting.{capped, IsOf};
ghost use Rattle.block_json.specs.Counting.{Counts};

use crate::escaped::escaped_len;
use crate::sink::TokenSink;
use otlp_json::double_name;
use otlp_types::Double;

/// A text so far: its bytes, and whether a comma comes before the next value.
#[derive(Drop)]
pub struct ByteSink {
    /// How many bytes were counted, up to 2^64 - 1.
    pub bytes: u64,
    /// Whether a value has just ended.
    pub after_value: bool,
}

impl ByteSink {
    /// Counts a token of so many bytes, and the comma before it.
    fn token(&mut self, bytes: u64, begins_value: bool, ends_value: bool)
        ensures { (t : Token) → IsOf t bytes begins_value ends_value → Counts self.old self.new (t ∷ []) }
    {
        let comma = comma_len(self.after_value, begins_value);
        self.bytes = self.bytes.saturating_add(comma).saturating_add(bytes);
        self.after_value = ends_value;
    }

    /// A text, with its quotes.
    fn text(&mut self, text: &[u8])
        ensures { Counts self.old self.new (string text.now ∷ []) }
    {
        self.token(escaped_len(text).saturating_add(2), true, true);
    }

    /// A number of this text.
    fn number(&mut self, text: &str)
        ensures { Counts self.old self.new (number text.now ∷ []) }
    {
        self.token(text.len() as u64, true, true);
    }

    /// A finite double, as a number.
    fn finite(&mut self, x: &Double)
        requires { float_is_finite x.now ≡ true }
        ensures { Counts self.old self.new (number (double_text x.now) ∷ []) }
    {
        let text = x.text();
        self.number(text.as_str());
    }
}

impl TokenSink for ByteSink {
    ghost use Rattle.block_json.specs.Counting.{counts_compose};

    ghost adds = { Counts };

    fn begin_object(&mut self) {
        self.token(1, true, false);
    }

    fn end_object(&mut self) {
        self.token(1, false, true);
    }

    fn begin_array(&mut self) {
        self.token(1, true, false);
    }

    fn end_array(&mut self) {
        self.token(1, false, true);
    }

    fn key(&mut self, name: &str) {
        self.token(escaped_len(name.as_bytes()).saturating_add(3), true, false);
    }

    fn string(&mut self, text: &[u8]) {
        self.text(text);
    }

    fn hex(&mut self, bytes: &[u8]) {
        let digits = (bytes.len() as u64).saturating_mul(2);
        self.token(digits.saturating_add(2), true, true);
    }

    fn base64(&mut self, bytes: &[u8]) {
        self.token(base64_len(bytes.len()).saturating_add(2), true, true);
    }

    fn whole(&mut self, n: i64) {
        let mut buffer = itoa::Buffer::new();
        self.number(buffer.format(n));
    }

    fn quoted_u64(&mut self, n: u64) {
        let mut buffer = itoa::Buffer::new();
        self.text(buffer.format(n).as_bytes());
    }

    fn quoted_i64(&mut self, n: i64) {
        let mut buffer = itoa::Buffer::new();
        self.text(buffer.format(n).as_bytes());
    }

    fn boolean(&mut self, b: bool) {
        if b {
            self.token(4, true, true);
        } else {
            self.token(5, true, true);
        }
    }

    fn double(&mut self, x: Double) {
        let value = x.get();
        if value.is_finite() {
            self.finite(&x);
            return;
        }
        self.text(double_name(value).as_bytes());
    }

    ghost composes = { counts_compose };
}

/// The bytes of the comma between a value that has just ended and what begins one: 1, or 0 where there is none.
fn comma_len(after_value: bool, begins_value: bool) -> u64
    ensures { result ≡ cond (after_value && begins_value) 1 0 }
{
    if after_value && begins_value { 1 } else { 0 }
}

/// The bytes of the base64 text of so many bytes: four for each three, the last ones with padding.
fn base64_len(len: usize) -> u64
    ensures { result ≡ capped (encoded_size len true) }
{
    let groups = (len / 3) as u64;
    let last: u64 = if len % 3 == 0 { 0 } else { 4 };
    groups.saturating_mul(4).saturating_add(last)
}
