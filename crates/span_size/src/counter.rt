//! The bytes of a text, counted a token at a time as they would be written.
ghost use Rattle.std.specs.Prelude.{◌≡◌, ◌&&◌, cond, false, [], ◌∷◌, decimal};
ghost use Rattle.std.specs.Fmt.{signed_decimal};
ghost use Rattle.json.specs.Token.{Token, begin_object, end_object, begin_array, end_array, key, string, number, boolean};
ghost use Rattle.span_ids.specs.Id.{id_text};

use crate::escaped::escaped_len;

/// A text so far: its bytes, and whether a comma comes before the next value.
#[derive(Drop)]
pub struct ByteCounter {
    /// How many bytes were counted, up to 2^64 - 1.
    pub bytes: u64,
    /// Whether a value has just ended.
    pub after_value: bool,
}

impl ByteCounter {
    ghost use Rattle.span_size.specs.Counting.{Adds, IsOf};

    /// The count of nothing.
    pub fn new() -> ByteCounter
        ensures bytes { result.bytes ≡ 0 }
        ensures place { result.after_value ≡ false }
    {
        ByteCounter {
            bytes: 0,
            after_value: false,
        }
    }

    /// Counts a token of so many bytes, and the comma before it.
    fn token(&mut self, bytes: u64, begins_value: bool, ends_value: bool)
        ensures { (t : Token) → IsOf t bytes begins_value ends_value → Adds self.old self.new (t ∷ []) }
    {
        let comma = comma_len(self.after_value, begins_value);
        self.bytes = self.bytes.saturating_add(comma).saturating_add(bytes);
        self.after_value = ends_value;
    }

    /// The brace that opens an object, or the bracket that opens an array.
    pub fn begin_nested(&mut self)
        ensures object { Adds self.old self.new (begin_object ∷ []) }
        ensures array { Adds self.old self.new (begin_array ∷ []) }
    {
        self.token(1, true, false);
    }

    /// The brace that closes an object, or the bracket that closes an array.
    pub fn end_nested(&mut self)
        ensures object { Adds self.old self.new (end_object ∷ []) }
        ensures array { Adds self.old self.new (end_array ∷ []) }
    {
        self.token(1, false, true);
    }

    /// The name of a member, with its quotes and its colon.
    pub fn key(&mut self, name: &str)
        ensures { Adds self.old self.new (key name.now ∷ []) }
    {
        self.token(escaped_len(name.as_bytes()).saturating_add(3), true, false);
    }

    /// A text, with its quotes.
    pub fn string(&mut self, text: &str)
        ensures { Adds self.old self.new (string text.now ∷ []) }
    {
        self.token(escaped_len(text.as_bytes()).saturating_add(2), true, true);
    }

    /// A number of this text.
    pub fn number(&mut self, text: &str)
        ensures { Adds self.old self.new (number text.now ∷ []) }
    {
        self.token(text.len() as u64, true, true);
    }

    /// A whole number.
    pub fn i64(&mut self, n: i64)
        ensures { Adds self.old self.new (number (signed_decimal n) ∷ []) }
    {
        let mut buffer = itoa::Buffer::new();
        self.number(buffer.format(n));
    }

    /// A number as text.
    pub fn quoted_u64(&mut self, n: u64)
        ensures { Adds self.old self.new (string (decimal n) ∷ []) }
    {
        let mut buffer = itoa::Buffer::new();
        self.string(buffer.format(n));
    }

    /// A number as text.
    pub fn quoted_i64(&mut self, n: i64)
        ensures { Adds self.old self.new (string (signed_decimal n) ∷ []) }
    {
        let mut buffer = itoa::Buffer::new();
        self.string(buffer.format(n));
    }

    /// A truth value.
    pub fn boolean(&mut self, b: bool)
        ensures { Adds self.old self.new (boolean b ∷ []) }
    {
        if b {
            self.token(4, true, true);
        } else {
            self.token(5, true, true);
        }
    }

    /// A member whose value is the text of an id: two hex digits a byte, with the quotes.
    pub fn id_member(&mut self, name: &str, bytes: &[u8])
        ensures { Adds self.old self.new (key name.now ∷ string (id_text bytes.now) ∷ []) }
    {
        self.key(name);
        let digits = (bytes.len() as u64).saturating_mul(2);
        self.token(digits.saturating_add(2), true, true);
    }
}

/// The bytes of the comma between a value that has just ended and what begins one: 1, or 0 where there is none.
fn comma_len(after_value: bool, begins_value: bool) -> u64
    ensures { result ≡ cond (after_value && begins_value) 1 0 }
{
    if after_value && begins_value { 1 } else { 0 }
}
