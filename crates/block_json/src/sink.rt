//! What takes the tokens of a text, one after another.
ghost use Rattle.std.specs.Prelude.{List, [], ◌∷◌, decimal};
ghost use Rattle.std.specs.Fmt.{signed_decimal};
ghost use Rattle.base64.specs.Engines.{standard};
ghost use Rattle.base64.specs.GeneralPurpose.{encode_of};
ghost use Rattle.hex.specs.Hex.{encode_lower};
ghost use Rattle.json.specs.Token.{Token, begin_object, end_object, begin_array, end_array, key, string, number, boolean};
ghost use Rattle.otlp_json.specs.Tokens.{value_tokens};
ghost use Rattle.otlp_json.specs.Writing.{double_data};
ghost use Rattle.block_json.specs.Sinks.{Composes};

use otlp_types::Double;

/// What takes the tokens of a JSON text. A sink that fails takes no more, and says so at its end.
pub trait TokenSink {
    /// With these tokens a sink becomes another.
    ghost adds: { Self → Self → List Token → Type 0 };

    /// The brace that opens an object.
    fn begin_object(&mut self)
        ensures { adds self.old self.new (begin_object ∷ []) };

    /// The brace that closes an object.
    fn end_object(&mut self)
        ensures { adds self.old self.new (end_object ∷ []) };

    /// The bracket that opens an array.
    fn begin_array(&mut self)
        ensures { adds self.old self.new (begin_array ∷ []) };

    /// The bracket that closes an array.
    fn end_array(&mut self)
        ensures { adds self.old self.new (end_array ∷ []) };

    /// The name of a member.
    fn key(&mut self, name: &str)
        ensures { adds self.old self.new (key name.now ∷ []) };

    /// A text, as its bytes.
    fn string(&mut self, text: &[u8])
        ensures { adds self.old self.new (string text.now ∷ []) };

    /// Bytes as a text of lower-case hex digits.
    fn hex(&mut self, bytes: &[u8])
        ensures { adds self.old self.new (string (encode_lower bytes.now) ∷ []) };

    /// Bytes as a base64 text.
    fn base64(&mut self, bytes: &[u8])
        ensures { adds self.old self.new (string (encode_of standard bytes.now) ∷ []) };

    /// A whole number.
    fn whole(&mut self, n: i64)
        ensures { adds self.old self.new (number (signed_decimal n) ∷ []) };

    /// A number as text.
    fn quoted_u64(&mut self, n: u64)
        ensures { adds self.old self.new (string (decimal n) ∷ []) };

    /// A number as text.
    fn quoted_i64(&mut self, n: i64)
        ensures { adds self.old self.new (string (signed_decimal n) ∷ []) };

    /// A truth value.
    fn boolean(&mut self, b: bool)
        ensures { adds self.old self.new (boolean b ∷ []) };

    /// A double: a number, or a name in place of one.
    fn double(&mut self, x: Double)
        ensures { adds self.old self.new (value_tokens (double_data x)) };

    /// What is added adds up.
    ghost composes: { Composes adds };
}
