//! Members of objects by their kinds. A default is left out.
ghost use Rattle.std.specs.Prelude.{◌∷◌, [], ◌<◌, ◌^◌, Some, codes};
ghost use Rattle.std.specs.Fmt.{signed_decimal};
ghost use Rattle.base64.specs.Engines.{standard};
ghost use Rattle.base64.specs.GeneralPurpose.{encode_of};
ghost use Rattle.hex.specs.Hex.{encode_lower};
ghost use Rattle.serde_json.specs.Data.{no_members, string, boolean, object};
ghost use Rattle.otlp_json.specs.Tokens.{field_tokens, value_tokens};
ghost use Rattle.otlp_json.specs.Writing.{text_field, u32_field, u64_field, enum_field, fields as fields_of, double_data};

use crate::sink::TokenSink;
use otlp_types::Double;

/// A text, unless it is empty.
pub fn text<S: TokenSink>(out: &mut S, name: &str, text: &[u8])
    ensures { S.adds out.old out.new (field_tokens name.now (text_field text.now)) }
{
    if text.is_empty() {
        return;
    }
    out.key(name);
    out.string(text);
}

/// Bytes as a text of hex digits, unless there are none.
pub fn hex<S: TokenSink>(out: &mut S, name: &str, bytes: &[u8])
    ensures { S.adds out.old out.new (field_tokens name.now (text_field (encode_lower bytes.now))) }
{
    if bytes.is_empty() {
        return;
    }
    out.key(name);
    out.hex(bytes);
}

/// A whole number as a JSON number, unless it is 0.
pub fn whole<S: TokenSink>(out: &mut S, name: &str, n: i64)
    ensures { S.adds out.old out.new (field_tokens name.now (enum_field n)) }
{
    if n == 0 {
        return;
    }
    out.key(name);
    out.whole(n);
}

/// A number of 32 bits as a JSON number, unless it is 0.
pub fn count<S: TokenSink>(out: &mut S, name: &str, n: u32)
    ensures { S.adds out.old out.new (field_tokens name.now (u32_field n)) }
{
    whole(out, name, i64::from(n));
}

/// A number of 64 bits as decimal text, unless it is 0.
pub fn time<S: TokenSink>(out: &mut S, name: &str, n: u64)
    ensures { S.adds out.old out.new (field_tokens name.now (u64_field n)) }
{
    if n == 0 {
        return;
    }
    out.key(name);
    out.quoted_u64(n);
}

/// The object of the value that is not set.
pub fn object_of_none<S: TokenSink>(out: &mut S)
    ensures { S.adds out.old out.new (value_tokens (object no_members)) }
{
    out.begin_object();
    out.end_object();
}

/// An object with this text alone, also where it is empty.
pub fn object_of_text<S: TokenSink>(out: &mut S, text: &[u8])
    ensures { S.adds out.old out.new (value_tokens (object
        (fields_of ((codes "stringValue", Some (string text.now)) ∷ [])))) }
{
    out.begin_object();
    out.key("stringValue");
    out.string(text);
    out.end_object();
}

/// The object of a truth value.
pub fn object_of_bool<S: TokenSink>(out: &mut S, b: bool)
    ensures { S.adds out.old out.new (value_tokens (object
        (fields_of ((codes "boolValue", Some (boolean b)) ∷ [])))) }
{
    out.begin_object();
    out.key("boolValue");
    out.boolean(b);
    out.end_object();
}

/// The object of an integer, as text.
pub fn object_of_integer<S: TokenSink>(out: &mut S, n: i64)
    ensures { S.adds out.old out.new (value_tokens (object
        (fields_of ((codes "intValue", Some (string (signed_decimal n))) ∷ [])))) }
{
    out.begin_object();
    out.key("intValue");
    out.quoted_i64(n);
    out.end_object();
}

/// The object of a double.
pub fn object_of_double<S: TokenSink>(out: &mut S, x: Double)
    ensures { S.adds out.old out.new (value_tokens (object
        (fields_of ((codes "doubleValue", Some (double_data x)) ∷ [])))) }
{
    out.begin_object();
    out.key("doubleValue");
    out.double(x);
    out.end_object();
}

/// The object of bytes, as base64 text.
pub fn object_of_bytes<S: TokenSink>(out: &mut S, bytes: &[u8])
    ensures { S.adds out.old out.new (value_tokens (object
        (fields_of ((codes "bytesValue", Some (string (encode_of standard bytes.now))) ∷ [])))) }
{
    out.begin_object();
    out.key("bytesValue");
    out.base64(bytes);
    out.end_object();
}
