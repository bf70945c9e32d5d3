//! Fields by their kinds, counted as they would be written. A default is left out.
ghost use Rattle.std.specs.Prelude.{◌≡◌, ◌∷◌, [], Some, map, codes, true};
ghost use Rattle.std.specs.Fmt.{signed_decimal};
ghost use Rattle.std.specs.Float.{float_is_finite};
ghost use Rattle.serde_json.specs.Data.{Members, no_members, string, boolean, object};
ghost use Rattle.json.specs.Token.{key as key_token, string as string_token, number as json_number};
ghost use Rattle.otlp_types.specs.Doubles.{double_text};
ghost use Rattle.otlp_json.specs.Tokens.{value_tokens};
ghost use Rattle.otlp_json.specs.Writing.{text_field, u32_field, u64_field, enum_field, message_field, list_field, fields as fields_of, double_data, value_fields, pair_fields};
ghost use Rattle.span_size.specs.Counting.{Adds, AddsField, AddsObject};

use crate::counter::ByteCounter;
use otlp_json::{double_name, is_set};
use otlp_types::{AnyValue, Double, KeyValue, List, Text};

/// What is written as a JSON object.
pub trait HasSize {
    /// The members of its object.
    ghost fields: { Self → Members };

    /// Counts the object.
    fn count(&self, out: &mut ByteCounter)
        ensures { AddsObject out.old out.new (fields self.now) };
}

impl HasSize for KeyValue {
    ghost fields = { pair_fields };

    #[cycle(count)]
    fn count(&self, out: &mut ByteCounter) {
        out.begin_nested();
        text(out, "key", &self.key);
        count_set_value(out, &self.value);
        out.end_nested();
    }
}

impl HasSize for AnyValue {
    ghost fields = { value_fields };

    #[cycle(count)]
    fn count(&self, out: &mut ByteCounter) {
        match self {
            AnyValue::Empty => object_of_none(out),
            AnyValue::Str(text) => object_of_text(out, "stringValue", text),
            AnyValue::Bool(b) => object_of_bool(out, *b),
            AnyValue::Int(n) => object_of_integer(out, n),
            AnyValue::Double(x) => object_of_double(out, x),
            AnyValue::Array(values) => object_of_list(out, "arrayValue", values),
            AnyValue::KvList(pairs) => object_of_list(out, "kvlistValue", pairs),
            AnyValue::Bytes(text) => object_of_text(out, "bytesValue", text),
        }
    }
}

/// A text, unless it is empty.
pub fn text(out: &mut ByteCounter, name: &str, text: &Text)
    ensures { AddsField out.old out.new name.now (text_field text.now) }
{
    let text = text.as_str();
    if text.is_empty() {
        return;
    }
    out.key(name);
    out.string(text);
}

/// A whole number as a JSON number, unless it is 0.
fn whole(out: &mut ByteCounter, name: &str, n: i64)
    ensures { AddsField out.old out.new name.now (enum_field n) }
{
    if n == 0 {
        return;
    }
    out.key(name);
    out.i64(n);
}

/// A number of 32 bits as a JSON number, unless it is 0.
pub fn u32(out: &mut ByteCounter, name: &str, n: u32)
    ensures { AddsField out.old out.new name.now (u32_field n) }
{
    whole(out, name, i64::from(n));
}

/// The number of an enumeration as a JSON number, unless it is 0.
pub fn enumeration(out: &mut ByteCounter, name: &str, n: i32)
    ensures { AddsField out.old out.new name.now (enum_field n) }
{
    whole(out, name, i64::from(n));
}

/// A number of 64 bits as decimal text, unless it is 0.
pub fn u64(out: &mut ByteCounter, name: &str, n: u64)
    ensures { AddsField out.old out.new name.now (u64_field n) }
{
    if n == 0 {
        return;
    }
    out.key(name);
    out.quoted_u64(n);
}

/// A list of messages, unless it is empty.
pub fn list<T: HasSize>(out: &mut ByteCounter, name: &str, items: &[T])
    ensures { AddsField out.old out.new name.now (list_field (map T.fields items.now)) }
{
    if items.is_empty() {
        return;
    }
    out.key(name);
    out.begin_nested();
    for item in items {
        item.count(out);
    }
    out.end_nested();
}

/// The object of a value that is a list: its one member holds the items under `values`.
fn object_of_list<T: HasSize>(out: &mut ByteCounter, key: &str, items: &List<T>)
    ensures { AddsObject out.old out.new (fields_of
        ((key.now, Some (object (fields_of ((codes "values", list_field (map T.fields items.now)) ∷ [])))) ∷ [])) }
{
    out.begin_nested();
    out.key(key);
    out.begin_nested();
    list(out, "values", items.as_slice());
    out.end_nested();
    out.end_nested();
}

/// The object of the value that is not set.
fn object_of_none(out: &mut ByteCounter)
    ensures { AddsObject out.old out.new no_members }
{
    out.begin_nested();
    out.end_nested();
}

/// An object with this text alone, also where it is empty.
fn object_of_text(out: &mut ByteCounter, name: &str, text: &Text)
    ensures { AddsObject out.old out.new (fields_of ((name.now, Some (string text.now)) ∷ [])) }
{
    out.begin_nested();
    out.key(name);
    out.string(text.as_str());
    out.end_nested();
}

/// The object of a truth value.
fn object_of_bool(out: &mut ByteCounter, b: bool)
    ensures { AddsObject out.old out.new (fields_of ((codes "boolValue", Some (boolean b)) ∷ [])) }
{
    out.begin_nested();
    out.key("boolValue");
    out.boolean(b);
    out.end_nested();
}

/// The object of an integer, as text, behind a reference, so that it is known to be within its type's range.
fn object_of_integer(out: &mut ByteCounter, n: &i64)
    ensures { AddsObject out.old out.new
        (fields_of ((codes "intValue", Some (string (signed_decimal n.now))) ∷ [])) }
{
    out.begin_nested();
    out.key("intValue");
    out.quoted_i64(*n);
    out.end_nested();
}

/// The object of a double.
fn object_of_double(out: &mut ByteCounter, x: &Double)
    ensures { AddsObject out.old out.new
        (fields_of ((codes "doubleValue", Some (double_data x.now)) ∷ [])) }
{
    out.begin_nested();
    out.key("doubleValue");
    double(out, x);
    out.end_nested();
}

/// A double: a number, or a name in place of one.
fn double(out: &mut ByteCounter, x: &Double)
    ensures { Adds out.old out.new (value_tokens (double_data x.now)) }
{
    let value = x.get();
    if value.is_finite() {
        number(out, x);
        return;
    }
    out.string(double_name(value));
}

/// A finite double, as a number.
fn number(out: &mut ByteCounter, x: &Double)
    requires { float_is_finite x.now ≡ true }
    ensures { Adds out.old out.new (json_number (double_text x.now) ∷ []) }
{
    let text = x.text();
    out.number(text.as_str());
}

/// The field `value` of a pair, where one is set.
#[cycle(count)]
fn count_set_value(out: &mut ByteCounter, value: &AnyValue)
    ensures { AddsField out.old out.new (codes "value") (message_field (value_fields value.now)) }
{
    if !is_set(value) {
        return;
    }
    out.key("value");
    value.count(out);
}
