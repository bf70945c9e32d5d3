//! The texts of literals, keys and paths, put behind another.
ghost use Rattle.std.specs.Prelude.{◌≡◌, ◌<◌, [], ◌∷◌, ◌++◌, IsAscii, OnOk, encode_utf8, string_bytes};
ghost use Rattle.std.specs.Fmt.{signed_decimal};
ghost use Rattle.ottl_print.specs.Names.{root_name};
ghost use Rattle.ottl_print.specs.Texts as spec;

use crate::names::{is_outside, plain_name};
use itoa::Buffer;
use ottl_text::{Context, Key, Literal, Path, Root};
use std::alloc::{AllocError, Global};

/// A text in quotes.
pub(crate) fn put_quoted(text: &mut String, said: &str) -> Result<(), AllocError>
    ensures { OnOk result (string_bytes text.new ≡ string_bytes text.old ++ spec.in_quotes said.now) }
{
    text.push_str("\"")?;
    put_escaped(text, said)?;
    text.push_str("\"")?;
    Ok(())
}

/// What a text says, with a backslash before each letter that needs one.
fn put_escaped(text: &mut String, said: &str) -> Result<(), AllocError>
    ensures { OnOk result (string_bytes text.new ≡ string_bytes text.old ++ spec.escaped said.now) }
{
    for letter in said.chars() {
        put_letter(text, letter)?;
    }
    Ok(())
}

/// A letter of what a text says.
#[tactic(auto, using(crate::proofs::Escapes::stays, crate::proofs::Escapes::turned))]
fn put_letter(text: &mut String, letter: char) -> Result<(), AllocError>
    ensures { OnOk result (string_bytes text.new ≡ string_bytes text.old ++ spec.escaped (encode_utf8 letter)) }
{
    let behind = letter_of(letter);
    if behind == '\0' {
        text.push(letter)?;
        return Ok(());
    }
    text.push_str("\\")?;
    text.push(behind)?;
    Ok(())
}

/// The letter that stands for another behind a backslash, or 0.
fn letter_of(letter: char) -> char
    ensures { result ≡ spec.letter_of letter }
{
    match letter {
        '"' => '"',
        '\\' => '\\',
        '\u{7}' => 'a',
        '\u{8}' => 'b',
        '\u{c}' => 'f',
        '\n' => 'n',
        '\r' => 'r',
        '\t' => 't',
        '\u{b}' => 'v',
        _ => '\0',
    }
}

/// A whole number.
fn put_int(text: &mut String, number: i64) -> Result<(), AllocError>
    ensures { OnOk result (string_bytes text.new ≡ string_bytes text.old ++ signed_decimal number) }
{
    let mut buffer = Buffer::new();
    text.push_str(buffer.format(number))?;
    Ok(())
}

/// A float. Nothing is put for one that isn't finite: no text is read as one.
#[tactic(auto, unfolding(crate::specs::Texts::float_text))]
fn put_float(text: &mut String, number: f64) -> Result<(), AllocError>
    ensures { OnOk result (string_bytes text.new ≡ string_bytes text.old ++ spec.float_text number) }
{
    if !number.is_finite() {
        return Ok(());
    }
    let digits = shortest_float::text_of(number);
    put_with_a_point(text, digits.as_bytes())
}

/// The text of a number, with `.0` before an exponent that no point stands before.
fn put_with_a_point(text: &mut String, number: &[u8]) -> Result<(), AllocError>
    requires { IsAscii number.now }
    ensures { OnOk result (string_bytes text.new ≡ string_bytes text.old ++ spec.with_a_point number.now) }
{
    let Some((first, rest)) = number.split_first() else {
        return Ok(());
    };
    if *first == b'.' {
        return put_ascii(text, number);
    }
    if *first == b'e' {
        text.push_str(".0")?;
        return put_ascii(text, number);
    }
    put_ascii_byte(text, *first)?;
    put_with_a_point(text, rest)
}

/// Letters of ASCII.
fn put_ascii(text: &mut String, letters: &[u8]) -> Result<(), AllocError>
    requires { IsAscii letters.now }
    ensures { OnOk result (string_bytes text.new ≡ string_bytes text.old ++ letters.now) }
{
    for byte in letters {
        put_ascii_byte(text, *byte)?;
    }
    Ok(())
}

/// A letter of ASCII.
#[tactic(auto, using(crate::proofs::Escapes::one_byte))]
fn put_ascii_byte(text: &mut String, byte: u8) -> Result<(), AllocError>
    requires { byte < 128 }
    ensures { OnOk result (string_bytes text.new ≡ string_bytes text.old ++ (byte ∷ [])) }
{
    text.push(char::from(byte))?;
    Ok(())
}

/// Bytes in hex, behind `0x`.
fn put_hex(alloc: Global, text: &mut String, written: &[u8]) -> Result<(), AllocError>
    ensures { OnOk result (string_bytes text.new ≡ string_bytes text.old ++ spec.hex_text written.now) }
{
    text.push_str("0x")?;
    let digits = hex::encode(alloc, written)?;
    text.push_str(digits.as_str())?;
    Ok(())
}

/// A literal.
pub(crate) fn put_literal(
    alloc: Global,
    text: &mut String,
    literal: &Literal,
) -> Result<(), AllocError>
    ensures { OnOk result (string_bytes text.new ≡ string_bytes text.old ++ spec.literal_text literal.now) }
{
    match literal {
        Literal::Nil => {
            text.push_str("nil")?;
            Ok(())
        }
        Literal::Bool(true) => {
            text.push_str("true")?;
            Ok(())
        }
        Literal::Bool(false) => {
            text.push_str("false")?;
            Ok(())
        }
        Literal::Int(number) => put_int(text, *number),
        Literal::Float(number) => put_float(text, *number),
        Literal::Text(said) => put_quoted(text, said.as_str()),
        Literal::Bytes(written) => put_hex(alloc, text, written.as_slice()),
    }
}

/// A key.
fn put_key(text: &mut String, key: &Key) -> Result<(), AllocError>
    ensures { OnOk result (string_bytes text.new ≡ string_bytes text.old ++ spec.key_text key.now) }
{
    match key {
        Key::Text(said) => put_quoted(text, said.as_str()),
        Key::Index(number) => put_int(text, *number),
    }
}

/// A key in brackets.
fn put_bracketed(text: &mut String, key: &Key) -> Result<(), AllocError>
    ensures { OnOk result (string_bytes text.new ≡ string_bytes text.old ++ spec.bracketed key.now) }
{
    text.push_str("[")?;
    put_key(text, key)?;
    text.push_str("]")?;
    Ok(())
}

/// Keys, each in brackets.
fn put_keys(text: &mut String, keys: &[Key]) -> Result<(), AllocError>
    ensures { OnOk result (string_bytes text.new ≡ string_bytes text.old ++ spec.keys_text keys.now) }
{
    for key in keys {
        put_bracketed(text, key)?;
    }
    Ok(())
}

/// The name of a path.
fn put_root(text: &mut String, context: Context, root: Root) -> Result<(), AllocError>
    ensures { OnOk result (string_bytes text.new ≡ string_bytes text.old ++ root_name context root) }
{
    if context == Context::SpanEvent && !is_outside(root) {
        text.push_str("span.")?;
    }
    text.push_str(plain_name(root))?;
    Ok(())
}

/// A path.
pub(crate) fn put_path(text: &mut String, context: Context, path: &Path) -> Result<(), AllocError>
    ensures { OnOk result (string_bytes text.new ≡ string_bytes text.old ++ (root_name context path.now.root ++ spec.keys_text path.now.keys)) }
{
    put_root(text, context, path.root)?;
    put_keys(text, path.keys.as_slice())
}
