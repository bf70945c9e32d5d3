//! Single tokens. `Declined` where the token is of another kind than is taken here: it says nothing of the text.
ghost use Rattle.std.specs.Prelude.{◌≡◌, ℕ, ◌<◌, ◌^◌, ◌∷◌, length, Some, None, Ok, IfOk, IfSome, IsTrue, OnOk};
ghost use Rattle.std.specs.Bool.{MatchBool};
ghost use Rattle.json.specs.Json.{read_key};
ghost use Rattle.json.specs.Token as token;
ghost use Rattle.serde_json.specs.Data.{Data, Items, Members, Num, unsigned};
ghost use Rattle.serde_json.specs.Read.{number_of, number_from};
ghost use Rattle.serde_json.specs.Find.{as_str, as_bool};
ghost use Rattle.otlp_reading.specs.Kinds.{text, enum, u32, u64, i64_value, unless_null};
ghost use Rattle.otlp_reading.specs.Reading.{double_of, double_value};
ghost use Rattle.otlp_stream.specs.declared.take.Declined.TheVariants.{Declined, NoMemory};
ghost use Rattle.otlp_stream.specs.Taking.{Takes, TakesAs, ReadsItems, TakesMembers, present, held};

use fast_float::Numeral;
use json::{Invalid, Reader, Token};
use otlp_reading::{double_of_number, double_of_text, first_byte, i64_text, kept_double, u64_text};
use otlp_types::{AnyValue, Text};
use std::alloc::{AllocError, Global};

/// Why the fast way gave up.
#[derive(Clone, Copy, PartialEq, Eq, Drop)]
pub enum Declined {
    /// The text isn't plain: it has to be read with all care.
    Declined,
    /// Memory was refused.
    NoMemory,
}

impl From<AllocError> for Declined {
    ghost from_gives = { λ _ e. e ≡ NoMemory };

    fn from(_refused: AllocError) -> Declined {
        Declined::NoMemory
    }
}

impl From<Invalid> for Declined {
    ghost from_gives = { λ _ e. e ≡ Declined };

    fn from(_invalid: Invalid) -> Declined {
        Declined::Declined
    }
}

/// Puts what was found in its place.
#[inline(always)]
pub fn put<T: Drop>(place: &mut T, found: Result<T, Declined>) -> Result<(), Declined>
    ensures { OnOk result (found ≡ Ok place.new) }
{
    *place = found?;
    Ok(())
}

/// Whether the next member has this name. False at the end of the object; another name is declined.
#[inline(always)]
pub fn has_next(reader: &mut Reader<'_>, name: &str) -> Result<bool, Declined>
    ensures { IfOk result (λ more. MatchBool more (read_key reader.old ≡ Some (Some name.now, reader.new))
        (read_key reader.old ≡ Some (None, reader.new))) }
{
    match reader.next_key()? {
        Some(found) => if found == name {
            Ok(true)
        } else {
            Err(Declined::Declined)
        },
        None => Ok(false),
    }
}

/// The end of the object.
#[inline(always)]
pub fn end_object(reader: &mut Reader<'_>) -> Result<(), Declined>
    ensures { OnOk result (read_key reader.old ≡ Some (None, reader.new)) }
{
    match reader.next_key()? {
        Some(_) => Err(Declined::Declined),
        None => Ok(()),
    }
}

/// The beginning of an object, which may stand so deep.
#[inline(always)]
pub fn begin_object(reader: &mut Reader<'_>, depth: usize) -> Result<(), Declined>
    ensures deep { OnOk result (depth ≡ 0 → ⊥) }
    ensures begins { OnOk result (reader.old ≡ token.begin_object ∷ reader.new) }
{
    let Some(Token::BeginObject) = reader.next() else {
        return Err(Declined::Declined);
    };
    if depth == 0 {
        return Err(Declined::Declined);
    }
    Ok(())
}

/// The beginning of a list, which may stand so deep.
#[inline(always)]
pub fn begin_array(reader: &mut Reader<'_>, depth: usize) -> Result<(), Declined>
    ensures deep { OnOk result (depth ≡ 0 → ⊥) }
    ensures begins { OnOk result (reader.old ≡ token.begin_array ∷ reader.new) }
{
    let Some(Token::BeginArray) = reader.next() else {
        return Err(Declined::Declined);
    };
    if depth == 0 {
        return Err(Declined::Declined);
    }
    Ok(())
}

/// A text, where it stands. Null is the empty one.
#[inline(always)]
pub fn piece<'a>(reader: &mut Reader<'a>) -> Result<&'a str, Declined>
    ensures { IfOk result (λ s. (depth : ℕ) → TakesAs (present text) depth reader.old reader.new s.now) }
{
    match reader.next() {
        Some(Token::String(text)) => Ok(text),
        Some(Token::Null) => Ok(""),
        _ => Err(Declined::Declined),
    }
}

/// A text, copied.
#[inline(always)]
pub fn text(alloc: Global, reader: &mut Reader<'_>) -> Result<Text, Declined>
    ensures { IfOk result (λ s. (depth : ℕ) → TakesAs (present text) depth reader.old reader.new s) }
{
    Ok(Text::from_str(alloc, piece(reader)?)?)
}

/// The number that a JSON number with no minus sign is, if it is whole and fits.
#[inline(always)]
pub fn natural(text: &str) -> Option<u64>
    ensures { IfSome result (λ n. number_of text.now ≡ Some (unsigned n)) }
{
    if first_byte(text) == b'-' {
        None
    } else {
        Numeral::scan(text.as_bytes()).to_u64()
    }
}

/// Whether the number that this numeral writes has a nearest float.
fn is_finite(negative: bool, numeral: &Numeral<'_>) -> bool
    ensures { IsTrue result → (n : Num) × (number_from negative numeral.now ≡ Some n) }
{
    numeral.to_float::<f64>(negative).is_finite()
}

/// Whether a JSON number is one that `serde_json` takes.
fn is_taken(text: &str) -> bool
    ensures { IsTrue result → (n : Num) × (number_of text.now ≡ Some n) }
{
    let bytes = text.as_bytes();
    if first_byte(text) == b'-' {
        is_finite(true, &Numeral::scan(&bytes[1..]))
    } else {
        is_finite(false, &Numeral::scan(bytes))
    }
}

/// A text that is there, copied.
#[inline(always)]
pub fn held_text(alloc: Global, reader: &mut Reader<'_>) -> Result<Text, Declined>
    ensures { IfOk result (λ s. (depth : ℕ) → TakesAs (held as_str) depth reader.old reader.new s) }
{
    match reader.next() {
        Some(Token::String(text)) => Ok(Text::from_str(alloc, text)?),
        _ => Err(Declined::Declined),
    }
}

/// A truth value that is there.
#[inline(always)]
pub fn held_bool(reader: &mut Reader<'_>) -> Result<bool, Declined>
    ensures { IfOk result (λ b. (depth : ℕ) → TakesAs (held as_bool) depth reader.old reader.new b) }
{
    match reader.next() {
        Some(Token::Bool(b)) => Ok(b),
        _ => Err(Declined::Declined),
    }
}

/// A signed number of 64 bits that is there, or its decimal text. A number with a minus sign is left to the other way.
#[inline(always)]
pub fn held_i64(reader: &mut Reader<'_>) -> Result<i64, Declined>
    ensures { IfOk result (λ z. (depth : ℕ) → TakesAs (held i64_value) depth reader.old reader.new z) }
{
    match reader.next() {
        Some(Token::String(text)) => match i64_text(text) {
            Some(n) => Ok(n),
            None => Err(Declined::Declined),
        },
        Some(Token::Number(text)) => match natural(text) {
            Some(n) => if n <= 0x7fff_ffff_ffff_ffff {
                Ok(n as i64)
            } else {
                Err(Declined::Declined)
            },
            None => Err(Declined::Declined),
        },
        _ => Err(Declined::Declined),
    }
}

/// A double that is there, if it is kept.
#[inline(always)]
pub fn held_double(
    keeps_doubles: bool,
    reader: &mut Reader<'_>,
) -> Result<Option<AnyValue>, Declined>
    ensures { IfOk result (λ x. (depth : ℕ)
        → TakesAs (held (double_value keeps_doubles)) depth reader.old reader.new x) }
{
    if keeps_doubles {
        Ok(kept_double(double(reader)?))
    } else {
        discarded_double(reader)?;
        Ok(None)
    }
}

/// The double that a number or a text is.
fn double(reader: &mut Reader<'_>) -> Result<f64, Declined>
    ensures { IfOk result (λ x. (depth : ℕ) → TakesAs (held double_of) depth reader.old reader.new x) }
{
    match reader.next() {
        Some(Token::Number(text)) => match double_of_number(text) {
            Some(x) => Ok(x),
            None => Err(Declined::Declined),
        },
        Some(Token::String(text)) => match double_of_text(text) {
            Some(x) => Ok(x),
            None => Err(Declined::Declined),
        },
        _ => Err(Declined::Declined),
    }
}

/// Passes over a number or a text.
#[inline(always)]
fn discarded_double(reader: &mut Reader<'_>) -> Result<(), Declined>
    ensures { OnOk result ((depth : ℕ) → (d : Data) × Takes depth reader.old reader.new d × (unless_null d ≡ Some d)) }
{
    match reader.next() {
        Some(Token::Number(text)) => if is_taken(text) {
            Ok(())
        } else {
            Err(Declined::Declined)
        },
        Some(Token::String(_)) => Ok(()),
        _ => Err(Declined::Declined),
    }
}

/// An unsigned number of 64 bits, or its decimal text.
#[inline(always)]
pub fn number_u64(reader: &mut Reader<'_>) -> Result<u64, Declined>
    ensures { IfOk result (λ n. (depth : ℕ) → TakesAs (present u64) depth reader.old reader.new n) }
{
    match reader.next() {
        Some(Token::String(text)) => match u64_text(text) {
            Some(n) => Ok(n),
            None => Err(Declined::Declined),
        },
        Some(Token::Number(text)) => match natural(text) {
            Some(n) => Ok(n),
            None => Err(Declined::Declined),
        },
        Some(Token::Null) => Ok(0),
        _ => Err(Declined::Declined),
    }
}

/// An unsigned number of 32 bits, or its decimal text.
#[inline(always)]
pub fn number_u32(reader: &mut Reader<'_>) -> Result<u32, Declined>
    ensures { IfOk result (λ n. (depth : ℕ) → TakesAs (present u32) depth reader.old reader.new n) }
{
    let n = number_u64(reader)?;
    if n <= 0xffff_ffff {
        Ok(n as u32)
    } else {
        Err(Declined::Declined)
    }
}

/// The number of an enumeration. One below zero is left to the other way.
#[inline(always)]
pub fn enumeration(reader: &mut Reader<'_>) -> Result<i32, Declined>
    ensures { IfOk result (λ n. (depth : ℕ) → TakesAs (present enum) depth reader.old reader.new n) }
{
    match reader.next() {
        Some(Token::Number(text)) => match natural(text) {
            Some(n) => if n <= 0x7fff_ffff {
                Ok(n as i32)
            } else {
                Err(Declined::Declined)
            },
            None => Err(Declined::Declined),
        },
        Some(Token::Null) => Ok(0),
        _ => Err(Declined::Declined),
    }
}

/// Passes over a value.
#[cycle(skip)]
pub fn skip(reader: &mut Reader<'_>, depth: usize) -> Result<(), Declined>
    ensures { OnOk result ((d : Data) × Takes depth reader.old reader.new d) }
{
    match reader.next() {
        Some(Token::String(_)) => Ok(()),
        Some(Token::Bool(_)) => Ok(()),
        Some(Token::Null) => Ok(()),
        Some(Token::Number(text)) => if is_taken(text) {
            Ok(())
        } else {
            Err(Declined::Declined)
        },
        Some(Token::BeginArray) => {
            if depth == 0 {
                return Err(Declined::Declined);
            }
            skip_items(reader, depth - 1)
        }
        Some(Token::BeginObject) => {
            if depth == 0 {
                return Err(Declined::Declined);
            }
            skip_members(reader, depth - 1)
        }
        _ => Err(Declined::Declined),
    }
}

#[cycle(skip)]
fn skip_items(reader: &mut Reader<'_>, depth: usize) -> Result<(), Declined>
    ensures { OnOk result ((all : Items) × ReadsItems depth reader.old reader.new all) }
{
    'items: while !reader.take_end_array() {
        skip(reader, depth)?;
    }
    Ok(())
}

#[cycle(skip)]
fn skip_members(reader: &mut Reader<'_>, depth: usize) -> Result<(), Declined>
    ensures { OnOk result ((all : Members) × TakesMembers Some depth reader.old reader.new all) }
{
    'members: while let Some(_) = reader.next_key()? {
        skip(reader, depth)?;
    }
    Ok(())
}
