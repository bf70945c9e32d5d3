//! Messages, read from tokens with no tree. What isn't plain is declined.
ghost use Rattle.std.specs.Prelude.{◌≡◌, ℕ, Bool, List, Option, Some, None, IfOk, OnOk};
ghost use Rattle.serde_json.specs.Data.{Data, Members};
ghost use Rattle.serde_json.specs.Read.{read};
ghost use Rattle.otlp_reading.specs.Decoding.{IsJson};
ghost use Rattle.otlp_reading.specs.Kinds.{message, inner, list_of};
ghost use Rattle.otlp_stream.specs.Taking.{TakesAs, TakesMembers, TakesField, fields_of, present};

use crate::take::{Declined, begin_array, begin_object};
use json::{Reader, Scratch};
use otlp_types::List;
use std::alloc::Global;

/// `serde_json` reads no text that nests deeper.
const DEPTH: usize = 127;

/// A message that is being read, a field at a time.
pub trait Building: Sized {
    /// The message.
    type Message;

    /// The message that an object's members are, if they are one, where doubles are kept or not.
    ghost meaning: { Bool → Members → Option Self.Message };

    /// What was read of the fields, by what stands under each name.
    ghost so_far: { Bool → (List ℕ → Option Data) → Self → Type 0 };

    /// Before the first field.
    fn start(alloc: Global) -> Self
        ensures { (keeps_doubles : Bool) → so_far keeps_doubles (λ _. None) result };

    /// Takes the value of a field, or of a member that is none.
    fn field(
        &mut self,
        alloc: Global,
        keeps_doubles: bool,
        reader: &mut Reader<'_>,
        depth: usize,
        name: &str,
    ) -> Result<(), Declined>
        ensures { OnOk result
            (TakesField (so_far keeps_doubles) depth name.now self.old reader.old self.new reader.new) };

    /// After the last field.
    fn build(self) -> Self::Message
        ensures { (keeps_doubles : Bool) (ms : Members) → so_far keeps_doubles (fields_of ms) self
            → meaning keeps_doubles ms ≡ Some result };
}

/// The message, of the members from here to the end of the object.
#[inline(always)]
fn members<B: Building + Drop>(
    alloc: Global,
    keeps_doubles: bool,
    reader: &mut Reader<'_>,
    depth: usize,
) -> Result<B::Message, Declined>
    ensures { IfOk result (λ x. TakesMembers (B.meaning keeps_doubles) depth reader.old reader.new x) }
{
    let mut built = B::start(alloc);
    'members: for _ in 0..u64::MAX {
        let Some(name) = reader.next_key()? else {
            return Ok(built.build());
        };
        built.field(alloc, keeps_doubles, reader, depth, name)?;
    }
    Err(Declined::Declined)
}

/// A message in a list, or in a field.
#[inline(always)]
pub fn message<B: Building + Drop>(
    alloc: Global,
    keeps_doubles: bool,
    reader: &mut Reader<'_>,
    depth: usize,
) -> Result<B::Message, Declined>
    ensures item { IfOk result (λ x. TakesAs (message (B.meaning keeps_doubles)) depth reader.old reader.new x) }
    ensures field { IfOk result (λ x. TakesAs (present (inner (B.meaning keeps_doubles))) depth reader.old reader.new x) }
{
    begin_object(reader, depth)?;
    members::<B>(alloc, keeps_doubles, reader, depth - 1)
}

/// A list of messages in a field.
pub fn list_of<B: Building + Drop>(
    alloc: Global,
    keeps_doubles: bool,
    reader: &mut Reader<'_>,
    depth: usize,
) -> Result<List<B::Message>, Declined>
where
    B::Message: Drop,
    ensures { IfOk result
        (λ xs. TakesAs (present (list_of (message (B.meaning keeps_doubles)))) depth reader.old reader.new xs) }
{
    begin_array(reader, depth)?;
    let mut all = List::new(alloc);
    'items: for _ in 0..u64::MAX {
        if reader.take_end_array() {
            return Ok(all);
        }
        all.push(message::<B>(alloc, keeps_doubles, reader, depth - 1)?)?;
    }
    Err(Declined::Declined)
}

/// The message that a whole text is.
fn whole<B: Building + Drop>(
    alloc: Global,
    keeps_doubles: bool,
    text: &str,
) -> Result<B::Message, Declined>
where
    B::Message: Drop,
    ensures { IfOk result
        (λ x. (d : Data) × (read text.now ≡ Some d) × (message (B.meaning keeps_doubles) d ≡ Some x)) }
{
    let mut scratch = Scratch::new(alloc);
    let mut reader = Reader::new(text, &mut scratch)?;
    let found = message::<B>(alloc, keeps_doubles, &mut reader, DEPTH)?;
    match reader.next() {
        None => Ok(found),
        Some(_) => Err(Declined::Declined),
    }
}

/// The message that the bytes are.
pub fn message_of<B: Building + Drop>(
    alloc: Global,
    keeps_doubles: bool,
    bytes: &[u8],
) -> Result<B::Message, Declined>
where
    B::Message: Drop,
    ensures { IfOk result
        (λ x. (d : Data) × IsJson bytes.now d × (message (B.meaning keeps_doubles) d ≡ Some x)) }
{
    match simdutf8::compat::from_utf8(bytes) {
        Ok(text) => whole::<B>(alloc, keeps_doubles, text),
        Err(_) => Err(Declined::Declined),
    }
}
