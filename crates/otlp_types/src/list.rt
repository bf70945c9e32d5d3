//! Lists and texts whose contents contracts compare, and copies of them.
ghost use Rattle.std.specs.Prelude.{◌≡◌, [], ◌∷◌, ◌++◌, ◌↔◌, length, IsTrue, IfOk, OnOk, OnErr, string_bytes};

use arrayvec::ArrayString;
use std::alloc::{AllocError, Global};
use std::marker::Model;

/// A copy that equals its source, for which memory may be refused.
pub trait TryClone: Sized {
    /// The copy. `Err` only where memory was refused.
    fn try_clone(&self, alloc: Global) -> Result<Self, AllocError>
        ensures { IfOk result (λ copy. copy ≡ self.now) };
}

/// Copies of two values. `Err` only where memory was refused.
pub fn both<A: TryClone + Drop, B: TryClone>(
    alloc: Global,
    a: &A,
    b: &B,
) -> Result<(A, B), AllocError>
    ensures { IfOk result (λ copies. copies ≡ (a.now, b.now)) }
{
    let a = a.try_clone(alloc)?;
    let b = b.try_clone(alloc)?;
    Ok((a, b))
}

/// A `Vec` that contracts see as the list of its elements.
#[derive(Drop)]
pub struct List<T> {
    items: Vec<T>,
}

impl<T> Model for List<T> {
    ghost use Rattle.std.specs.Prelude.{List};
    ghost use Rattle.std.specs.Coded.{coded_list};

    ghost Value = { List T };

    ghost coded = { coded_list T.code };

    ghost view = { λ it. it.items.items };
}

impl<T> List<T> {
    /// The empty list. It takes no memory until an element is pushed.
    pub fn new(alloc: Global) -> List<T>
        ensures { result ≡ [] }
    {
        List {
            items: Vec::new(alloc),
        }
    }

    /// The elements of a `Vec`, which is moved in: it takes no memory.
    pub fn from_vec(items: Vec<T>) -> List<T>
        ensures { result ≡ items.items }
    {
        List { items }
    }

    /// The `Vec` of the elements, which is moved out: it takes no memory.
    pub fn into_vec(self) -> Vec<T>
        ensures { result.items ≡ self }
    {
        self.items
    }

    /// The elements.
    pub fn as_slice(&self) -> &[T]
        ensures { result.now ≡ self.now }
    {
        self.items.as_slice()
    }

    /// How many elements there are.
    pub fn len(&self) -> usize
        ensures { result ≡ length self.now }
    {
        self.items.len()
    }

    /// Whether there is no element.
    pub fn is_empty(&self) -> bool
        ensures { IsTrue result ↔ (self.now ≡ []) }
    {
        self.items.is_empty()
    }
}

impl<T: Drop> List<T> {
    /// Puts an element last. Where memory is refused the list is as before, and the element is dropped.
    pub fn push(&mut self, item: T) -> Result<(), AllocError>
        ensures ok { OnOk result (self.new ≡ self.old ++ item ∷ []) }
        ensures err { OnErr result (self.new ≡ self.old) }
    {
        self.items.push(item)?;
        Ok(())
    }
}

impl<T: TryClone + Drop> TryClone for List<T> {
    fn try_clone(&self, alloc: Global) -> Result<List<T>, AllocError> {
        let mut copy = List::from_vec(Vec::with_capacity(alloc, self.len())?);
        for item in self.as_slice() {
            copy.push(item.try_clone(alloc)?)?;
        }
        Ok(copy)
    }
}

/// A text that contracts see as its bytes. One of at most 16 bytes lies in the value itself, and takes no memory but
/// that.
#[derive(Drop)]
pub struct Text {
    held: TextBytes,
}

/// Where the bytes of a text lie: keys, names and values of spans are mostly short.
#[derive(Drop)]
enum TextBytes {
    Short(ArrayString<16>),
    Long(String),
}

impl Model for Text {
    ghost use Rattle.std.specs.Prelude.{ℕ, List};
    ghost use Rattle.otlp_types.specs.Held.{held_bytes};

    ghost Value = { List ℕ };

    ghost view = { λ it. held_bytes it.held };
}

impl Text {
    /// The empty text. It takes no memory.
    pub fn new(alloc: Global) -> Text
        ensures { result ≡ [] }
    {
        Text::from_string(String::new(alloc))
    }

    /// The text of a `String`, which is moved in: it takes no memory.
    pub fn from_string(text: String) -> Text
        ensures { result ≡ string_bytes text }
    {
        Text {
            held: TextBytes::Long(text),
        }
    }

    /// A copy of a text. It takes memory where the text is longer than 16 bytes.
    pub fn from_str(alloc: Global, text: &str) -> Result<Text, AllocError>
        ensures { IfOk result (λ it. it ≡ text.now) }
    {
        let held = match ArrayString::from(text) {
            Ok(short) => TextBytes::Short(short),
            Err(_) => TextBytes::Long(String::from_str(alloc, text)?),
        };
        Ok(Text { held })
    }

    /// The text.
    pub fn as_str(&self) -> &str
        ensures { result.now ≡ self.now }
    {
        match &self.held {
            TextBytes::Short(text) => text.as_str(),
            TextBytes::Long(text) => text.as_str(),
        }
    }
}

impl TryClone for Text {
    fn try_clone(&self, alloc: Global) -> Result<Text, AllocError> {
        Text::from_str(alloc, self.as_str())
    }
}
