//! Messages, and lists of them.
ghost use Rattle.serde_json.specs.Data.{Members};
ghost use Rattle.serde_json.specs.View.{view, items_view, members_view};
ghost use Rattle.std.specs.Prelude.{Bool, Option};
ghost use Rattle.otlp_reading.specs.Kinds.{field, each, list_of, message, inner};
ghost use Rattle.otlp_reading.specs.Gives.{Gives};

use crate::decode_error::DecodeError;
use crate::kinds;
use otlp_types::List;
use serde_json::{Map, Value};
use std::alloc::Global;

/// What a JSON object may be read as.
pub trait Message: Sized {
    /// The message that an object's members are, if they are one, where doubles are kept or not.
    ghost meaning: { Bool → Members → Option Self };

    /// The message. `Shape` where the members are of none.
    fn read(
        alloc: Global,
        keeps_doubles: bool,
        members: &Map<String, Value>,
    ) -> Result<Self, DecodeError>
        ensures { Gives result (meaning keeps_doubles (members_view members.now.entries)) };
}

/// An item of a list: null, as any value that is no object, is of another shape.
fn read_item<T: Message>(alloc: Global, keeps_doubles: bool, item: &Value) -> Result<T, DecodeError>
    ensures { Gives result (message (T.meaning keeps_doubles) (view item.now)) }
{
    T::read(alloc, keeps_doubles, kinds::object(item)?)
}

/// The messages that the items are.
fn each<T: Message + Drop>(
    alloc: Global,
    keeps_doubles: bool,
    items: &[Value],
) -> Result<List<T>, DecodeError>
    ensures { Gives result (each (message (T.meaning keeps_doubles)) (items_view items.now)) }
{
    let mut all = List::from_vec(Vec::with_capacity(alloc, items.len())?);
    for item in items {
        all.push(read_item(alloc, keeps_doubles, item)?)?;
    }
    Ok(all)
}

/// A list in a field. An absent one is empty.
pub fn list_of<T: Message + Drop>(
    alloc: Global,
    keeps_doubles: bool,
    members: &Map<String, Value>,
    name: &str,
) -> Result<List<T>, DecodeError>
    ensures { Gives result
        (list_of (message (T.meaning keeps_doubles)) (field name.now (members_view members.now.entries))) }
{
    each(alloc, keeps_doubles, kinds::items(members, name)?)
}

/// A message in a field. An absent one has all defaults.
pub fn inner<T: Message>(
    alloc: Global,
    keeps_doubles: bool,
    members: &Map<String, Value>,
    name: &str,
) -> Result<T, DecodeError>
    ensures { Gives result (inner (T.meaning keeps_doubles) (field name.now (members_view members.now.entries))) }
{
    match kinds::field(members, name) {
        Some(value) => T::read(alloc, keeps_doubles, kinds::object(value)?),
        None => T::read(alloc, keeps_doubles, &Map::new(alloc)),
    }
}
