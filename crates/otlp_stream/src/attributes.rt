//! The attributes of a message, with the count of those that were dropped.
ghost use Rattle.std.specs.Prelude.{◌≡◌, IfOk};
ghost use Rattle.otlp_reading.specs.Reading.{resource};
ghost use Rattle.otlp_stream.specs.SoFar.{kept_attributes, AttributesSoFar};
ghost use Rattle.otlp_stream.specs.Taking.{TakesAs, present};

use crate::stream::Building;
use crate::take::{Declined, number_u32, put, skip};
use crate::values::{KeptItems, key_values};
use json::Reader;
use otlp_reading::dropped;
use otlp_types::{KeyValue, List, Resource};
use std::alloc::Global;

/// `serde_json` reads no text that nests deeper.
const LEVELS: usize = 127;

/// The attributes in a field.
fn attributes(
    alloc: Global,
    keeps_doubles: bool,
    reader: &mut Reader<'_>,
    depth: usize,
) -> Result<KeptItems<KeyValue>, Declined>
    ensures { IfOk result (λ x. TakesAs (present (kept_attributes keeps_doubles)) depth reader.old reader.new x) }
{
    let found = key_values(alloc, keeps_doubles, reader, depth, LEVELS)?;
    Ok(KeptItems {
        kept: fitted(found.kept),
        discarded: found.discarded,
    })
}

/// The list, which gives up the room that it has no use for: spans wait with their attributes.
fn fitted<T>(list: List<T>) -> List<T>
    ensures { result ≡ list }
{
    let mut items = list.into_vec();
    items.shrink_to_fit();
    List::from_vec(items)
}

/// What is read of a message's attributes. A `Resource` has nothing else.
#[derive(Drop)]
pub struct AttributesPart {
    attributes: KeptItems<KeyValue>,
    counted: u32,
}

impl Building for AttributesPart {
    type Message = Resource;

    ghost meaning = { resource };

    ghost so_far = { AttributesSoFar };

    fn start(alloc: Global) -> AttributesPart {
        AttributesPart {
            attributes: KeptItems::none(alloc),
            counted: 0,
        }
    }

    #[inline(always)]
    fn field(
        &mut self,
        alloc: Global,
        keeps_doubles: bool,
        reader: &mut Reader<'_>,
        depth: usize,
        name: &str,
    ) -> Result<(), Declined> {
        match name {
            "attributes" => put(
                &mut self.attributes,
                attributes(alloc, keeps_doubles, reader, depth),
            ),
            "droppedAttributesCount" => put(&mut self.counted, number_u32(reader)),
            _ => skip(reader, depth),
        }
    }

    fn build(self) -> Resource {
        let dropped_attributes_count = dropped(self.counted, self.attributes.discarded);
        Resource {
            attributes: self.attributes.kept,
            dropped_attributes_count,
        }
    }
}
