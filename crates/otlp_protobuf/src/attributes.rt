//! Attributes, of which those that hold a double may be discarded.
ghost use Rattle.std.specs.Prelude.{◌≡◌, ◌+◌, ◌-◌, ◌^◌, min, IfOk, OnOk};
ghost use Rattle.otlp_protobuf.specs.Kinds.{uint32};
ghost use Rattle.otlp_protobuf.specs.Values.{pair_of, value_to, most_levels};
ghost use Rattle.otlp_protobuf.specs.Gives.{Gives, GivesAs};

use crate::decode_error::DecodeError;
use crate::kinds;
use crate::value::pair;
use otlp_types::{KeyValue, List};
use std::alloc::{AllocError, Global};

/// How deep the value of an attribute may nest.
const MOST_LEVELS: usize = 29;

/// The attributes of a message that is being read.
#[derive(Drop)]
pub struct AttributesPart {
    pub kept: List<KeyValue>,
    /// How many were discarded, each for a double.
    pub discarded: u32,
    /// How many were dropped, as the sender has it.
    pub counted: u32,
}

impl AttributesPart {
    ghost use Rattle.otlp_protobuf.specs.Reading.{no_attributes, with_attribute, attribute, dropped_of};

    /// Before the first.
    pub fn new(alloc: Global) -> AttributesPart
        ensures { result ≡ no_attributes }
    {
        AttributesPart {
            kept: List::new(alloc),
            discarded: 0,
            counted: 0,
        }
    }

    /// Takes one, or discards it.
    fn put(&mut self, keeps_doubles: bool, attribute: KeyValue) -> Result<(), AllocError>
        ensures { OnOk result (self.new ≡ with_attribute keeps_doubles self.old attribute) }
    {
        if keeps_doubles || !attribute.value.holds_double() {
            self.kept.push(attribute)?;
        } else {
            self.discarded = self.discarded.saturating_add(1);
        }
        Ok(())
    }

    /// Reads one more.
    pub fn read(
        &mut self,
        alloc: Global,
        keeps_doubles: bool,
        bytes: &[u8],
    ) -> Result<(), DecodeError>
        ensures { GivesAs (λ _. self.new) result (attribute keeps_doubles self.old bytes.now) }
    {
        let attribute = pair(alloc, bytes, MOST_LEVELS)?;
        self.put(keeps_doubles, attribute)?;
        Ok(())
    }

    /// How many were dropped.
    pub fn dropped(&self) -> u32
        ensures { result ≡ dropped_of self.now }
    {
        self.counted.saturating_add(self.discarded)
    }
}
