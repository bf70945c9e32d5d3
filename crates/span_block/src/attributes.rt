//! The attributes of a block, one after another.
ghost use Rattle.std.specs.Prelude.{◌≡◌};

use crate::attribute::Attribute;
use crate::block::SpanBlock;
use crate::messages::next_message;
use crate::shown::attribute;
use protobuf_wire::Fields;
use std::marker::Model;

/// The attributes of a span that are left, in order. A contract sees them as the list of these.
#[derive(Drop)]
pub struct Attributes<'a> {
    fields: Fields<'a>,
}

impl<'a> Model for Attributes<'a> {
    ghost use Rattle.std.specs.Prelude.{List};
    ghost use Rattle.std.specs.Coded.{codes};
    ghost use Rattle.otlp_types.specs.declared.value.KeyValue.{KeyValue};
    ghost use Rattle.otlp_types.specs.contracts.value.AnyValue as any_value;

    ghost Value = { List KeyValue };

    ghost coded = { Prim.hlevel (codes, any_value.the_row.coded) };

    ghost use Rattle.span_block.specs.Pairs.{pairs_left, ArePairs};

    ghost view = { λ it. pairs_left it.fields };

    ghost invariant = { λ it. ArePairs it.fields };
}

impl SpanBlock {
    /// The attributes, before the first.
    pub fn attributes(&self) -> Attributes<'_>
        ensures { result ≡ self.now.attributes }
    {
        Attributes {
            fields: Fields::of(self.message()),
        }
    }
}

impl<'a> Attributes<'a> {
    ghost use Rattle.span_block.specs.Pairs.{ShowsNext};

    /// The next attribute, or `None` behind the last. It takes no memory.
    pub fn next(&mut self) -> Option<Attribute<'a>>
        ensures { ShowsNext self.old self.new result }
    {
        match next_message(&mut self.fields, 9) {
            Some(pair) => Some(attribute(pair)),
            None => None,
        }
    }
}
