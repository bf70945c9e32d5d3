//! Messages, read a field at a time.
ghost use Rattle.std.specs.Prelude.{◌≡◌, Bool};
ghost use Rattle.protobuf_wire.specs.Wire.{Field};
ghost use Rattle.protobuf_wire.specs.Seen.{seen_field};
ghost use Rattle.otlp_protobuf.specs.Kinds.{Read, merged};
ghost use Rattle.otlp_protobuf.specs.Gives.{Gives, GivesAs};
ghost use Rattle.otlp_protobuf.specs.Reading.{message_of, with_last};

use crate::decode_error::DecodeError;
use otlp_types::List;
use protobuf_wire::{Fields, WireField};
use std::alloc::Global;

/// A message that is being read.
pub trait Building: Sized {
    /// The message.
    type Message;

    /// What one field more makes of it, where doubles are kept or not.
    ghost step: { Bool → Self → Field → Read Self };

    /// What it is before the first field.
    ghost first: { Self };

    /// The message that it is after the last.
    ghost whole: { Self → Self.Message };

    /// Before the first field.
    fn start(alloc: Global) -> Self
        ensures { result ≡ first };

    /// Takes a field, or skips one that is unknown.
    fn take(
        &mut self,
        alloc: Global,
        keeps_doubles: bool,
        field: WireField<'_>,
    ) -> Result<(), DecodeError>
        ensures { GivesAs (λ _. self.new) result (step keeps_doubles self.old (seen_field field.entry)) };

    /// After the last field.
    fn build(self) -> Self::Message
        ensures { result ≡ whole self };
}

/// Adds the fields of some bytes to a message.
pub fn merge<B: Building>(
    alloc: Global,
    keeps_doubles: bool,
    bytes: &[u8],
    built: &mut B,
) -> Result<(), DecodeError>
    ensures { GivesAs (λ _. built.new) result (merged (B.step keeps_doubles) built.old bytes.now) }
{
    let mut fields = Fields::of(bytes);
    'fields: while let Some(field) = fields.next()? {
        built.take(alloc, keeps_doubles, field)?;
    }
    Ok(())
}

/// The message that some bytes are.
pub fn message<B: Building + Drop>(
    alloc: Global,
    keeps_doubles: bool,
    bytes: &[u8],
) -> Result<B::Message, DecodeError>
    ensures { Gives result (message_of (B.step keeps_doubles) B.first B.whole bytes.now) }
{
    let mut built = B::start(alloc);
    merge(alloc, keeps_doubles, bytes, &mut built)?;
    Ok(built.build())
}

/// One message more, that some bytes are.
pub fn push<B: Building + Drop>(
    alloc: Global,
    keeps_doubles: bool,
    bytes: &[u8],
    all: &mut List<B::Message>,
) -> Result<(), DecodeError>
where
    B::Message: Drop,
    ensures { GivesAs (λ _. all.new) result
        (with_last all.old (message_of (B.step keeps_doubles) B.first B.whole bytes.now)) }
{
    let one = message::<B>(alloc, keeps_doubles, bytes)?;
    all.push(one)?;
    Ok(())
}
