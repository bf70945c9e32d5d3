//! Where in a body the first fault is met.
ghost use Rattle.std.specs.Prelude.{◌≡◌, ◌≤◌, ◌+◌, ◌<◌, ◌^◌, length};
ghost use Rattle.protobuf_wire.specs.Seen.{seen_field};
ghost use Rattle.request_show.specs.FirstFault as spec;

use crate::front::front_field;
use crate::messages::{MessageKind, inside, is_text};
use otlp_protobuf::ProtobufFault;
use protobuf_wire::{WireField, WireValue};

/// A fault that was met.
#[derive(Clone, Copy, PartialEq, Eq, Drop)]
pub struct Met {
    /// How many bytes of the body stand before the field that has it, which is the innermost one.
    pub at: usize,
    /// Which it is.
    pub fault: ProtobufFault,
}

/// The first fault that is met in a message of this kind, which stands in a body behind so many bytes; `levels` is how
/// deep values in it may nest. Each field takes a turn, and those of a message inside go on with the turns that are
/// left; as many as there are bytes are enough.
#[cycle(messages)]
#[tactic(auto, unfolding(crate::specs::FirstFault::first_fault))]
pub fn first_fault(
    turns: usize,
    kind: MessageKind,
    levels: usize,
    at: usize,
    bytes: &[u8],
) -> Option<Met>
    requires { at + length bytes.now < 2 ^ 64 }
    ensures { result ≡ spec.first_fault turns kind levels at bytes.now }
{
    let mut turns = turns;
    let mut at = at;
    let mut left = bytes;
    while turns > 0 && !left.is_empty() {
        turns -= 1;
        let (field, rest) = match front_field(left) {
            Ok(front) => front,
            Err(fault) => return Some(fault_at(at, ProtobufFault::Wire(fault))),
        };
        let behind = at + (left.len() - rest.len());
        let found = in_field(turns, kind, levels, at, behind, field);
        if found.is_some() {
            return found;
        }
        at = behind;
        left = rest;
    }
    None
}

/// In a field of such a message, which begins at a place and ends before another one.
#[cycle(messages)]
fn in_field(
    turns: usize,
    kind: MessageKind,
    levels: usize,
    at: usize,
    behind: usize,
    field: WireField<'_>,
) -> Option<Met>
    ensures { result ≡ spec.in_field (spec.first_fault turns) kind levels at behind (seen_field field.entry) }
{
    let WireValue::Bytes(held) = field.value else {
        return None;
    };
    if is_text(kind, field.number) {
        return in_text(at, held);
    }
    let kind = inside(kind, field.number)?;
    in_message(
        turns,
        kind,
        levels,
        at,
        behind.saturating_sub(held.len()),
        held,
    )
}

/// In a message inside, of a field that begins at a place.
#[cycle(messages)]
fn in_message(
    turns: usize,
    kind: MessageKind,
    levels: usize,
    at: usize,
    start: usize,
    held: &[u8],
) -> Option<Met>
    requires { start + length held.now < 2 ^ 64 }
    ensures { result ≡ spec.in_message (spec.first_fault turns) kind levels at start held.now }
{
    if kind != MessageKind::AnyValue {
        return first_fault(turns, kind, levels, start, held);
    }
    if levels == 0 {
        return Some(fault_at(at, ProtobufFault::TooDeep));
    }
    first_fault(turns, kind, levels - 1, start, held)
}

/// In a text.
fn in_text(at: usize, held: &[u8]) -> Option<Met>
    ensures { result ≡ spec.in_text at held.now }
{
    match str::from_utf8(held) {
        Ok(_) => None,
        Err(_) => Some(fault_at(at, ProtobufFault::Utf8)),
    }
}

fn fault_at(at: usize, fault: ProtobufFault) -> Met
    ensures { result ≡ record { at = at; fault = fault } }
{
    Met { at, fault }
}
