//! An entry becomes bytes.
ghost use Rattle.std.specs.Prelude.{◌≡◌, ◌≤◌, ◌++◌, ◌∷◌, ℕ, List, length, take, IfOk, OnOk, OnErr};
ghost use Rattle.serde_json.specs.Data.{depth};
ghost use Rattle.otlp_json.specs.Writing.{data_of};
ghost use Rattle.journal_entry.specs.Bytes.{request_with, bytes_of_item, bytes_with, bytes_of_arrival, bytes_of_answers};
ghost use Rattle.journal_entry.specs.ReadsBack.{IsShallow, ReadsBack, ArrivalReadsBack};

use crate::text::text_of;
use otlp_types::{Arrival, Item, List};
use std::alloc::{AllocError, Global};

/// The bytes of an item. A span whose request nests at most 127 deep as JSON is read again from them, and so is each
/// other item. `Err` only where memory was refused.
pub fn item_bytes(alloc: Global, item: &Item) -> Result<Vec<u8>, AllocError>
    ensures bytes { IfOk result (λ out. out.items ≡ bytes_of_item item.now) }
    ensures back { IfOk result (λ out. IsShallow item.now → ReadsBack item.now) }
{
    match item {
        Item::Tick(moment) => numbered(alloc, 1, &moment.to_le_bytes()),
        Item::End(sender) => numbered(alloc, 2, &sender.to_le_bytes()),
        Item::Span(arrival) => arrival_bytes(alloc, arrival),
    }
}

/// A byte, and these behind it.
fn numbered(alloc: Global, kind: u8, number: &[u8]) -> Result<Vec<u8>, AllocError>
    ensures { IfOk result (λ out. out.items ≡ kind ∷ number.now) }
{
    let mut out = Vec::new(alloc);
    out.push(kind)?;
    out.extend_from_slice(number)?;
    Ok(out)
}

/// The bytes of a span, behind its kind.
fn arrival_bytes(alloc: Global, arrival: &Arrival) -> Result<Vec<u8>, AllocError>
    ensures bytes { IfOk result (λ out. out.items ≡ 3 ∷ bytes_of_arrival arrival.now) }
    ensures back { IfOk result (λ out. depth (data_of (request_with arrival.now.rec)) ≤ 127 → ArrivalReadsBack arrival.now) }
{
    let text = text_of(alloc, &arrival.rec)?;
    let mut out = Vec::new(alloc);
    out.push(3)?;
    out.extend_from_slice(&arrival.key.conn.lane.to_le_bytes())?;
    out.extend_from_slice(&arrival.key.conn.ordinal.to_le_bytes())?;
    out.extend_from_slice(&arrival.key.number.to_le_bytes())?;
    out.extend_from_slice(&arrival.moment.to_le_bytes())?;
    out.extend_from_slice(&text)?;
    Ok(out)
}

/// Appends the bytes of an entry, whose item has these bytes. `Err` where memory was refused: nothing is appended then.
pub fn put_entry(
    out: &mut Vec<u8>,
    item: &[u8],
    refused: bool,
    lost: bool,
    answers: &[List<bool>],
) -> Result<(), AllocError>
    ensures ok { OnOk result (out.new.items ≡ out.old.items ++ bytes_with refused lost answers.now item.now) }
    ensures err { OnErr result (out.new.items ≡ out.old.items) }
{
    let before = out.len();
    if put_parts(out, item, refused, lost, answers).is_err() {
        out.truncate(before);
        return Err(AllocError);
    }
    Ok(())
}

/// The same: an `Err` leaves some of them.
fn put_parts(
    out: &mut Vec<u8>,
    item: &[u8],
    refused: bool,
    lost: bool,
    answers: &[List<bool>],
) -> Result<(), AllocError>
    ensures ok { OnOk result (out.new.items ≡ out.old.items ++ bytes_with refused lost answers.now item.now) }
    ensures front { take (length out.old.items) out.new.items ≡ out.old.items }
{
    out.extend_from_slice(&[1, u8::from(refused), u8::from(lost)])?;
    for decision in answers {
        put_answers(out, decision.as_slice())?;
    }
    out.push(3)?;
    out.extend_from_slice(item)?;
    Ok(())
}

/// The limiter's answers to one decision.
fn put_answers(out: &mut Vec<u8>, answers: &[bool]) -> Result<(), AllocError>
    ensures ok { OnOk result (out.new.items ≡ out.old.items ++ bytes_of_answers answers.now) }
    ensures front { (front : List ℕ) (more : List ℕ) → out.old.items ≡ front ++ more → take (length front) out.new.items ≡ front }
{
    for granted in answers {
        out.push(u8::from(*granted))?;
    }
    out.push(2)?;
    Ok(())
}
