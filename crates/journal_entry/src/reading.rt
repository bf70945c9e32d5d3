//! Bytes become an entry.
ghost use Rattle.std.specs.Prelude.{◌≡◌, ◌⊎◌, MatchResult, IfOk, IfErr};
ghost use Rattle.journal_entry.specs.Bytes.{bytes_of_entry};
ghost use Rattle.journal_entry.specs.Reading.{IsEntry, IsNoEntry, item_at, tick_at, end_at, arrival_at};
ghost use Rattle.journal_entry.specs.ReadsBack.{ReadsBack};
ghost use Rattle.journal_entry.specs.Seen.{IsItem, IsNoItem};
ghost use Rattle.journal_entry.specs.declared.entry.JournalEntry.{JournalEntry as EntryOf};

use crate::answers::decisions_at;
use crate::entry::JournalEntry;
use crate::error::EntryError;
use crate::numbers::{byte_at, mark_at, number_at, short_number_at};
use crate::text::record_in;
use otlp_types::{Arrival, Item};
use span_ids::{ArrivalKey, ConnKey};
use std::alloc::Global;

/// The entry that these bytes are, or why they are none.
///
/// The bytes of an entry are read as that entry, where its span's text reads as its request.
pub fn entry_in(alloc: Global, bytes: &[u8]) -> Result<JournalEntry, EntryError>
    ensures entry { IfOk result (IsEntry bytes.now) }
    ensures none { IfErr result (λ error. (error ≡ EntryError.NoMemory) ⊎ IsNoEntry bytes.now error) }
    ensures back { (e : EntryOf) → ReadsBack e.item → bytes.now ≡ bytes_of_entry e → MatchResult result (λ found. found ≡ e) (λ error. error ≡ EntryError.NoMemory) }
{
    read(alloc, bytes)
}

/// The same.
fn read(alloc: Global, bytes: &[u8]) -> Result<JournalEntry, EntryError>
    ensures entry { IfOk result (IsEntry bytes.now) }
    ensures none { IfErr result (λ error. (error ≡ EntryError.NoMemory) ⊎ IsNoEntry bytes.now error) }
{
    let (version, left) = byte_at(bytes)?;
    if version != 1 {
        return Err(EntryError::Version);
    }
    let (refused, left) = mark_at(left)?;
    let (lost, left) = mark_at(left)?;
    let (answers, left) = decisions_at(alloc, left)?;
    let item = item_in(alloc, left)?;
    Ok(JournalEntry {
        item,
        refused,
        lost,
        answers,
    })
}

/// The item that these bytes are, or why they are none.
fn item_in(alloc: Global, bytes: &[u8]) -> Result<Item, EntryError>
    ensures ok { IfOk result (IsItem (item_at bytes.now)) }
    ensures err { IfErr result (λ error. (error ≡ EntryError.NoMemory) ⊎ IsNoItem (item_at bytes.now) error) }
{
    let (kind, left) = byte_at(bytes)?;
    match kind {
        1 => tick_in(left),
        2 => end_in(left),
        3 => span_in(alloc, left),
        _ => Err(EntryError::Kind),
    }
}

/// A tick, with nothing behind its moment.
fn tick_in(bytes: &[u8]) -> Result<Item, EntryError>
    ensures ok { IfOk result (IsItem (tick_at bytes.now)) }
    ensures err { IfErr result (IsNoItem (tick_at bytes.now)) }
{
    let (moment, left) = number_at(bytes)?;
    if !left.is_empty() {
        return Err(EntryError::Long);
    }
    Ok(Item::Tick(moment))
}

/// An End, with nothing behind its sender.
fn end_in(bytes: &[u8]) -> Result<Item, EntryError>
    ensures ok { IfOk result (IsItem (end_at bytes.now)) }
    ensures err { IfErr result (IsNoItem (end_at bytes.now)) }
{
    let (sender, left) = short_number_at(bytes)?;
    if !left.is_empty() {
        return Err(EntryError::Long);
    }
    Ok(Item::End(sender))
}

/// A span: its key, its moment, and its text up to the end.
fn span_in(alloc: Global, bytes: &[u8]) -> Result<Item, EntryError>
    ensures ok { IfOk result (IsItem (arrival_at bytes.now)) }
    ensures err { IfErr result (λ error. (error ≡ EntryError.NoMemory) ⊎ IsNoItem (arrival_at bytes.now) error) }
{
    let (lane, left) = short_number_at(bytes)?;
    let (ordinal, left) = number_at(left)?;
    let (number, left) = number_at(left)?;
    let (moment, text) = number_at(left)?;
    let rec = record_in(alloc, text)?;
    Ok(Item::Span(Arrival {
        key: ArrivalKey {
            conn: ConnKey { lane, ordinal },
            number,
        },
        moment,
        rec,
    }))
}
