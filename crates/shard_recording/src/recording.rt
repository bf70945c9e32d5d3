//! An entry is put into a shard's ledger.
ghost use Rattle.std.specs.Prelude.{◌≡◌, ◌∷◌, OnOk, OnErr};
ghost use Rattle.journal_theory.specs.Journal.{Entry as EntryOf, Journal};
ghost use Rattle.journal_entry.specs.ReadsBack.{ReadsBack};
ghost use Rattle.ledger_file.specs.Ledger.{pending_of, disk_of, RestsIfOpen};
ghost use Rattle.shard_ledger.specs.Journals.{HasJournal};
ghost use Rattle.shard_recording.specs.Drafts.{IsDraftOf};

use crate::draft::EntryDraft;
use ledger_file::Ledger;
use shard_ledger::{AppendFault, append_entry};
use sqlite_disk::Disk;
use std::alloc::Global;

/// Why an entry isn't put into a ledger. The ledger is as it was, and the shard has taken the item: what it does from now
/// on is in no ledger any more.
#[derive(Debug, Drop)]
pub enum RecordFault {
    /// Memory was refused, to the record or to an answer of the limiter.
    NoMemory,
    /// The ledger refused the record.
    Append(AppendFault),
}

/// Puts an entry behind those that wait in a shard's ledger for the next commit.
pub fn record_entry<D: Disk>(
    alloc: Global,
    draft: EntryDraft,
    ledger: &mut Ledger<D>,
) -> Result<(), RecordFault>
    ensures ok { OnOk result ((e : EntryOf) (early late : Journal) → IsDraftOf draft e → ReadsBack e.item
        → HasJournal D.Disk.seen D.Disk.is_clean ledger.old early late → HasJournal D.Disk.seen D.Disk.is_clean ledger.new early (e ∷ late)) }
    ensures err { OnErr result (pending_of ledger.new ≡ pending_of ledger.old) }
    ensures disk { disk_of ledger.new ≡ disk_of ledger.old }
    ensures rests { RestsIfOpen D.Disk.seen D.Disk.may_leave D.Disk.is_clean ledger.old → RestsIfOpen D.Disk.seen D.Disk.may_leave D.Disk.is_clean ledger.new }
    ensures open { ledger.new.is_open ≡ ledger.old.is_open }
{
    let Ok(bytes) = draft.into_record(alloc) else {
        return Err(RecordFault::NoMemory);
    };
    match append_entry(ledger, &bytes) {
        Ok(()) => Ok(()),
        Err(fault) => Err(RecordFault::Append(fault)),
    }
}
