//! Entries are put into a shard's ledger.
ghost use Rattle.std.specs.Prelude.{◌≡◌, ◌++◌, ◌∷◌, [], List, ℕ, IsTrue, OnOk, OnErr};
ghost use Rattle.journal_theory.specs.Journal.{Entry as EntryOf, Journal};
ghost use Rattle.journal_entry.specs.Reading.{IsEntry};
ghost use Rattle.ledger_file.specs.Ledger.{pending_of, disk_of, RestsIfOpen};
ghost use Rattle.shard_restore.specs.Entries.{written};
ghost use Rattle.shard_ledger.specs.Journals.{HasJournal, HasAllOrNone, FileHas};

use crate::error::AppendFault;
use ledger_file::{Ledger, LedgerError};
use sqlite_disk::Disk;

/// The longest record of a ledger, in bytes.
const LONGEST: usize = 16_777_216;

/// Puts an entry's record behind those that wait for the next commit. Nothing is written yet.
pub fn append_entry<D: Disk>(ledger: &mut Ledger<D>, bytes: &[u8]) -> Result<(), AppendFault>
    ensures ok { OnOk result ((e : EntryOf) (early late : Journal) → IsEntry bytes.now (written e)
        → HasJournal D.Disk.seen D.Disk.is_clean ledger.old early late → HasJournal D.Disk.seen D.Disk.is_clean ledger.new early (e ∷ late)) }
    ensures err { OnErr result (pending_of ledger.new ≡ pending_of ledger.old) }
    ensures disk { disk_of ledger.new ≡ disk_of ledger.old }
    ensures rests { RestsIfOpen D.Disk.seen D.Disk.may_leave D.Disk.is_clean ledger.old → RestsIfOpen D.Disk.seen D.Disk.may_leave D.Disk.is_clean ledger.new }
    ensures open { ledger.new.is_open ≡ ledger.old.is_open }
{
    if bytes.len() > LONGEST {
        return Err(AppendFault::TooLong);
    }
    match ledger.append(bytes) {
        Ok(()) => Ok(()),
        Err(error) => Err(AppendFault::Ledger(error)),
    }
}

/// Writes the entries that wait, all of them or none, whatever happens meanwhile. Once it has answered `Ok`, they are
/// restored after each crash. Two syncs.
pub fn commit_entries<D: Disk>(ledger: &mut Ledger<D>) -> Result<(), LedgerError>
    requires { RestsIfOpen D.Disk.seen D.Disk.may_leave D.Disk.is_clean ledger.old }

    // After `Ok` each file that a crash may leave has all entries, those that waited behind those that were committed.
    ensures committed { OnOk result ((early late : Journal) → HasJournal D.Disk.seen D.Disk.is_clean ledger.old early late
        → IsTrue (D.Disk.is_clean (disk_of ledger.old)) → (c : List ℕ) → D.Disk.may_leave (disk_of ledger.new) c → FileHas c (late ++ early)) }
    ensures journal { OnOk result ((early late : Journal) → HasJournal D.Disk.seen D.Disk.is_clean ledger.old early late → HasJournal D.Disk.seen D.Disk.is_clean ledger.new (late ++ early) []) }
    ensures open { OnOk result (IsTrue ledger.new.is_open) }

    // Whatever it answered, and also if it was cut off: a crash leaves all entries that waited or none of them, behind
    // all that were committed.
    ensures crash { (early late : Journal) → HasJournal D.Disk.seen D.Disk.is_clean ledger.old early late
        → IsTrue (D.Disk.is_clean (disk_of ledger.old)) → IsTrue ledger.old.is_open → (c : List ℕ) → D.Disk.may_leave (disk_of ledger.new) c → HasAllOrNone early late c }

    // After an `Err` the ledger has the same journal, and may commit again, or it is no longer open.
    ensures err { OnErr result (IsTrue ledger.new.is_open → (early late : Journal) → HasJournal D.Disk.seen D.Disk.is_clean ledger.old early late → HasJournal D.Disk.seen D.Disk.is_clean ledger.new early late) }

    ensures rests { RestsIfOpen D.Disk.seen D.Disk.may_leave D.Disk.is_clean ledger.new }
    ensures clean { D.Disk.is_clean (disk_of ledger.new) ≡ D.Disk.is_clean (disk_of ledger.old) }
{
    ledger.commit()
}
