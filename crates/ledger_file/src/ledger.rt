//! The ledger.
ghost use Rattle.std.specs.Prelude.{◌≡◌, ◌++◌, ◌∷◌, [], ◌≤◌, ◌⊎◌, List, ℕ, length, IsTrue, IfOk, IfErr, OnOk, OnErr, ◌&&◌, false};
ghost use Rattle.ledger_file.specs.Format.{parameters_of, records_of};
ghost use Rattle.ledger_file.specs.Reading.{AgreesUpTo, WasGiven};

use crate::batch::Batch;
use crate::create::make;
use crate::error::LedgerError;
use crate::opening::recover;
use crate::synced::{write_synced, write_through};
use crate::visit::Visit;
use sqlite_disk::Disk;
use std::alloc::Global;

/// An append-only file of records on a disk.
#[derive(Drop)]
pub struct Ledger<D: Disk> {
    pub(crate) disk: D,
    /// Where the next record begins: the shut gate stands there.
    pub(crate) end: usize,
    pub(crate) batch: Batch,
    /// No commit has failed in a way that leaves open what is in the file.
    pub(crate) is_open: bool,
}

impl<D: Disk> Ledger<D> {
    ghost use Rattle.ledger_file.specs.Ledger.{pending_of, disk_of, HasFirstOrBoth, RestsIfOpen, Has, Reads};

    /// Makes an empty file a ledger with these parameters (up to 16 MiB) and no record. Cut off at any call, it leaves
    /// what a crash might have left before, or a file with no record. An `Err` hands the disk back.
    pub fn create(alloc: Global, disk: D, parameters: &[u8]) -> Result<Ledger<D>, (LedgerError, D)>
        requires usable { IsTrue (D.Disk.is_usable disk) }
        requires fits { length parameters.now ≤ 16777216 }
        ensures made { IfOk result (λ ledger. IsTrue (D.Disk.is_clean (disk_of ledger)) → Has parameters.now [] (D.Disk.seen (disk_of ledger))) }
        ensures rests { IfOk result (λ ledger. RestsIfOpen D.Disk.seen D.Disk.may_leave D.Disk.is_clean ledger) }
        ensures ready { IfOk result (λ ledger. IsTrue ledger.is_open × (pending_of ledger ≡ [])) }
        ensures crash { IfOk result (λ ledger. IsTrue (D.Disk.is_clean (disk_of ledger)) → (c : List ℕ) → D.Disk.may_leave (disk_of ledger) c → D.Disk.may_leave disk c ⊎ (records_of c ≡ [])) }
        ensures crash_err { IfErr result (λ e. IsTrue (D.Disk.is_clean e.1) → (c : List ℕ) → D.Disk.may_leave e.1 c → D.Disk.may_leave disk c ⊎ (records_of c ≡ [])) }
    {
        let mut disk = disk;
        match make(alloc, &mut disk, parameters) {
            Ok(batch) => Ok(Ledger {
                disk,
                end: 12 + parameters.len(),
                batch,
                is_open: true,
            }),
            Err(error) => Err((error, disk)),
        }
    }

    /// Opens a file that a crash may have left, gives its records to the visitor, one at a time and in order, and goes
    /// on behind the last whole one. Answers the parameters too. An `Err` hands the disk back.
    pub fn open<V: Visit>(
        alloc: Global,
        disk: D,
        visitor: &mut V,
    ) -> Result<(Ledger<D>, Vec<u8>), (LedgerError, D)>
        requires { IsTrue (D.Disk.is_usable disk) }

        // What was visited are the records of the file, if the disk told no lie, and it still has them.
        ensures visited { IfOk result (λ found. WasGiven V.has_visited (IsTrue (D.Disk.is_clean (disk_of found.0))) visitor.old (records_of (D.Disk.seen disk)) visitor.new) }
        ensures parameters { IfOk result (λ found. IsTrue (D.Disk.is_clean (disk_of found.0)) → found.1.items ≡ parameters_of (D.Disk.seen disk)) }
        ensures same { IfOk result (λ found. IsTrue (D.Disk.is_clean (disk_of found.0)) → Has (parameters_of (D.Disk.seen disk)) (records_of (D.Disk.seen disk)) (D.Disk.seen (disk_of found.0))) }
        ensures rests { IfOk result (λ found. RestsIfOpen D.Disk.seen D.Disk.may_leave D.Disk.is_clean found.0) }
        ensures ready { IfOk result (λ found. IsTrue found.0.is_open × (pending_of found.0 ≡ [])) }

        // Cut off at any call, it leaves what a crash might have left before, or a file with the same records.
        ensures crash { IfOk result (λ found. IsTrue (D.Disk.is_clean (disk_of found.0)) → (c : List ℕ) → D.Disk.may_leave (disk_of found.0) c → D.Disk.may_leave disk c ⊎ Has (parameters_of (D.Disk.seen disk)) (records_of (D.Disk.seen disk)) c) }
        ensures crash_err { IfErr result (λ e. IsTrue (D.Disk.is_clean e.1) → (c : List ℕ) → D.Disk.may_leave e.1 c → D.Disk.may_leave disk c ⊎ Has (parameters_of (D.Disk.seen disk)) (records_of (D.Disk.seen disk)) c) }
    {
        let mut disk = disk;
        match recover(alloc, &mut disk, visitor) {
            Ok((end, batch, parameters)) => Ok((
                Ledger {
                    disk,
                    end,
                    batch,
                    is_open: true,
                },
                parameters,
            )),
            Err(error) => Err((error, disk)),
        }
    }

    /// Adds a record of up to 16 MiB to those that wait for the next commit. Nothing is written yet.
    pub fn append(&mut self, bytes: &[u8]) -> Result<(), LedgerError>
        requires { length bytes.now ≤ 16777216 }
        ensures ok { OnOk result (pending_of self.new ≡ pending_of self.old ++ bytes.now ∷ []) }
        ensures err { OnErr result (pending_of self.new ≡ pending_of self.old) }
        ensures disk { disk_of self.new ≡ disk_of self.old }
        ensures rests { RestsIfOpen D.Disk.seen D.Disk.may_leave D.Disk.is_clean self.old → RestsIfOpen D.Disk.seen D.Disk.may_leave D.Disk.is_clean self.new }
        ensures rests_as_read { RestsIfOpen D.Disk.seen (Reads D.Disk.seen) D.Disk.is_clean self.old → RestsIfOpen D.Disk.seen (Reads D.Disk.seen) D.Disk.is_clean self.new }
        ensures open { self.new.is_open ≡ self.old.is_open }
    {
        Ok(self.batch.push(bytes)?)
    }

    /// Whether records can be committed: a test for the errors `Closed` and a disk whose sync has failed.
    pub fn may_commit(&self) -> bool
        ensures { result ≡ (self.now.is_open && D.Disk.is_usable self.now.disk) }
    {
        self.is_open && self.disk.may_be_used()
    }

    /// Writes the records that wait, all of them or none, whatever happens meanwhile. Once it has answered `Ok`, they
    /// are found after each crash. Two syncs.
    pub fn commit(&mut self) -> Result<(), LedgerError>
        requires { RestsIfOpen D.Disk.seen D.Disk.may_leave D.Disk.is_clean self.old }

        // What was committed is in each file that a crash may leave from now on, behind all that was committed before.
        ensures committed { OnOk result (IsTrue (D.Disk.is_clean (disk_of self.old)) → (c : List ℕ) → D.Disk.may_leave (disk_of self.new) c
            → Has (parameters_of (D.Disk.seen (disk_of self.old))) (records_of (D.Disk.seen (disk_of self.old)) ++ pending_of self.old) c) }
        ensures none_waits { OnOk result (pending_of self.new ≡ []) }
        ensures open { OnOk result (IsTrue self.new.is_open) }

        // Whatever it answered, and also if it was cut off: a crash leaves all of the batch or none of it, behind all
        // that was committed.
        ensures crash { IsTrue (D.Disk.is_clean (disk_of self.old)) → IsTrue self.old.is_open → (c : List ℕ) → D.Disk.may_leave (disk_of self.new) c
            → HasFirstOrBoth (records_of (D.Disk.seen (disk_of self.old))) (pending_of self.old) c }

        // After an `Err` the ledger is as it was, and may commit again, or it is no longer open.
        ensures err { OnErr result (IsTrue self.new.is_open → (pending_of self.new ≡ pending_of self.old)
            × (IsTrue (D.Disk.is_clean (disk_of self.old)) → Has (parameters_of (D.Disk.seen (disk_of self.old))) (records_of (D.Disk.seen (disk_of self.old))) (D.Disk.seen (disk_of self.new)))) }

        ensures rests { RestsIfOpen D.Disk.seen D.Disk.may_leave D.Disk.is_clean self.new }
        ensures clean { D.Disk.is_clean (disk_of self.new) ≡ D.Disk.is_clean (disk_of self.old) }
    {
        if !self.may_commit() {
            return Err(LedgerError::Closed);
        }
        if self.batch.is_empty() {
            return Ok(());
        }
        let gate = self.end;
        if self.batch.bytes.len() > usize::MAX - gate {
            return Err(LedgerError::Full);
        }
        write_synced(&mut self.disk, gate + 1, &self.batch.bytes[1..])?;
        self.is_open = false;
        write_synced(&mut self.disk, gate, &[1])?;
        self.end = gate + (self.batch.bytes.len() - 1);
        self.batch.clear();
        self.is_open = true;
        Ok(())
    }

    /// The same with no sync: a kill of the process loses nothing that was written, and a crash of the machine may, up
    /// to the next `sync`.
    pub fn write_out(&mut self) -> Result<(), LedgerError>
        requires { RestsIfOpen D.Disk.seen (Reads D.Disk.seen) D.Disk.is_clean self.old }

        // What was written is read from now on, behind all that was written before.
        ensures committed { OnOk result (IsTrue (D.Disk.is_clean (disk_of self.old)) → (c : List ℕ) → (Reads D.Disk.seen) (disk_of self.new) c
            → Has (parameters_of (D.Disk.seen (disk_of self.old))) (records_of (D.Disk.seen (disk_of self.old)) ++ pending_of self.old) c) }
        ensures none_waits { OnOk result (pending_of self.new ≡ []) }
        ensures open { OnOk result (IsTrue self.new.is_open) }

        // Whatever it answered, and also if it was cut off: a kill leaves all of the batch or none of it, behind all
        // that was written.
        ensures crash { IsTrue (D.Disk.is_clean (disk_of self.old)) → IsTrue self.old.is_open → (c : List ℕ) → (Reads D.Disk.seen) (disk_of self.new) c
            → HasFirstOrBoth (records_of (D.Disk.seen (disk_of self.old))) (pending_of self.old) c }

        // After an `Err` the ledger is as it was, and may commit again, or it is no longer open.
        ensures err { OnErr result (IsTrue self.new.is_open → (pending_of self.new ≡ pending_of self.old)
            × (IsTrue (D.Disk.is_clean (disk_of self.old)) → Has (parameters_of (D.Disk.seen (disk_of self.old))) (records_of (D.Disk.seen (disk_of self.old))) (D.Disk.seen (disk_of self.new)))) }

        // What is on the disk stays there, up to where this batch begins.
        ensures synced { IsTrue (D.Disk.is_clean (disk_of self.old)) → IsTrue self.old.is_open → (n : ℕ) → n ≤ self.old.end
            → AgreesUpTo n (D.Disk.seen (disk_of self.old)) (D.Disk.may_leave (disk_of self.old)) → AgreesUpTo n (D.Disk.seen (disk_of self.new)) (D.Disk.may_leave (disk_of self.new)) }

        ensures rests { RestsIfOpen D.Disk.seen (Reads D.Disk.seen) D.Disk.is_clean self.new }
        ensures clean { D.Disk.is_clean (disk_of self.new) ≡ D.Disk.is_clean (disk_of self.old) }
    {
        if !self.may_commit() {
            return Err(LedgerError::Closed);
        }
        if self.batch.is_empty() {
            return Ok(());
        }
        let gate = self.end;
        if self.batch.bytes.len() > usize::MAX - gate {
            return Err(LedgerError::Full);
        }
        write_through(&mut self.disk, gate + 1, &self.batch.bytes[1..])?;
        self.is_open = false;
        write_through(&mut self.disk, gate, &[1])?;
        self.end = gate + (self.batch.bytes.len() - 1);
        self.batch.clear();
        self.is_open = true;
        Ok(())
    }

    /// Sees to it that what was written out is on the disk. After an `Err` the file may have lost what was not synced,
    /// and nothing more may be asked of it: open it again.
    pub fn sync(&mut self) -> Result<(), LedgerError>
        requires { RestsIfOpen D.Disk.seen (Reads D.Disk.seen) D.Disk.is_clean self.old }
        ensures same { (D.Disk.seen (disk_of self.new) ≡ D.Disk.seen (disk_of self.old)) × (pending_of self.new ≡ pending_of self.old) }
        ensures rests { OnOk result (RestsIfOpen D.Disk.seen D.Disk.may_leave D.Disk.is_clean self.new) }
        ensures failed { IfErr result (λ _. self.new.is_open && D.Disk.is_usable (disk_of self.new) ≡ false) }
        ensures clean { D.Disk.is_clean (disk_of self.new) ≡ D.Disk.is_clean (disk_of self.old) }
    {
        if !self.may_commit() {
            return Err(LedgerError::Closed);
        }
        Ok(self.disk.sync()?)
    }

    /// The disk. Records that wait are forgotten.
    pub fn into_disk(self) -> D
        ensures { result ≡ disk_of self }
    {
        let Ledger {
            disk,
            end: _,
            batch: _,
            is_open: _,
        } = self;
        disk
    }

    /// A law: a ledger that is at rest whatever a crash leaves is at rest as it is read.
    pub fn rests_as_read(&self)
        ensures { RestsIfOpen D.Disk.seen D.Disk.may_leave D.Disk.is_clean self.now → RestsIfOpen D.Disk.seen (Reads D.Disk.seen) D.Disk.is_clean self.now }
    {}
}
