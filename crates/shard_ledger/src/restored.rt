//! A shard is restored from its ledger.
ghost use Rattle.std.specs.Prelude.{◌≡◌, ◌⊎◌, ◌-◌, ◌^◌, ℕ, List, [], min, length, IfOk, IfErr, IsTrue, false};
ghost use Rattle.ledger_file.specs.Format.{parameters_of, records_of};
ghost use Rattle.ledger_file.specs.Ledger.{disk_of, RestsIfOpen, Has};
ghost use Rattle.shard_core.specs.Held.{StandsFor, has_due, settings};
ghost use Rattle.shard_restore.specs.Restoring.{Restores};
ghost use Rattle.shard_ledger.specs.Journals.{IsRestored};

use crate::error::RestoreFault;
use crate::restoring::Restoring;
use ledger_file::{Ledger, LedgerError};
use shard_core::Shard;
use shard_restore::new_is_restored;
use sqlite_disk::Disk;
use std::alloc::Global;

/// What was restored.
#[derive(Drop)]
pub struct Restored<D: Disk> {
    /// The shard: what waits in it, `Shard::waiting` tells.
    pub shard: Shard,
    /// Its ledger, which goes on behind the last entry.
    pub ledger: Ledger<D>,
    /// The parameters with which the ledger was made.
    pub parameters: Vec<u8>,
    /// How many entries it had, at most 2^64-1.
    pub entries: u64,
}

/// Restores a shard from a ledger that a crash may have left: takes each of its entries again, and decides what was
/// decided, by the answers that were recorded. The shard is one that has taken nothing.
///
/// The shard that it gives stands for the journal of the ledger's entries, in order. An `Err` hands the disk back, and
/// tells which entry isn't taken again. One record is held in memory at a time, 16 MiB at most.
pub fn restore<D: Disk>(
    alloc: Global,
    disk: D,
    shard: Shard,
) -> Result<Restored<D>, (RestoreFault, D)>
    requires usable { IsTrue (D.Disk.is_usable disk) }
    requires new_shard { StandsFor shard [] 0 }
    requires nothing_due { has_due shard ≡ false }

    // The shard stands for the journal of the file's entries, and the ledger still has them.
    ensures restored { IfOk result (λ r. IsTrue (D.Disk.is_clean (disk_of r.ledger)) → Restores (records_of (D.Disk.seen disk)) r.shard) }
    ensures journal { IfOk result (λ r. IsTrue (D.Disk.is_clean (disk_of r.ledger)) → IsRestored D.Disk.seen D.Disk.is_clean (D.Disk.seen disk) r.shard r.ledger) }
    ensures entries { IfOk result (λ r. IsTrue (D.Disk.is_clean (disk_of r.ledger)) → r.entries ≡ min (length (records_of (D.Disk.seen disk))) (2 ^ 64 - 1)) }
    ensures settings { IfOk result (λ r. settings r.shard ≡ settings shard) }
    ensures none_due { IfOk result (λ r. has_due r.shard ≡ false) }
    ensures parameters { IfOk result (λ r. IsTrue (D.Disk.is_clean (disk_of r.ledger)) → r.parameters.items ≡ parameters_of (D.Disk.seen disk)) }
    ensures same { IfOk result (λ r. IsTrue (D.Disk.is_clean (disk_of r.ledger)) → Has (parameters_of (D.Disk.seen disk)) (records_of (D.Disk.seen disk)) (D.Disk.seen (disk_of r.ledger))) }
    ensures rests { IfOk result (λ r. RestsIfOpen D.Disk.seen D.Disk.may_leave D.Disk.is_clean r.ledger) }
    ensures open { IfOk result (λ r. IsTrue r.ledger.is_open) }

    // Cut off at any call, it leaves what a crash might have left before, or a file with the same entries.
    ensures crash { IfOk result (λ r. IsTrue (D.Disk.is_clean (disk_of r.ledger)) → (c : List ℕ) → D.Disk.may_leave (disk_of r.ledger) c → D.Disk.may_leave disk c ⊎ Has (parameters_of (D.Disk.seen disk)) (records_of (D.Disk.seen disk)) c) }
    ensures crash_err { IfErr result (λ e. IsTrue (D.Disk.is_clean e.1) → (c : List ℕ) → D.Disk.may_leave e.1 c → D.Disk.may_leave disk c ⊎ Has (parameters_of (D.Disk.seen disk)) (records_of (D.Disk.seen disk)) c) }
{
    new_is_restored();
    let mut restoring = Restoring {
        alloc,
        shard,
        entries: 0,
        fault: None,
    };
    match Ledger::open(alloc, disk, &mut restoring) {
        Ok((ledger, parameters)) => Ok(Restored {
            shard: restoring.shard,
            ledger,
            parameters,
            entries: restoring.entries,
        }),
        Err((error, disk)) => Err((fault_of(restoring, error), disk)),
    }
}

/// Why the reading ended: for an entry that isn't taken again, or for the ledger.
fn fault_of(restoring: Restoring, error: LedgerError) -> RestoreFault {
    match restoring.fault {
        Some(fault) => RestoreFault::Entry(restoring.entries, fault),
        None => RestoreFault::Ledger(error),
    }
}
