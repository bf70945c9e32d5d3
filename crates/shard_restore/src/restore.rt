//! A record is taken again.
ghost use Rattle.std.specs.Prelude.{◌≡◌, ℕ, List, [], ◌∷◌, ◌++◌, OnOk, false};
ghost use Rattle.shard_core.specs.Held.{has_due, settings};
ghost use Rattle.shard_restore.specs.Restoring.{Restores};

use crate::again::take_entry;
use crate::error::RestoreError;
use journal_entry::{EntryError, entry_in};
use shard_core::Shard;
use std::alloc::Global;

/// Takes the entry again that a record is, and decides again what was decided at it, by the answers that the limiter
/// gave then. No trace is due before and after.
///
/// A shard that was restored from some records is then restored from these and this one. An `Err` leaves the shard in
/// between: it is to be let go. What the shard hands over at the entry was handed over when the entry was made.
pub fn restore_record(alloc: Global, shard: &mut Shard, bytes: &[u8]) -> Result<(), RestoreError>
    requires { has_due shard.old ≡ false }
    ensures restores { OnOk result ((records : List (List ℕ)) → Restores records shard.old → Restores (records ++ bytes.now ∷ []) shard.new) }
    ensures none_due { OnOk result (has_due shard.new ≡ false) }
    ensures settings { settings shard.new ≡ settings shard.old }
{
    match entry_in(alloc, bytes) {
        Ok(entry) => take_entry(alloc, shard, entry),
        Err(EntryError::NoMemory) => Err(RestoreError::NoMemory),
        Err(fault) => Err(RestoreError::NoEntry(fault)),
    }
}
