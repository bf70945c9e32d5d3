//! A shard that is restored while its ledger is read.
ghost use Rattle.std.specs.Prelude.{◌≡◌, None, false};
ghost use Rattle.shard_core.specs.Held.{has_due};

use ledger_file::{LedgerError, Visit};
use shard_core::Shard;
use shard_restore::{RestoreError, restore_record};
use std::alloc::Global;

/// Takes each entry again that it is given.
#[derive(Drop)]
pub(crate) struct Restoring {
    pub(crate) alloc: Global,
    pub(crate) shard: Shard,
    /// How many entries were taken, at most 2^64-1.
    pub(crate) entries: u64,
    /// Why the next one wasn't.
    pub(crate) fault: Option<RestoreError>,
    ghost none_due: { fault ≡ None → has_due shard ≡ false },
}

impl Visit for Restoring {
    ghost use Rattle.shard_ledger.specs.Restored.{HasRestored, has_restored_none};

    ghost has_visited = { HasRestored };

    fn visit(&mut self, bytes: &[u8]) -> Result<(), LedgerError> {
        if self.fault.is_some() {
            return Err(LedgerError::Refused);
        }
        match restore_record(self.alloc, &mut self.shard, bytes) {
            Ok(()) => {
                self.entries = self.entries.saturating_add(1);
                Ok(())
            }
            Err(fault) => {
                self.fault = Some(fault);
                Err(LedgerError::Refused)
            }
        }
    }

    ghost starts = { has_restored_none };
}
