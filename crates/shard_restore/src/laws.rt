//! Laws of what is restored.
ghost use Rattle.std.specs.Prelude.{◌≡◌, [], false};
ghost use Rattle.shard_restore.specs.Entries.{RecordsTellJournals};
ghost use Rattle.shard_restore.specs.Restoring.{NewIsRestored};

use journal_entry::entries_are_read;

/// The records of a journal's entries, each of which is read again from its bytes, are restored as that journal alone.
pub fn records_tell_journals()
    ensures { RecordsTellJournals }
{
    entries_are_read();
}

/// A shard that has taken nothing is restored from no record.
pub fn new_is_restored()
    ensures { NewIsRestored }
{}
