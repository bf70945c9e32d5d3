//! Laws of what is restored.
ghost use Rattle.shard_ledger.specs.Journals.{EntriesTellJournals, AllOrNoneIsRestored};

use journal_entry::bytes_are_one_entry;

/// Records are the entries of one journal, and of no other.
pub fn entries_tell_journals()
    ensures { EntriesTellJournals }
{
    bytes_are_one_entry();
}

/// What is restored after a crash, of which `commit_entries` says what it leaves: the entries that were committed, in
/// order, or those and all that waited behind them.
pub fn all_or_none_is_restored()
    ensures { AllOrNoneIsRestored }
{
    entries_tell_journals();
}
