//! Why a record isn't restored.
use journal_entry::EntryError;

/// Why a record isn't taken again.
#[derive(Clone, Copy, Debug, Drop, PartialEq, Eq)]
pub enum RestoreError {
    /// The record is no entry of a journal.
    NoEntry(EntryError),
    /// The entry doesn't fit those before it: a span without valid ids, an item behind the last End, a refusal of memory
    /// where none can be, or answers of the limiter that are more or fewer than its decisions ask for. Entries that were
    /// made under other policies or settings are such.
    Unfit,
    /// Memory was refused to the decision of a trace that left, when the entry was made. That can't be done again
    /// (D-423).
    Lost,
    /// Memory was refused now.
    NoMemory,
}
