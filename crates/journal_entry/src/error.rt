//! Why bytes are no entry.
use std::alloc::AllocError;

/// Why bytes are no entry of a journal.
#[derive(Clone, Copy, Debug, Drop, PartialEq, Eq)]
pub enum EntryError {
    /// They end too early.
    Short,
    /// They go on behind a tick or an End.
    Long,
    /// They are of another version than 1.
    Version,
    /// A mark is neither 0 nor 1.
    Mark,
    /// An answer of the limiter is none, or belongs to no decision.
    Answer,
    /// The item is neither a tick, nor an End, nor a span.
    Kind,
    /// The text of the span doesn't read as a request of one span.
    Unreadable,
    /// Memory was refused.
    NoMemory,
}

impl From<AllocError> for EntryError {
    ghost use Rattle.std.specs.Prelude.{◌≡◌};
    ghost use Rattle.journal_entry.specs.declared.error.EntryError.TheVariants.{NoMemory};

    ghost from_gives = { λ _ e. e ≡ NoMemory };

    fn from(_: AllocError) -> Self {
        EntryError::NoMemory
    }
}
