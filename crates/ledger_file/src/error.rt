//! Why a call on a ledger failed.
use std::alloc::AllocError;
use std::io;

#[derive(Debug, Drop)]
pub enum LedgerError {
    /// Want of memory. Nothing was changed.
    NoMemory,
    /// A call of the disk failed.
    Disk(io::Error),
    /// A commit failed before, so that only a read can tell what is in the file: open it again.
    Closed,
    /// The file is no ledger of this version.
    NoLedger,
    /// A ledger can only be made in an empty file.
    NotEmpty,
    /// The visitor refused a record.
    Refused,
    /// The file would grow past what an offset can name.
    Full,
}

impl From<AllocError> for LedgerError {
    fn from(_: AllocError) -> Self {
        LedgerError::NoMemory
    }
}

impl From<io::Error> for LedgerError {
    fn from(error: io::Error) -> Self {
        LedgerError::Disk(error)
    }
}
