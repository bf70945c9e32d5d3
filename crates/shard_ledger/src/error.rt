//! Why a shard isn't restored from a ledger, or an entry isn't put into one.
use ledger_file::LedgerError;
use shard_restore::RestoreError;

/// Why a shard isn't restored from a ledger.
#[derive(Debug, Drop)]
pub enum RestoreFault {
    /// An entry isn't taken again: its place among the ledger's records, from 0 on, and why.
    Entry(u64, RestoreError),
    /// The ledger can't be read, or its disk failed.
    Ledger(LedgerError),
}

/// Why an entry isn't put into a ledger. Nothing was changed.
#[derive(Debug, Drop)]
pub enum AppendFault {
    /// Its record is longer than 16 MiB, which is as long as a ledger has records.
    TooLong,
    /// The ledger refused it.
    Ledger(LedgerError),
}
