//! How a connection ends.
use crate::asked::AdminRequest;

/// A read gives so many bytes at most.
pub const PIECE_LIMIT: usize = 4096;

/// So many reads are made of a connection.
pub const READ_LIMIT: u64 = 1024;

/// So many reads that give nothing for now end a connection.
pub const QUIET_LIMIT: u64 = 50;

/// How a connection ended.
#[derive(Clone, Copy, PartialEq, Eq)]
pub enum AdminEnd {
    /// A request was heard; how much of its answer was written.
    Heard(AdminRequest, Portion),
    /// No request was heard, and nothing was written.
    Unheard(Silence),
}

/// How much of an answer was written.
#[derive(Clone, Copy, PartialEq, Eq)]
pub enum Portion {
    /// All of it.
    Whole,
    /// A first part: a write failed or took no byte.
    Part,
    /// Nothing, since there was no memory for it.
    Nothing,
}

/// Why no request was heard.
#[derive(Clone, Copy, PartialEq, Eq)]
pub enum Silence {
    /// The input ended before its head was whole.
    Cut,
    /// [`QUIET_LIMIT`] reads gave nothing for now.
    Quiet,
    /// A read gave nothing for now, and the collector is closing.
    Stopped,
    /// A read failed.
    ReadFault,
    /// [`READ_LIMIT`] reads were made.
    Reads,
    /// No memory for the bytes that were read.
    NoMemory,
}

/// What a read brought.
#[derive(Clone, Copy, PartialEq, Eq)]
pub enum PieceRead {
    /// Some bytes.
    More,
    /// Nothing for now: it would block or timed out.
    Nothing,
    /// Nothing: it was interrupted.
    Interrupted,
    /// It failed.
    Failed,
    /// The input's end.
    End,
    /// Bytes for which there was no memory.
    NoRoom,
}
