//! Who is told of an output.
use std::io;

/// Who is told that an output fails, and that it no longer does.
pub trait OutputWatch {
    /// Whether the collector was told to stop.
    fn is_stopping(&self) -> bool;

    /// A write failed so, and is tried again.
    fn failing(&self, error: &io::Error);

    /// A write that was tried again has taken bytes.
    fn back(&self);
}
