//! An entry of a shard's journal.
use otlp_types::{Item, List};

/// An item that a shard has taken, with its marks and the limiter's answers at it.
#[derive(Drop)]
pub struct JournalEntry {
    pub item: Item,
    /// Memory was refused to the span.
    pub refused: bool,
    /// Memory was refused to the decision of the trace that left for the span.
    pub lost: bool,
    /// For each decision at the item, in order, the limiter's answers to its askings: true is granted.
    pub answers: List<List<bool>>,
}
