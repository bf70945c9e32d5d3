//! Who watches a backend.
use batch_post::{AttemptOutcome, BatchFate};

/// The collector, as its backend sees it.
pub trait Watch {
    /// Whether it closes.
    fn is_closing(&self) -> bool;

    /// An attempt to send a batch ended so.
    fn attempted(&self, outcome: AttemptOutcome);

    /// A batch of this number of bytes was delivered or given up.
    fn settled(&self, bytes: u64, fate: BatchFate);

    /// The backend took a batch but for this number of its spans (OTLP 1.x, "Partial Success").
    fn rejected(&self, spans: u64);
}
