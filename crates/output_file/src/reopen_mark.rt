//! The mark that asks for a file to be opened anew.
use std::sync::atomic::{AtomicU64, Ordering};

/// A mark that any thread may raise. Whoever looks compares it with what was seen last.
#[derive(Drop)]
pub struct ReopenMark {
    asked: AtomicU64,
}

impl ReopenMark {
    /// A mark that nobody has raised.
    pub fn new() -> Self {
        ReopenMark {
            asked: AtomicU64::new(0),
        }
    }

    /// Asks for the file to be opened anew at the end of its line.
    pub fn ask(&self) {
        self.asked.fetch_add(1, Ordering::SeqCst);
    }

    /// How often that was asked for.
    pub fn count(&self) -> u64 {
        self.asked.load(Ordering::SeqCst)
    }
}
