//! What takes batches.
ghost use Rattle.std.specs.Prelude.{◌∷◌, [], List, Option};
ghost use Rattle.batch_post.specs.Logs.{LogEntry, Grows, drawn, remained, settled, told, tried, waited};

use crate::outcome::{AttemptOutcome, BatchFate};

/// A backend, as one sees it who delivers batches to it.
pub trait Backend {
    /// What was tried, read, waited and settled, in order, where that is known.
    ghost log: { Self → Option (List LogEntry) };

    /// Tries to hand a batch over, and answers how that ended.
    fn attempt(&mut self, batch: &[u8]) -> AttemptOutcome
        ensures { Grows (log self.old) (log self.new) (tried batch.now result ∷ []) };

    /// A batch was delivered or given up.
    fn settle(&mut self, batch: &[u8], fate: BatchFate)
        ensures { Grows (log self.old) (log self.new) (settled batch.now fate ∷ []) };

    /// Waits for this number of milliseconds, or less where the collector closes meanwhile.
    fn wait(&mut self, milliseconds: u64)
        ensures { Grows (log self.old) (log self.new) (waited milliseconds ∷ []) };

    /// A moment, in milliseconds.
    fn now(&mut self) -> u64
        ensures { Grows (log self.old) (log self.new) (told result ∷ []) };

    /// A random number.
    fn random(&mut self) -> u64
        ensures { Grows (log self.old) (log self.new) (drawn result ∷ []) };

    /// How many milliseconds are left, once the collector closes.
    fn left(&mut self) -> Option<u64>
        ensures { Grows (log self.old) (log self.new) (remained result ∷ []) };
}
