//! Where entries wait.
ghost use Rattle.std.specs.Prelude.{Option};

use std::sync::Wait;

/// Gives entries, one after the other.
pub trait EntrySource<T> {
    /// What one call of `take` does: what waits before it, the entry that it gave, and what waits after it.
    ghost gives: { Self → Option T → Self → Type 0 };

    /// The next entry, or `None` where none waits.
    fn take<R: Wait>(&mut self, rt: &R) -> Option<T>
        ensures { gives self.old result self.new };
}
