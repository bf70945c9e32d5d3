//! What is said once, where it is seen first.
ghost use Rattle.std.specs.Prelude.{◌≡◌, false, not, ◌&&◌, ◌||◌};

/// Whether something was said that is said once.
#[derive(Clone, Copy, PartialEq, Eq)]
pub struct SaidOnce {
    pub is_said: bool,
}

impl SaidOnce {
    /// It wasn't.
    pub fn new() -> Self
        ensures { result.is_said ≡ false }
    {
        SaidOnce { is_said: false }
    }

    /// Whether it is to be said now, at a look that saw it or didn't.
    pub fn says(&mut self, is_seen: bool) -> bool
        ensures says { result ≡ (is_seen && not self.old.is_said) }
        ensures said { self.new.is_said ≡ (self.old.is_said || is_seen) }
    {
        let says = is_seen && !self.is_said;
        self.is_said = self.is_said || is_seen;
        says
    }
}
