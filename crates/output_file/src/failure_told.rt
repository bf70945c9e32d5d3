//! When it is told that writes fail, and that they no longer do.
ghost use Rattle.std.specs.Prelude.{◌≡◌, false, true, not};

/// Whether it is told that writes fail.
#[derive(Clone, Copy, PartialEq, Eq)]
pub struct FailureTold {
    pub is_told: bool,
}

impl FailureTold {
    /// Nothing is told.
    pub fn new() -> Self
        ensures { result.is_told ≡ false }
    {
        FailureTold { is_told: false }
    }

    /// A write failed: whether that is to be told, since it wasn't since one took bytes last.
    pub fn fails(&mut self) -> bool
        ensures told { self.new.is_told ≡ true }
        ensures tells { result ≡ not self.old.is_told }
    {
        let is_told = self.is_told;
        self.is_told = true;
        !is_told
    }

    /// A write took bytes: whether it is to be told that writes no longer fail.
    pub fn takes(&mut self) -> bool
        ensures told { self.new.is_told ≡ false }
        ensures tells { result ≡ self.old.is_told }
    {
        let is_told = self.is_told;
        self.is_told = false;
        is_told
    }
}
