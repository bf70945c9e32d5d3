//! The kinds of families.
ghost use Rattle.std.specs.Prelude.{◌≡◌};
ghost use Rattle.metrics_text.specs.Families.{word_of};

/// What a family's numbers do.
#[derive(Clone, Copy, PartialEq, Eq)]
pub enum FamilyKind {
    /// They grow from 0, until the collector ends.
    Counter,
    /// They go up and down.
    Gauge,
}

impl FamilyKind {
    /// The word for it.
    pub fn word(self) -> &'static str
        ensures { result.now ≡ word_of self }
    {
        match self {
            FamilyKind::Counter => "counter",
            FamilyKind::Gauge => "gauge",
        }
    }
}
