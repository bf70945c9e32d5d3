//! How much was kept.
ghost use Rattle.std.specs.Prelude.{◌≡◌};
ghost use Rattle.run_comparison.specs.Amount.{nothing, plus};

/// How much was kept: each number up to 2^64-1.
#[derive(Clone, Copy)]
pub struct Amount {
    /// Decisions that kept a trace.
    pub traces: u64,
    /// Spans, those that came late among them.
    pub spans: u64,
    /// The bytes of their canonical texts.
    pub bytes: u64,
}

impl Amount {
    /// Nothing.
    pub fn nothing() -> Amount
        ensures { result ≡ nothing }
    {
        Amount {
            traces: 0,
            spans: 0,
            bytes: 0,
        }
    }

    /// This and another amount together.
    pub fn plus(self, more: Amount) -> Amount
        ensures { result ≡ plus self more }
    {
        Amount {
            traces: self.traces.saturating_add(more.traces),
            spans: self.spans.saturating_add(more.spans),
            bytes: self.bytes.saturating_add(more.bytes),
        }
    }
}
