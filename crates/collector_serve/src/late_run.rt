//! Late spans of one trace, one after the other.
ghost use Rattle.std.specs.Prelude.{◌≡◌, None, Some};
ghost use Rattle.collector_serve.specs.LateRuns.{joined, joins, left_by};

use decision_line::LateSpans;

/// The late spans that were told last, of one trace and one verdict.
#[derive(Clone, Copy)]
pub struct LateRun {
    spans: Option<LateSpans>,
}

impl LateRun {
    /// No span.
    pub fn none() -> Self
        ensures { result.spans ≡ None }
    {
        LateRun { spans: None }
    }

    /// More late spans: they join those before them, where they are of the same trace and met the same verdict; else those
    /// before are given back, and they stand alone.
    pub fn with(&mut self, more: &LateSpans) -> Option<LateSpans>
        ensures left { result ≡ left_by self.old.spans more.now }
        ensures joined { self.new.spans ≡ Some (joined self.old.spans more.now) }
    {
        let left = left_by(&self.spans, more);
        let joined = joined(&self.spans, more);
        self.spans = Some(joined);
        left
    }

    /// Those that there are, and none from now on.
    pub fn end(&mut self) -> Option<LateSpans>
        ensures all { result ≡ self.old.spans }
        ensures none { self.new.spans ≡ None }
    {
        let spans = self.spans;
        self.spans = None;
        spans
    }
}

/// Whether late spans join those before them.
fn joins(before: &LateSpans, more: &LateSpans) -> bool
    ensures { result ≡ joins before.now more.now }
{
    before.trace == more.trace && before.verdict == more.verdict
}

/// What stands once more spans were told.
fn joined(before: &Option<LateSpans>, more: &LateSpans) -> LateSpans
    ensures { result ≡ joined before.now more.now }
{
    match before {
        Some(before) if joins(before, more) => LateSpans {
            trace: more.trace,
            moment: more.moment,
            verdict: more.verdict,
            spans: before.spans.saturating_add(more.spans),
        },
        _ => *more,
    }
}

/// What gets its line then.
fn left_by(before: &Option<LateSpans>, more: &LateSpans) -> Option<LateSpans>
    ensures { result ≡ left_by before.now more.now }
{
    match before {
        Some(before) if !joins(before, more) => Some(*before),
        _ => None,
    }
}
