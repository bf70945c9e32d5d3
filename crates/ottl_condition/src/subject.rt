//! What a condition is asked of.
ghost use Rattle.std.specs.Prelude.{◌≡◌};
ghost use Rattle.ottl_condition.specs.Subjects as spec;

use otlp_types::{Event, Record};

/// What a condition is asked of (`ottl_text::Context`).
#[derive(Clone, Copy)]
pub enum Subject<'a> {
    /// A span, with what it was sent under.
    Span(&'a Record),
    /// An event, with the span that it is of.
    Event(&'a Record, &'a Event),
}

impl<'a> Subject<'a> {
    /// The span.
    pub(crate) fn sent(&self) -> &'a Record
        ensures { result.now ≡ spec.sent_of (spec.subject_of self.now) }
    {
        match self {
            Subject::Span(sent) => sent,
            Subject::Event(sent, _) => sent,
        }
    }
}
