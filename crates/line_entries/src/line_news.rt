//! What became of traces.
use decision_json::TraceNews;
use decision_line::LateSpans;

/// What a line is written for.
#[derive(Clone, Copy)]
pub enum LineNews {
    /// What became of a trace.
    Trace(TraceNews),
    /// Spans that came late.
    Late(LateSpans),
}
