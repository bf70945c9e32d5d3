//! What the last line of a log tells.
ghost use Rattle.std.specs.Prelude.{◌≡◌, map, None};
ghost use Rattle.collector_main.specs.Reports.{closed_with, count_under, told_in};
ghost use Rattle.drop_ledger.specs.Places.{place_of};

use drop_ledger::{Count, Report};
use event_log::{FieldValue, LogField};
use span_ids::Reason;

/// A text under a name.
fn text<'v>(name: &'static str, text: &'v str) -> LogField<'v>
    ensures { told_in result ≡ (name.now, None) }
{
    LogField {
        name,
        value: FieldValue::Text(text),
    }
}

/// A count of a report under a name.
fn counted(name: &'static str, report: &Report, count: Count) -> LogField<'static>
    ensures { told_in result ≡ count_under name.now report.now (place_of count) }
{
    LogField {
        name,
        value: FieldValue::Number(report.number(count)),
    }
}

/// Who asked for a close, and what became of each span.
pub fn fields_of<'v>(by: &'v str, report: &Report) -> [LogField<'v>; 10]
    ensures { map told_in result ≡ closed_with report.now }
{
    [
        text("by", by),
        counted("received", report, Count::Received),
        counted("handed", report, Count::Handed),
        counted("invalid_id", report, Count::Dropped(Reason::InvalidId)),
        counted("queue_full", report, Count::Dropped(Reason::QueueFull)),
        counted("no_memory", report, Count::Dropped(Reason::NoMemory)),
        counted("evicted", report, Count::Dropped(Reason::Evicted)),
        counted("not_sampled", report, Count::Dropped(Reason::NotSampled)),
        counted(
            "late_not_sampled",
            report,
            Count::Dropped(Reason::LateNotSampled),
        ),
        counted(
            "exporter_down",
            report,
            Count::Dropped(Reason::ExporterDown),
        ),
    ]
}
