//! The text.
ghost use Rattle.std.specs.Prelude.{◌≡◌, ◌++◌, decimal, map, string_bytes, IfOk, OnOk};
ghost use Rattle.status_json.specs.Json.{behind_commas, joined};
ghost use Rattle.status_json.specs.Text.{backlog_of, dropped_of, export_of, history_of, row_of, spans_of, status_text};

use crate::due::HISTORY_PACE;
use crate::numbers::{Backlog, HistoryRow, Status};
use drop_ledger::{Count, Report};
use span_ids::Reason;
use std::alloc::{AllocError, Global};

/// What the numbers of a row are, in their order.
const COLUMNS: &str =
    "[\"at_ms\",\"received\",\"handed\",\"invalid_id\",\"queue_full\",\"no_memory\",\"evicted\",\"not_sampled\",\"late_not_sampled\",\"exporter_down\"]";

/// Appends how many spans were given up for each reason.
fn put_dropped(text: &mut String, report: &Report) -> Result<(), AllocError>
    ensures { OnOk result (string_bytes text.new ≡ string_bytes text.old ++ dropped_of report.now) }
{
    let invalid_id = report.number(Count::Dropped(Reason::InvalidId));
    let queue_full = report.number(Count::Dropped(Reason::QueueFull));
    let no_memory = report.number(Count::Dropped(Reason::NoMemory));
    let evicted = report.number(Count::Dropped(Reason::Evicted));
    let not_sampled = report.number(Count::Dropped(Reason::NotSampled));
    let late_not_sampled = report.number(Count::Dropped(Reason::LateNotSampled));
    let exporter_down = report.number(Count::Dropped(Reason::ExporterDown));
    write!(
        text,
        "{{\"invalid_id\":{invalid_id},\"queue_full\":{queue_full},\"no_memory\":{no_memory},\"evicted\":{evicted},"
    )?;
    write!(
        text,
        "\"not_sampled\":{not_sampled},\"late_not_sampled\":{late_not_sampled},\"exporter_down\":{exporter_down}}}"
    )
}

/// Appends what became of the spans so far.
fn put_spans(text: &mut String, status: &Status) -> Result<(), AllocError>
    ensures { OnOk result (string_bytes text.new ≡ string_bytes text.old ++ spans_of status.entry.now) }
{
    let received = status.report.number(Count::Received);
    let handed = status.report.number(Count::Handed);
    let waiting = status.waiting;
    write!(
        text,
        "{{\"received\":{received},\"handed\":{handed},\"dropped\":"
    )?;
    put_dropped(text, &status.report)?;
    write!(text, ",\"waiting\":{waiting}}}")
}

/// Appends what waits for a backend.
fn put_backlog(text: &mut String, backlog: Backlog) -> Result<(), AllocError>
    ensures { OnOk result (string_bytes text.new ≡ string_bytes text.old ++ backlog_of backlog) }
{
    let waiting = backlog.waiting;
    let under_way = backlog.under_way;
    let failed_tries = backlog.failed_tries;
    let given_up = backlog.given_up;
    write!(
        text,
        "{{\"waiting_spans\":{waiting},\"under_way_s\":{under_way},\"failed_tries\":{failed_tries},\"given_up_batches\":{given_up}}}"
    )
}

/// Appends what waits for the backend, or `null` where there is none.
fn put_export(text: &mut String, backlog: Option<Backlog>) -> Result<(), AllocError>
    ensures { OnOk result (string_bytes text.new ≡ string_bytes text.old ++ export_of backlog) }
{
    match backlog {
        Some(backlog) => put_backlog(text, backlog),
        None => write!(text, "null"),
    }
}

/// Appends numbers, each behind a comma.
fn put_numbers(text: &mut String, numbers: &[u64]) -> Result<(), AllocError>
    ensures { OnOk result (string_bytes text.new ≡ string_bytes text.old ++ behind_commas (map decimal numbers.now)) }
{
    for number in numbers {
        let number = *number;
        write!(text, ",{number}")?;
    }
    Ok(())
}

/// Appends a row, behind what stands between it and the one before.
fn put_row(text: &mut String, between: &str, row: &HistoryRow) -> Result<(), AllocError>
    ensures { OnOk result (string_bytes text.new ≡ string_bytes text.old ++ (between.now ++ row_of row.now)) }
{
    let at = row.at;
    write!(text, "{between}[{at}")?;
    put_numbers(text, &row.report.numbers())?;
    write!(text, "]")
}

/// Appends rows, with a comma between each two.
fn put_rows(text: &mut String, rows: &[HistoryRow]) -> Result<(), AllocError>
    ensures { OnOk result (string_bytes text.new ≡ string_bytes text.old ++ joined (map row_of rows.now)) }
{
    let Some((first, rest)) = rows.split_first() else {
        return Ok(());
    };
    put_row(text, "", first)?;
    for row in rest {
        put_row(text, ",", row)?;
    }
    Ok(())
}

/// Appends the history.
fn put_history(text: &mut String, rows: &[HistoryRow]) -> Result<(), AllocError>
    ensures { OnOk result (string_bytes text.new ≡ string_bytes text.old ++ history_of rows.now) }
{
    write!(
        text,
        "{{\"every_ms\":{HISTORY_PACE},\"columns\":{COLUMNS},\"rows\":["
    )?;
    put_rows(text, rows)?;
    write!(text, "]}}")
}

/// The text of these numbers, and of the rows of a history in their order: one line of JSON with no blanks.
pub fn status_text(
    alloc: Global,
    status: &Status,
    rows: &[HistoryRow],
) -> Result<String, AllocError>
    ensures { IfOk result (λ text. string_bytes text ≡ status_text status.entry.now rows.now) }
{
    let mut text = String::new(alloc);
    let now = status.now;
    write!(text, "{{\"now_ms\":{now},\"spans\":")?;
    put_spans(&mut text, status)?;
    write!(text, ",\"export\":")?;
    put_export(&mut text, status.backlog)?;
    write!(text, ",\"history\":")?;
    put_history(&mut text, rows)?;
    write!(text, "}}\n")?;
    Ok(text)
}
