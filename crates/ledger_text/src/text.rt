//! The numbers as a text.
ghost use Rattle.std.specs.Prelude.{◌≡◌, IfOk, string_bytes};
ghost use Rattle.ledger_text.specs.Numbers as spec;

use crate::look::LedgerNumbers;
use std::alloc::{AllocError, Global};

/// The numbers, a line each: its name, a space and the number; of a moment that there isn't, `none`.
pub fn numbers_text(alloc: Global, numbers: &LedgerNumbers) -> Result<String, AllocError>
    ensures { IfOk result (λ text. string_bytes text ≡ spec.numbers_text numbers.now) }
{
    let mut text = files_text(alloc, numbers)?;
    let held = held_text(alloc, numbers)?;
    let pending = pending_text(alloc, numbers)?;
    text.push_str(held.as_str())?;
    text.push_str(pending.as_str())?;
    Ok(text)
}

/// The line that says what would be received again from the folder at this path.
pub fn pending_line(
    alloc: Global,
    path: &str,
    numbers: &LedgerNumbers,
) -> Result<String, AllocError>
    ensures { IfOk result (λ text. string_bytes text ≡ spec.pending_line path.now numbers.now) }
{
    let (requests, spans) = (numbers.pending_requests, numbers.pending_spans);
    let traces = numbers.pending_traces;
    format!(in alloc;
        "tsc: the next start receives again, from {path}: {requests} requests, {spans} spans, {traces} traces\n"
    )
}

/// The lines of the files.
fn files_text(alloc: Global, numbers: &LedgerNumbers) -> Result<String, AllocError>
    ensures { IfOk result (λ text. string_bytes text ≡ spec.files_text numbers.now) }
{
    let (runs, segments) = (numbers.runs, numbers.segments);
    let (files, cut) = (numbers.files, numbers.cut_files);
    format!(in alloc; "runs {runs}\nsegments {segments}\nfiles {files}\ncut_files {cut}\n")
}

/// The lines of what they hold.
fn held_text(alloc: Global, numbers: &LedgerNumbers) -> Result<String, AllocError>
    ensures { IfOk result (λ text. string_bytes text ≡ spec.held_text numbers.now) }
{
    let (bytes, requests) = (numbers.bytes, numbers.requests);
    format!(in alloc; "bytes {bytes}\nrequests {requests}\n")
}

/// The lines of what is pending.
fn pending_text(alloc: Global, numbers: &LedgerNumbers) -> Result<String, AllocError>
    ensures { IfOk result (λ text. string_bytes text ≡ spec.pending_text numbers.now) }
{
    let (requests, spans) = (numbers.pending_requests, numbers.pending_spans);
    let traces = numbers.pending_traces;
    let oldest = moment_text(alloc, numbers.oldest)?;
    let newest = moment_text(alloc, numbers.newest)?;
    let (oldest, newest) = (oldest.as_str(), newest.as_str());
    format!(in alloc;
        "pending_requests {requests}\npending_spans {spans}\npending_traces {traces}\noldest_pending_ms {oldest}\nnewest_pending_ms {newest}\n"
    )
}

/// A moment, or that there is none.
fn moment_text(alloc: Global, moment: Option<u64>) -> Result<String, AllocError>
    ensures { IfOk result (λ text. string_bytes text ≡ spec.moment_text moment) }
{
    match moment {
        Some(moment) => format!(in alloc; "{moment}"),
        None => format!(in alloc; "none"),
    }
}
