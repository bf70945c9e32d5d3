//! The comparison as text for people.
ghost use Rattle.std.specs.Prelude.{◌≡◌, OnErr};

use crate::comparison::About;
use crate::words::{ended_cause, ended_word};
use run_comparison::{
    Amount, Differing, KeptRun, Overlap, PolicyRow, ServiceRow, TraceEnd, first_differing,
    overlap_of, policy_rows, same_steps, service_rows,
};
use std::alloc::{AllocError, Global};

/// How many services are told that lose, and how many that gain.
const MOST_TOLD: usize = 10;

/// Appends a text without its control characters (Unicode, general category Cc, of one byte), each of which stands as a
/// question mark: a name comes from elsewhere, and must not move a terminal's cursor.
fn put_name(text: &mut String, name: &str) -> Result<(), AllocError> {
    for letter in name.chars() {
        if letter < ' ' || letter == '\u{7f}' {
            text.push('?')?;
        } else {
            text.push(letter)?;
        }
    }
    Ok(())
}

/// Appends two numbers and by how much the second is greater.
fn put_pair(text: &mut String, old: u64, new: u64) -> Result<(), AllocError> {
    write!(text, "{old:>16}{new:>16}")?;
    if new > old {
        let more = new - old;
        write!(text, "  +{more}")
    } else if new < old {
        let less = old - new;
        write!(text, "  -{less}")
    } else {
        write!(text, "  same")
    }
}

/// Appends a line of two numbers behind a word.
fn put_line(text: &mut String, word: &str, old: u64, new: u64) -> Result<(), AllocError> {
    write!(text, "  {word:<24}")?;
    put_pair(text, old, new)?;
    write!(text, "\n")
}

/// Appends a line of one number behind a word.
fn put_count(text: &mut String, word: &str, number: u64) -> Result<(), AllocError> {
    write!(text, "  {word:<24}{number:>16}\n")
}

/// Appends what is compared.
fn put_head(text: &mut String, about: &About) -> Result<(), AllocError> {
    let version = about.version;
    write!(text, "tsc compare, version {version}\n  old  ")?;
    put_name(text, about.old)?;
    write!(text, "\n  new  ")?;
    put_name(text, about.new)?;
    write!(text, "\n\n")
}

/// Appends what both kept in all.
fn put_kept(text: &mut String, old: Amount, new: Amount) -> Result<(), AllocError> {
    let (before, after) = ("old", "new");
    write!(text, "Kept {before:>37}{after:>16}\n")?;
    put_line(text, "traces", old.traces, new.traces)?;
    put_line(text, "spans", old.spans, new.spans)?;
    put_line(text, "bytes", old.bytes, new.bytes)
}

/// Appends which traces are kept by which run.
fn put_overlap(text: &mut String, overlap: Overlap) -> Result<(), AllocError> {
    write!(text, "\nTraces kept by\n")?;
    put_count(text, "both", overlap.both)?;
    put_count(text, "the old alone", overlap.only_old)?;
    put_count(text, "the new alone", overlap.only_new)?;
    put_count(text, "neither", overlap.none)?;
    if overlap.unknown > 0 {
        put_count(text, "unknown (table full)", overlap.unknown)?;
    }
    Ok(())
}

/// Appends how many ends of traces found no room in a table, where some did.
fn put_beyond(text: &mut String, old: u64, new: u64) -> Result<(), AllocError> {
    if old == 0 && new == 0 {
        return Ok(());
    }
    put_line(text, "ends without a place", old, new)
}

/// An amount, or nothing.
fn or_nothing(amount: Option<Amount>) -> Amount {
    match amount {
        Some(amount) => amount,
        None => Amount::nothing(),
    }
}

/// Appends in which run a policy is, where it isn't in both.
fn put_presence(text: &mut String, row: PolicyRow) -> Result<(), AllocError> {
    match (row.old, row.new) {
        (Some(_), None) => write!(text, " (in the old alone)"),
        (None, Some(_)) => write!(text, " (in the new alone)"),
        _ => Ok(()),
    }
}

/// Appends what a policy kept.
fn put_amounts(text: &mut String, old: Amount, new: Amount) -> Result<(), AllocError> {
    write!(text, "\n")?;
    put_line(text, "  traces", old.traces, new.traces)?;
    put_line(text, "  spans", old.spans, new.spans)?;
    put_line(text, "  bytes", old.bytes, new.bytes)
}

/// Appends what each policy kept.
fn put_policies(
    text: &mut String,
    alloc: Global,
    old: &KeptRun,
    new: &KeptRun,
) -> Result<(), AllocError> {
    write!(text, "\nBy the policy that decided\n")?;
    let rows = policy_rows(alloc, old, new)?;
    for row in &rows {
        write!(text, "  ")?;
        put_name(text, row.name)?;
        put_presence(text, *row)?;
        put_amounts(text, or_nothing(row.old), or_nothing(row.new))?;
    }
    let (old, new) = (old.policies().without(), new.policies().without());
    if old.spans > 0 || new.spans > 0 {
        write!(text, "  no policy, or unknown")?;
        put_amounts(text, old, new)?;
    }
    Ok(())
}

/// Appends a service.
fn put_service(text: &mut String, row: ServiceRow) -> Result<(), AllocError> {
    write!(text, "  ")?;
    if row.name.is_empty() {
        write!(text, "(no service.name)")?;
    } else {
        put_name(text, row.name)?;
    }
    write!(text, "\n")?;
    put_line(text, "  spans", row.old, row.new)
}

/// Appends the services that lose most, and those that gain most.
fn put_services(
    text: &mut String,
    alloc: Global,
    old: &KeptRun,
    new: &KeptRun,
) -> Result<(), AllocError> {
    let mut rows = service_rows(alloc, old.services(), new.services())?;
    rows.sort_by_key(|row| (
        row.new.saturating_sub(row.old),
        row.old.saturating_sub(row.new),
    ))?;
    write!(text, "\nServices that lose most\n")?;
    let mut told = 0usize;
    for row in rows.iter().rev() {
        if row.new < row.old && told < MOST_TOLD {
            put_service(text, *row)?;
            told = told.saturating_add(1);
        }
    }
    write!(text, "\nServices that gain most\n")?;
    told = 0;
    for row in rows.iter().rev() {
        if row.new > row.old && told < MOST_TOLD {
            put_service(text, *row)?;
            told = told.saturating_add(1);
        }
    }
    let (old, new) = (old.services().beyond(), new.services().beyond());
    if old > 0 || new > 0 {
        put_line(text, "spans of further services", old, new)?;
    }
    Ok(())
}

/// Appends the spans kept over time.
fn put_over_time(
    text: &mut String,
    alloc: Global,
    old: &KeptRun,
    new: &KeptRun,
) -> Result<(), AllocError> {
    let (old, new) = same_steps(alloc, old.steps(), new.steps())?;
    let (from, width) = (old.begin(), old.width());
    write!(text, "\nSpans kept in each {width} ms, from {from} ms on\n")?;
    for (place, (before, after)) in old.counts().iter().zip(new.counts()).enumerate() {
        let begin = from.saturating_add(width.saturating_mul(place as u64));
        write!(text, "  {begin:<24}")?;
        put_pair(text, *before, *after)?;
        write!(text, "\n")?;
    }
    Ok(())
}

/// Appends how a trace ended in a run.
fn put_end(text: &mut String, end: &Option<TraceEnd>, names: &[String]) -> Result<(), AllocError> {
    let Some(end) = end else {
        return write!(text, "never ended\n");
    };
    let word = ended_word(end.how);
    write!(text, "{word}")?;
    if let Some(name) = end.policy(names) {
        write!(text, " by ")?;
        put_name(text, name)?;
    }
    if let Some(cause) = ended_cause(end.how) {
        write!(text, " ({cause})")?;
    }
    let (spans, moment) = (end.spans, end.moment);
    write!(text, ", {spans} spans, at {moment} ms\n")
}

/// Appends a trace that differs.
fn put_trace(
    text: &mut String,
    alloc: Global,
    trace: &Differing,
    old: &KeptRun,
    new: &KeptRun,
) -> Result<(), AllocError> {
    let id = trace.trace.text(alloc)?;
    write!(text, "  {id}\n    old  ")?;
    put_end(text, &trace.old, old.names())?;
    write!(text, "    new  ")?;
    put_end(text, &trace.new, new.names())
}

/// Appends the first traces that differ.
fn put_differing(
    text: &mut String,
    alloc: Global,
    old: &KeptRun,
    new: &KeptRun,
) -> Result<(), AllocError> {
    let found = first_differing(alloc, old.traces(), new.traces())?;
    let count = found.len();
    write!(text, "\nThe first {count} traces that one alone keeps\n")?;
    for trace in &found {
        put_trace(text, alloc, trace, old, new)?;
    }
    Ok(())
}

/// The comparison as text.
fn text_of(
    alloc: Global,
    old: &KeptRun,
    new: &KeptRun,
    about: &About,
) -> Result<String, AllocError> {
    let mut text = String::new(alloc);
    put_head(&mut text, about)?;
    put_kept(&mut text, old.kept(), new.kept())?;
    put_overlap(&mut text, overlap_of(old.traces(), new.traces()))?;
    put_beyond(&mut text, old.traces().beyond(), new.traces().beyond())?;
    put_policies(&mut text, alloc, old, new)?;
    put_services(&mut text, alloc, old, new)?;
    put_over_time(&mut text, alloc, old, new)?;
    put_differing(&mut text, alloc, old, new)?;
    Ok(text)
}

/// Appends the comparison as text for people, in lines of UTF-8. `Err` where memory was refused: the bytes are as they
/// were.
pub fn put_text(
    line: &mut Vec<u8>,
    old: &KeptRun,
    new: &KeptRun,
    about: &About,
) -> Result<(), AllocError>
    ensures same { OnErr result (line.new.items ≡ line.old.items) }
{
    let text = text_of(*line.allocator(), old, new, about)?;
    line.extend_from_slice(text.as_bytes())
}
