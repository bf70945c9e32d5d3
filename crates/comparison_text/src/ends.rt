//! The traces that differ, written.
ghost use Rattle.std.specs.Prelude.{◌≡◌, codes, map, string_bytes};
ghost use Rattle.comparison_text.specs.Putting.{PutsMember, PutsValue};
ghost use Rattle.comparison_text.specs.Value.{array_of, differing_value, end_or_null, end_value};

use crate::putting::{put_number, put_truth, put_word, put_word_or_null};
use crate::words::{ended_cause, ended_word};
use json::Writer;
use run_comparison::{Differing, TraceEnd};
use std::alloc::{AllocError, Global};

/// Writes how a trace ended in a run by policies of these names.
fn put_end(out: &mut Writer, end: &TraceEnd, names: &[String]) -> Result<(), AllocError>
    ensures { PutsValue result out.old out.new (end_value (map string_bytes names.now) end.now) }
{
    out.begin_object()?;
    put_word(out, "verdict", ended_word(end.how))?;
    put_word_or_null(out, "policy", end.policy(names))?;
    put_word_or_null(out, "by", ended_cause(end.how))?;
    put_number(out, "spans", end.spans)?;
    put_number(out, "moment_ms", end.moment)?;
    put_truth(out, "kept", end.kept)?;
    out.end_object()
}

/// Writes the end of a trace or null, as the member of this name.
fn put_end_or_null(
    out: &mut Writer,
    member: &str,
    end: Option<TraceEnd>,
    names: &[String],
) -> Result<(), AllocError>
    ensures { PutsMember result out.old out.new member.now (end_or_null (map string_bytes names.now) end) }
{
    out.key(member)?;
    match end {
        Some(end) => put_end(out, &end, names),
        None => out.null(),
    }
}

/// Writes a trace that differs.
fn put_trace(
    out: &mut Writer,
    alloc: Global,
    trace: &Differing,
    old: &[String],
    new: &[String],
) -> Result<(), AllocError>
    ensures { PutsValue result out.old out.new (differing_value (map string_bytes old.now) (map string_bytes new.now) trace.now) }
{
    let id = trace.trace.text(alloc)?;
    out.begin_object()?;
    put_word(out, "trace_id", id.as_str())?;
    put_end_or_null(out, "old", trace.old, old)?;
    put_end_or_null(out, "new", trace.new, new)?;
    out.end_object()
}

/// Writes traces that differ, of runs by policies of these names.
pub fn put_differing(
    out: &mut Writer,
    alloc: Global,
    found: &[Differing],
    old: &[String],
    new: &[String],
) -> Result<(), AllocError>
    ensures { PutsMember result out.old out.new (codes "differ") (array_of (differing_value (map string_bytes old.now) (map string_bytes new.now)) found.now) }
{
    out.key("differ")?;
    out.begin_array()?;
    for trace in found {
        put_trace(out, alloc, trace, old, new)?;
    }
    out.end_array()
}
