//! The comparison as JSON (RFC 8259).
ghost use Rattle.std.specs.Prelude.{◌≡◌, ◌++◌, IfOk, OnErr, OnOk};
ghost use Rattle.json.specs.Print.{print};
ghost use Rattle.json.specs.Tree.{json_tokens};
ghost use Rattle.decision_line.specs.Line.{ReadsBack, line_of};
ghost use Rattle.comparison_text.specs.Putting.{PutsValue};
ghost use Rattle.comparison_text.specs.Value.{value_about};

use crate::comparison::About;
use crate::ends::put_differing;
use crate::kept::{put_over_time, put_overlap, put_policies, put_run, put_services};
use crate::putting::put_word;
use json::Writer;
use run_comparison::{KeptRun, first_differing, overlap_of, policy_rows, same_steps, service_rows};
use std::alloc::{AllocError, Global};

/// Writes the comparison. What takes memory for itself is made first.
fn put_comparison(
    out: &mut Writer,
    alloc: Global,
    old: &KeptRun,
    new: &KeptRun,
    about: &About,
) -> Result<(), AllocError>
    ensures { PutsValue result out.old out.new (value_about about.now old.now new.now) }
{
    let steps = same_steps(alloc, old.steps(), new.steps())?;
    let policies = policy_rows(alloc, old, new)?;
    let services = service_rows(alloc, old.services(), new.services())?;
    let found = first_differing(alloc, old.traces(), new.traces())?;
    let overlap = overlap_of(old.traces(), new.traces());
    out.begin_object()?;
    put_word(out, "version", about.version)?;
    put_run(out, "old", about.old, old)?;
    put_run(out, "new", about.new, new)?;
    put_overlap(out, overlap)?;
    put_over_time(out, &steps.0, &steps.1)?;
    put_policies(out, &policies)?;
    put_services(out, &services)?;
    put_differing(out, alloc, &found, old.names(), new.names())?;
    out.end_object()
}

/// The comparison as JSON, in one line without its line feed.
pub fn json_of(
    alloc: Global,
    old: &KeptRun,
    new: &KeptRun,
    about: &About,
) -> Result<Vec<u8>, AllocError>
    ensures text { IfOk result (λ text. text.items ≡ print (json_tokens (value_about about.now old.now new.now))) }
    ensures back { OnOk result (ReadsBack (value_about about.now old.now new.now)) }
{
    let mut out = Writer::new(Vec::new(alloc));
    put_comparison(&mut out, alloc, old, new, about)?;
    Ok(out.into_inner())
}

/// Appends the comparison as JSON (RFC 8259): one line with no blanks, and a line feed. `Err` where memory was refused:
/// the bytes are as they were.
pub fn put_json(
    line: &mut Vec<u8>,
    old: &KeptRun,
    new: &KeptRun,
    about: &About,
) -> Result<(), AllocError>
    ensures line { OnOk result (line.new.items ≡ line.old.items ++ line_of (value_about about.now old.now new.now)) }
    ensures back { OnOk result (ReadsBack (value_about about.now old.now new.now)) }
    ensures same { OnErr result (line.new.items ≡ line.old.items) }
{
    let mut text = json_of(*line.allocator(), old, new, about)?;
    text.push(b'\n')?;
    line.extend_from_slice(&text)
}
