//! The first traces that one run alone keeps.
ghost use Rattle.std.specs.Prelude.{◌≡◌, [], IfOk, OnOk};
ghost use Rattle.std.specs.Map.{keys_of};
ghost use Rattle.run_comparison.specs.Overlaps.{differing_if_new, differs, first_differing, fold_differing, fold_new_differing, with_differing, with_ends};

use crate::end::TraceEnd;
use crate::overlap::{KeptBy, trace_kept_by};
use crate::traces::Traces;
use span_ids::TraceId;
use std::alloc::{AllocError, Global};

/// How many traces that differ are told.
pub const MOST_DIFFERING: usize = 100;

/// A trace that one run alone keeps, and how it ended in each, where it did.
#[derive(Clone, Copy)]
pub struct Differing {
    pub trace: TraceId,
    pub old: Option<TraceEnd>,
    pub new: Option<TraceEnd>,
}

/// Whether one run alone keeps a trace.
fn differs(kept: KeptBy) -> bool
    ensures { result ≡ differs kept }
{
    matches!(kept, KeptBy::OnlyOld | KeptBy::OnlyNew)
}

/// A trace with its last end in each run.
fn with_ends(old: &Traces, new: &Traces, trace: TraceId) -> Differing
    ensures { result ≡ with_ends old.now new.now trace }
{
    Differing {
        trace,
        old: old.end_of(trace).copied(),
        new: new.end_of(trace).copied(),
    }
}

/// A trace more, where one run alone keeps it and there is room for one more. `Err` where memory was refused.
fn add_differing(
    found: &mut Vec<Differing>,
    old: &Traces,
    new: &Traces,
    trace: TraceId,
) -> Result<(), AllocError>
    ensures { OnOk result (found.new.items ≡ with_differing old.now new.now found.old.items trace) }
{
    if found.len() < MOST_DIFFERING && differs(trace_kept_by(old, new, trace)) {
        found.push(with_ends(old, new, trace))?;
    }
    Ok(())
}

/// The first traces that one run alone keeps, of those that ended in the old one.
#[tactic(auto, using(crate::proofs::Counted::drop_at))]
fn differing_of_old(alloc: Global, old: &Traces, new: &Traces) -> Result<Vec<Differing>, AllocError>
    ensures { IfOk result (λ found. found.items ≡ fold_differing old.now new.now [] (keys_of old.now.ends)) }
{
    let mut found = Vec::new(alloc);
    for place in 0..old.len() {
        add_differing(&mut found, old, new, old.trace_at(place))?;
    }
    Ok(found)
}

/// A trace more, where it hasn't ended in the old run. `Err` where memory was refused.
fn add_if_new(
    found: &mut Vec<Differing>,
    old: &Traces,
    new: &Traces,
    trace: TraceId,
) -> Result<(), AllocError>
    ensures { OnOk result (found.new.items ≡ differing_if_new old.now new.now found.old.items trace) }
{
    if old.has(trace) {
        return Ok(());
    }
    add_differing(found, old, new, trace)
}

/// The first traces that one run alone keeps: those so far, and of those that ended in the new run alone.
#[tactic(auto, using(crate::proofs::Counted::drop_at))]
fn differing_of_new(
    so_far: Vec<Differing>,
    old: &Traces,
    new: &Traces,
) -> Result<Vec<Differing>, AllocError>
    ensures { IfOk result (λ found. found.items ≡ fold_new_differing old.now new.now so_far.items (keys_of new.now.ends)) }
{
    let mut found = so_far;
    for place in 0..new.len() {
        add_if_new(&mut found, old, new, new.trace_at(place))?;
    }
    Ok(found)
}

/// The first traces that one run alone keeps: those that ended in the old one, in the order of their first ends there,
/// and then those that ended in the new one alone. `Err` where memory was refused.
#[tactic(auto, using(crate::proofs::Differs::all_differing))]
pub fn first_differing(
    alloc: Global,
    old: &Traces,
    new: &Traces,
) -> Result<Vec<Differing>, AllocError>
    ensures { IfOk result (λ found. found.items ≡ first_differing old.now new.now) }
{
    let found = differing_of_old(alloc, old, new)?;
    differing_of_new(found, old, new)
}
