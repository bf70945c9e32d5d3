//! Which traces are kept by which run.
ghost use Rattle.std.specs.Prelude.{◌≡◌};
ghost use Rattle.std.specs.Map.{keys_of};
ghost use Rattle.run_comparison.specs.Overlaps.{counted_if_new, counted_more, fold_kept, fold_new_kept, is_kept, kept_by, nobody, overlap_of, trace_kept_by};

use crate::traces::Traces;
use span_ids::TraceId;

/// How many traces are kept by which run, of those that ended in one of them.
#[derive(Clone, Copy)]
pub struct Overlap {
    /// Both keep them.
    pub both: u64,
    /// The old one alone.
    pub only_old: u64,
    /// The new one alone.
    pub only_new: u64,
    /// Neither.
    pub none: u64,
    /// Unknown: they stand in one table alone, and the other had no room for all.
    pub unknown: u64,
}

/// Which runs keep a trace.
#[derive(Clone, Copy, PartialEq, Eq)]
pub enum KeptBy {
    /// Both.
    Both,
    /// The old one alone.
    OnlyOld,
    /// The new one alone.
    OnlyNew,
    /// Neither.
    Neither,
    /// It is unknown of one of them.
    Unknown,
}

/// Whether a run keeps a trace, as far as that is known: its table has the trace, or had room for all.
fn is_kept(traces: &Traces, trace: TraceId) -> Option<bool>
    ensures { result ≡ is_kept traces.now trace }
{
    match traces.end_of(trace) {
        Some(end) => Some(end.kept),
        None if traces.beyond() > 0 => None,
        None => Some(false),
    }
}

/// Which runs keep a trace, by whether each does.
fn kept_by(old: Option<bool>, new: Option<bool>) -> KeptBy
    ensures { result ≡ kept_by old new }
{
    match (old, new) {
        (Some(true), Some(true)) => KeptBy::Both,
        (Some(true), Some(false)) => KeptBy::OnlyOld,
        (Some(false), Some(true)) => KeptBy::OnlyNew,
        (Some(false), Some(false)) => KeptBy::Neither,
        _ => KeptBy::Unknown,
    }
}

/// Which runs keep a trace.
pub fn trace_kept_by(old: &Traces, new: &Traces, trace: TraceId) -> KeptBy
    ensures { result ≡ trace_kept_by old.now new.now trace }
{
    kept_by(is_kept(old, trace), is_kept(new, trace))
}

impl Overlap {
    /// No trace.
    fn empty() -> Overlap
        ensures { result ≡ nobody }
    {
        Overlap {
            both: 0,
            only_old: 0,
            only_new: 0,
            none: 0,
            unknown: 0,
        }
    }

    /// One trace more.
    fn with(self, kept: KeptBy) -> Overlap
        ensures { result ≡ counted_more self kept }
    {
        let mut after = self;
        match kept {
            KeptBy::Both => after.both = after.both.saturating_add(1),
            KeptBy::OnlyOld => after.only_old = after.only_old.saturating_add(1),
            KeptBy::OnlyNew => after.only_new = after.only_new.saturating_add(1),
            KeptBy::Neither => after.none = after.none.saturating_add(1),
            KeptBy::Unknown => after.unknown = after.unknown.saturating_add(1),
        }
        after
    }
}

/// How many traces are kept by which run, of those that ended in the old one.
#[tactic(auto, using(crate::proofs::Counted::drop_at))]
fn of_old(old: &Traces, new: &Traces) -> Overlap
    ensures { result ≡ fold_kept old.now new.now nobody (keys_of old.now.ends) }
{
    let mut overlap = Overlap::empty();
    for place in 0..old.len() {
        overlap = overlap.with(trace_kept_by(old, new, old.trace_at(place)));
    }
    overlap
}

/// One trace more, where it hasn't ended in the old run.
fn with_if_new(so_far: Overlap, old: &Traces, new: &Traces, trace: TraceId) -> Overlap
    ensures { result ≡ counted_if_new old.now new.now so_far trace }
{
    if old.has(trace) {
        return so_far;
    }
    so_far.with(trace_kept_by(old, new, trace))
}

/// How many traces are kept by which run, of those so far and those that ended in the new one alone.
#[tactic(auto, using(crate::proofs::Counted::drop_at))]
fn with_new(so_far: Overlap, old: &Traces, new: &Traces) -> Overlap
    ensures { result ≡ fold_new_kept old.now new.now so_far (keys_of new.now.ends) }
{
    let mut overlap = so_far;
    for place in 0..new.len() {
        overlap = with_if_new(overlap, old, new, new.trace_at(place));
    }
    overlap
}

/// How many traces are kept by which run, of those that ended in one of them.
#[tactic(auto, using(crate::proofs::Counted::all_counted))]
pub fn overlap_of(old: &Traces, new: &Traces) -> Overlap
    ensures { result ≡ overlap_of old.now new.now }
{
    with_new(of_old(old, new), old, new)
}
