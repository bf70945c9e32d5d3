//! What a journal says of a trace.
ghost use Rattle.std.specs.Prelude.{◌≡◌, reverse, IfOk};
ghost use Rattle.journal_theory.specs.Journal.{finding, notes, remembered};
ghost use Rattle.shard_journal.specs.Settings.{settings_of};
ghost use Rattle.shard_journal.specs.Found.{kind_of};

use crate::entry::Entry;
use crate::finding::{FoundTrace, finding};
use crate::noting::notes_of;
use crate::settings::Settings;
use span_ids::{TraceId, Verdict};
use std::alloc::{AllocError, Global};

/// What a span finds of its trace.
#[derive(Clone, Copy, Debug, PartialEq, Eq)]
pub enum Finding {
    /// Its trace stands undecided in the buffer: it joins that episode.
    Joins,
    /// Its trace is remembered with this verdict: it is late.
    Meets(Verdict),
    /// Neither: it opens an episode.
    Opens,
}

/// What a span of this trace finds, if it is taken after the journal.
pub fn finding_of(
    alloc: Global,
    settings: &Settings,
    journal: &[Entry],
    trace: TraceId,
) -> Result<Finding, AllocError>
    ensures { IfOk result (λ found. found ≡ kind_of (finding (settings_of settings.now) (notes (settings_of settings.now) (reverse journal.now)) trace)) }
{
    let noted = notes_of(alloc, settings, journal)?;
    match finding(settings, &noted, trace) {
        FoundTrace::Joins(_) => Ok(Finding::Joins),
        FoundTrace::Meets(_, verdict) => Ok(Finding::Meets(verdict)),
        FoundTrace::Opens => Ok(Finding::Opens),
    }
}

/// The verdict with which a trace is remembered after the journal, if it is.
pub fn remembered(
    alloc: Global,
    settings: &Settings,
    journal: &[Entry],
    trace: TraceId,
) -> Result<Option<Verdict>, AllocError>
    ensures { IfOk result (λ verdict. verdict ≡ remembered (settings_of settings.now) (notes (settings_of settings.now) (reverse journal.now)) trace) }
{
    match finding_of(alloc, settings, journal, trace)? {
        Finding::Joins => Ok(None),
        Finding::Meets(verdict) => Ok(Some(verdict)),
        Finding::Opens => Ok(None),
    }
}
