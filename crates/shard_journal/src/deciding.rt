//! The decisions at the end of a journal.
ghost use Rattle.std.specs.Prelude.{◌≡◌, reverse, OnOk, IfOk};
ghost use Rattle.journal_theory.specs.Journal.{Notes as NotesData, decisions_in_turn, after_decisions, decision, spans_since};
ghost use Rattle.shard_journal.specs.Settings.{settings_of};
ghost use Rattle.shard_journal.specs.Short.{short_notes, without_spans};

use crate::entry::Entry;
use crate::noted::{Decision, Notes, Opening};
use crate::settings::Settings;
use crate::spans::spans_since;
use crate::verdicts::verdict_on;
use otlp_types::List;
use policy_eval::searches_for;
use std::alloc::{AllocError, Global};

/// The decision of the episode of an opening at a journal's end, by these answers.
fn decide(
    alloc: Global,
    settings: &Settings,
    past: &[Entry],
    opening: Opening,
    answers: &[bool],
) -> Result<Decision, AllocError>
    ensures { IfOk result (λ made. made ≡ without_spans (decision (settings_of settings.now) (reverse past.now) opening answers.now)) }
{
    let spans = spans_since(alloc, past, &opening)?;
    // Anew for each decision: only tests run this (D-048).
    let mut searches = searches_for(alloc, &settings.policies)?;
    let verdict = verdict_on(settings, spans.as_slice(), answers, &mut searches);
    Ok(Decision::new(opening, verdict))
}

/// Decides the episodes of these openings at a journal's end, in order, as far as there are answers, and notes it.
pub fn decide_each(
    alloc: Global,
    settings: &Settings,
    past: &[Entry],
    due: &[Opening],
    answers: &[List<bool>],
    noted: &mut Notes,
) -> Result<(), AllocError>
    ensures { OnOk result ((full : NotesData) → noted.old ≡ short_notes full → noted.new ≡ short_notes (after_decisions (decisions_in_turn (settings_of settings.now) (reverse past.now) due.now answers.now) full)) }
{
    // What was given no answers is still undecided (D-054).
    for i in 0..due.len().min(answers.len()) {
        let made = decide(alloc, settings, past, due[i], answers[i].as_slice())?;
        noted.decide(made)?;
    }
    Ok(())
}
