//! What a journal says, for those who hold it.
ghost use Rattle.std.specs.Prelude.{◌≡◌, ◌∷◌, [], map, reverse, IfOk};
ghost use Rattle.journal_theory.specs.Journal.{due_now, leaving, spans_since};
ghost use Rattle.journal_theory.specs.Fate.{no_effect, counts, effect_of_verdict, effect_of_leaving, effect_of_span, effect_of_finding, effect_of_taking};
ghost use Rattle.journal_theory.specs.Answered.{effect_answered, effect_answered_at};
ghost use Rattle.journal_theory.specs.Marked.{refusal_applies, cache_is_on, loss_applies, marks_apply_to};
ghost use Rattle.shard_journal.specs.Settings.{settings_of};
ghost use Rattle.shard_journal.specs.Found.{the_finding};

use crate::due::due_at;
use crate::entry::{DroppedSpan, Effect, Entry};
use crate::finding::{FoundTrace, cache_size, finding};
use crate::moments::clock;
use crate::noted::{Notes, Opening, leaving};
use crate::noting::{note_item, notes_of};
use crate::settings::Settings;
use crate::spans::spans_since;
use crate::verdicts::judge_spans;
use otlp_types::{Arrival, Item, List, TryClone};
use policy_eval::searches_for;
use span_ids::{Reason, Verdict};
use std::alloc::{AllocError, Global};

/// The episodes that are due at the journal's last item, in order of opening.
pub fn due_now(
    alloc: Global,
    settings: &Settings,
    journal: &[Entry],
) -> Result<Vec<Opening>, AllocError>
    ensures { IfOk result (λ due. due.items ≡ due_now (settings_of settings.now) (reverse journal.now)) }
{
    let Some((entry, before)) = journal.split_last() else {
        return Ok(Vec::new(alloc));
    };
    let mut noted = notes_of(alloc, settings, before)?;
    note_item(settings, entry, before.len(), clock(journal), &mut noted)?;
    due_at(alloc, settings, journal, entry, before, &noted)
}

/// The spans of each of these openings' episodes.
pub fn spans_of_each(
    alloc: Global,
    journal: &[Entry],
    openings: &[Opening],
) -> Result<Vec<List<Arrival>>, AllocError>
    ensures { IfOk result (λ spans. spans.items ≡ map (spans_since (reverse journal.now)) openings.now) }
{
    let mut spans = Vec::new(alloc);
    for opening in openings {
        spans.push(List::from_vec(spans_since(alloc, journal, opening)?))?;
    }
    Ok(spans)
}

/// Whether these marks can apply to a span that finds this.
pub fn marks_apply_to(
    settings: &Settings,
    noted: &Notes,
    refused: bool,
    lost: bool,
    found: FoundTrace,
) -> bool
    ensures { result ≡ marks_apply_to (settings_of settings.now) noted.now refused lost (the_finding found) }
{
    // Never both: a refused span opens nothing, so it evicts nothing (D-095).
    let refusal = refusal_applies(&found);
    let loss = loss_applies(settings, noted, &found);
    (!refused || refusal) && (!lost || !refused && loss)
}

fn refusal_applies(found: &FoundTrace) -> bool
    ensures { result ≡ refusal_applies (the_finding found.now) }
{
    match found {
        FoundTrace::Joins(_) => true,
        FoundTrace::Meets(_, _) => false,
        FoundTrace::Opens => true,
    }
}

fn loss_applies(settings: &Settings, noted: &Notes, found: &FoundTrace) -> bool
    ensures { result ≡ loss_applies (settings_of settings.now) noted.now (the_finding found.now) }
{
    match found {
        FoundTrace::Joins(_) => false,
        FoundTrace::Meets(_, _) => false,
        FoundTrace::Opens => match leaving(settings.num_traces, noted.openings()) {
            None => false,
            Some(opening) => match noted.decided_as(opening.at()) {
                None => false,
                Some(verdict) => 0 < cache_size(settings, verdict),
            },
        },
    }
}

/// What taking this entry after the journal does, before any decision.
pub fn effect_of_taking(
    alloc: Global,
    settings: &Settings,
    journal: &[Entry],
    entry: &Entry,
) -> Result<Effect, AllocError>
    ensures { IfOk result (λ effect. effect ≡ effect_of_taking (settings_of settings.now) entry.now (reverse journal.now)) }
{
    match &entry.item {
        Item::Span(arrival) => effect_of_span(alloc, settings, journal, entry.refused, arrival),
        Item::Tick(_) => Ok(no_effect(alloc)),
        Item::End(_) => Ok(no_effect(alloc)),
    }
}

fn effect_of_span(
    alloc: Global,
    settings: &Settings,
    before: &[Entry],
    refused: bool,
    arrival: &Arrival,
) -> Result<Effect, AllocError>
    ensures { IfOk result (λ effect. effect ≡ effect_of_span (settings_of settings.now) (reverse before.now) refused arrival.now arrival.now.rec.span.ids) }
{
    let Some(ids) = arrival.rec.span.get().ids else {
        return Ok(no_effect(alloc));
    };
    if refused {
        let spans = one_span(alloc, arrival)?;
        return counted(alloc, Reason::NoMemory, spans.as_slice());
    }
    let noted = notes_of(alloc, settings, before)?;
    let found = finding(settings, &noted, ids.trace);
    effect_of_finding(alloc, settings, before, &noted, arrival, found)
}

fn effect_of_finding(
    alloc: Global,
    settings: &Settings,
    before: &[Entry],
    noted: &Notes,
    arrival: &Arrival,
    found: FoundTrace,
) -> Result<Effect, AllocError>
    ensures { IfOk result (λ effect. effect ≡ effect_of_finding (settings_of settings.now) (reverse before.now) noted.now arrival.now (the_finding found)) }
{
    match found {
        FoundTrace::Joins(_) => Ok(no_effect(alloc)),
        FoundTrace::Meets(_, verdict) => {
            let spans = one_span(alloc, arrival)?;
            effect_of_verdict(alloc, Reason::LateNotSampled, spans, verdict)
        }
        FoundTrace::Opens => effect_of_leaving(alloc, settings, before, noted),
    }
}

/// What the leaving of an episode does, where the next opening puts one out of a full buffer.
fn effect_of_leaving(
    alloc: Global,
    settings: &Settings,
    before: &[Entry],
    noted: &Notes,
) -> Result<Effect, AllocError>
    ensures { IfOk result (λ effect. effect ≡ effect_of_leaving (reverse before.now) noted.now (leaving settings.now.num_traces noted.now.openings)) }
{
    let Some(opening) = leaving(settings.num_traces, noted.openings()) else {
        return Ok(no_effect(alloc));
    };
    match noted.decided_as(opening.at()) {
        Some(_) => Ok(no_effect(alloc)),
        None => {
            let spans = spans_since(alloc, before, &opening)?;
            counted(alloc, Reason::Evicted, spans.as_slice())
        }
    }
}

/// What the decision at this place does by these answers of the limiter, of the decisions at the journal's last item in
/// order of opening. `None` where no episode is due at that place, or the number of answers isn't that of the askings.
pub fn decision_at(
    alloc: Global,
    settings: &Settings,
    journal: &[Entry],
    place: usize,
    answers: &[bool],
) -> Result<Option<Effect>, AllocError>
    ensures { IfOk result (λ effect. effect ≡ effect_answered_at (settings_of settings.now) (reverse journal.now) place answers.now) }
{
    let due = due_now(alloc, settings, journal)?;
    if place >= due.len() {
        return Ok(None);
    }
    effect_answered(alloc, settings, journal, answers, &due[place])
}

/// What the decision of this episode at the journal's end does by these answers, where there is one for each asking.
fn effect_answered(
    alloc: Global,
    settings: &Settings,
    journal: &[Entry],
    answers: &[bool],
    opening: &Opening,
) -> Result<Option<Effect>, AllocError>
    ensures { IfOk result (λ effect. effect ≡ effect_answered (settings_of settings.now) (reverse journal.now) answers.now opening.now) }
{
    let spans = spans_since(alloc, journal, opening)?;
    let mut searches = searches_for(alloc, &settings.policies)?;
    let judged = judge_spans(settings, spans.as_slice(), answers, &mut searches);
    let Some(verdict) = judged else {
        return Ok(None);
    };
    let effect = effect_of_verdict(alloc, Reason::NotSampled, spans, verdict)?;
    Ok(Some(effect))
}

/// Spans are released, or counted under the reason against them.
fn effect_of_verdict(
    alloc: Global,
    against: Reason,
    spans: Vec<Arrival>,
    verdict: Verdict,
) -> Result<Effect, AllocError>
    ensures { IfOk result (λ effect. effect ≡ effect_of_verdict against spans.items verdict) }
{
    match verdict {
        Verdict::Sampled => Ok(Effect {
            released: spans,
            counted: Vec::new(alloc),
        }),
        Verdict::NotSampled => counted(alloc, against, spans.as_slice()),
    }
}

/// These spans are counted under a reason.
fn counted(alloc: Global, reason: Reason, spans: &[Arrival]) -> Result<Effect, AllocError>
    ensures { IfOk result (λ effect. effect ≡ record { released = []; counted = counts reason spans.now }) }
{
    Ok(Effect {
        released: Vec::new(alloc),
        counted: count_each(alloc, reason, spans)?,
    })
}

fn count_each(
    alloc: Global,
    reason: Reason,
    spans: &[Arrival],
) -> Result<Vec<DroppedSpan>, AllocError>
    ensures { IfOk result (λ counted. counted.items ≡ counts reason spans.now) }
{
    spans
        .iter()
        .map(|span| DroppedSpan {
            reason,
            key: span.key,
        })
        .collect(alloc)
}

/// Nothing is released or counted.
fn no_effect(alloc: Global) -> Effect
    ensures { result ≡ no_effect }
{
    Effect {
        released: Vec::new(alloc),
        counted: Vec::new(alloc),
    }
}

fn one_span(alloc: Global, arrival: &Arrival) -> Result<Vec<Arrival>, AllocError>
    ensures { IfOk result (λ spans. spans.items ≡ arrival.now ∷ []) }
{
    let mut spans = Vec::new(alloc);
    spans.push(arrival.try_clone(alloc)?)?;
    Ok(spans)
}
