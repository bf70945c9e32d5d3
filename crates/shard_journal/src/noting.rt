//! What is noted of a journal, entry by entry.
ghost use Rattle.std.specs.Prelude.{◌≡◌, ◌∷◌, reverse, length, IfOk, OnOk, option_to_list};
ghost use Rattle.journal_theory.specs.Journal.{Journal, clock, opens, finding, leaving, touch_of_leaving, after_finding, after_item, notes};
ghost use Rattle.shard_journal.specs.Settings.{settings_of};
ghost use Rattle.shard_journal.specs.Short.{short_notes};

use crate::deciding::decide_each;
use crate::due::due_at;
use crate::entry::Entry;
use crate::finding::{FoundTrace, finding, is_in_buffer};
use crate::moments::clock;
use crate::noted::{Notes, Opening, Touch, leaving};
use crate::settings::Settings;
use otlp_types::Item;
use span_ids::{Moment, TraceId};
use std::alloc::{AllocError, Global};

/// What is noted of a journal, each due episode decided by the answers that stand with the item.
#[tactic(auto, using(crate::proofs::Newest::newest_more))]
pub fn notes_of(alloc: Global, settings: &Settings, journal: &[Entry]) -> Result<Notes, AllocError>
    ensures { IfOk result (λ noted. noted ≡ short_notes (notes (settings_of settings.now) (reverse journal.now))) }
{
    let mut noted = Notes::new(alloc);
    for at in 0..journal.len() {
        let past = &journal[..at + 1];
        let before = &journal[..at];
        note_entry(alloc, settings, past, &journal[at], before, &mut noted)?;
    }
    Ok(noted)
}

/// Notes an entry, and decides what is due after it: `past` is `before` and that entry.
fn note_entry(
    alloc: Global,
    settings: &Settings,
    past: &[Entry],
    entry: &Entry,
    before: &[Entry],
    noted: &mut Notes,
) -> Result<(), AllocError>
    requires past { reverse past.now ≡ entry.now ∷ reverse before.now }
    requires noted { noted.old ≡ short_notes (notes (settings_of settings.now) (reverse before.now)) }
    ensures { OnOk result (noted.new ≡ short_notes (notes (settings_of settings.now) (reverse past.now))) }
{
    note_item(settings, entry, before.len(), clock(past), noted)?;
    let due = due_at(alloc, settings, past, entry, before, noted)?;
    decide_each(
        alloc,
        settings,
        past,
        due.as_slice(),
        entry.answers.as_slice(),
        noted,
    )
}

/// Notes an entry at its position and the clock after it, before any decision.
pub fn note_item(
    settings: &Settings,
    entry: &Entry,
    at: usize,
    now: Moment,
    noted: &mut Notes,
) -> Result<(), AllocError>
    ensures { (before : Journal) → at ≡ length before → now ≡ clock (entry.now ∷ before) → OnOk result (noted.new ≡ after_item (settings_of settings.now) entry.now before entry.now.item noted.old) }
{
    match &entry.item {
        Item::Span(arrival) => match arrival.rec.span.get().ids {
            None => Ok(()),
            Some(ids) => {
                if entry.refused {
                    Ok(())
                } else {
                    note_span(settings, ids.trace, entry.lost, at, now, noted)
                }
            }
        },
        Item::Tick(_) => Ok(()),
        Item::End(_) => Ok(()),
    }
}

/// Notes a span of this trace, not refused, at its position and the clock after it.
fn note_span(
    settings: &Settings,
    trace: TraceId,
    lost: bool,
    at: usize,
    clock: Moment,
    noted: &mut Notes,
) -> Result<(), AllocError>
    ensures { OnOk result (noted.new ≡ after_finding (settings_of settings.now) trace lost at clock noted.old (finding (settings_of settings.now) noted.old trace)) }
{
    match finding(settings, noted, trace) {
        FoundTrace::Joins(_) => Ok(()),
        FoundTrace::Meets(opening, verdict) => {
            if is_in_buffer(settings, noted, opening.at()) {
                Ok(())
            } else {
                noted.touch(Touch::new(&opening, verdict))
            }
        }
        FoundTrace::Opens => note_opening(settings, Opening::new(at, trace, clock), lost, noted),
    }
}

/// Notes an opening, and the touch where it puts a decided episode out of a full buffer.
fn note_opening(
    settings: &Settings,
    opening: Opening,
    lost: bool,
    noted: &mut Notes,
) -> Result<(), AllocError>
    ensures { OnOk result (noted.new ≡ after_finding (settings_of settings.now) opening.trace lost opening.at opening.moment noted.old opens) }
{
    let touch = if lost {
        None
    } else {
        touch_of_leaving(settings, noted)
    };
    noted.open(opening)?;
    match touch {
        None => Ok(()),
        Some(touch) => noted.touch(touch),
    }
}

/// The touch where a decided episode leaves by the next opening.
fn touch_of_leaving(settings: &Settings, noted: &Notes) -> Option<Touch>
    ensures { option_to_list result ≡ touch_of_leaving noted.now (leaving settings.now.num_traces noted.now.openings) }
{
    let opening = leaving(settings.num_traces, noted.openings())?;
    let verdict = noted.decided_as(opening.at())?;
    Some(Touch::new(&opening, verdict))
}
