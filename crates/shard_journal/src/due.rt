//! Which episodes are due at the last item of a journal.
ghost use Rattle.std.specs.Prelude.{◌≡◌, ◌∷◌, ◌+◌, ◌&&◌, ◌||◌, not, nat_le, nat_lt, filter, reverse, IfOk};
ghost use Rattle.std.specs.List.{list_any};
ghost use Rattle.journal_theory.specs.Journal.{clock, undecided, have_ended, due_at, is_due, is_oversized, oversized, is_root_past, is_root, item_spans};
ghost use Rattle.shard_journal.specs.Settings.{settings_of};

use crate::entry::Entry;
use crate::finding::in_buffer;
use crate::moments::{clock, have_ended, item_moment};
use crate::noted::{Notes, Opening};
use crate::settings::Settings;
use crate::spans::{is_span_of, spans_since};
use crate::verdicts::is_too_big;
use otlp_types::{Arrival, Item};
use span_ids::Moment;
use std::alloc::{AllocError, Global};

/// The episodes that are due at the item just taken, by the notes after it, in order of opening: `past` is `before` and
/// that entry.
pub fn due_at(
    alloc: Global,
    settings: &Settings,
    past: &[Entry],
    entry: &Entry,
    before: &[Entry],
    noted: &Notes,
) -> Result<Vec<Opening>, AllocError>
    requires { reverse past.now ≡ entry.now ∷ reverse before.now }
    ensures { IfOk result (λ due. due.items ≡ due_at (settings_of settings.now) entry.now (reverse before.now) entry.now.item noted.now) }
{
    match &entry.item {
        Item::Span(_) => oversized(alloc, settings, past, noted),
        Item::Tick(_) => due_at_tick(alloc, settings, past, noted),
        Item::End(_) => {
            if have_ended(past, settings.senders) && !have_ended(before, settings.senders) {
                undecided(alloc, settings, noted)
            } else {
                oversized(alloc, settings, past, noted)
            }
        }
    }
}

/// The undecided episodes in the buffer, in order of opening.
#[tactic(auto, using(crate::proofs::Filtering::reverse_filter_more))]
pub fn undecided(
    alloc: Global,
    settings: &Settings,
    noted: &Notes,
) -> Result<Vec<Opening>, AllocError>
    ensures { IfOk result (λ waiting. waiting.items ≡ undecided (settings_of settings.now) noted.now) }
{
    let mut waiting = Vec::new(alloc);
    let openings = in_buffer(settings, noted);
    for i in 0..openings.len() {
        let opening = openings[i];
        if noted.decided_as(opening.at()).is_none() {
            waiting.insert(0, opening)?;
        }
    }
    Ok(waiting)
}

/// Those of the undecided episodes that are due at a tick, the last of these items.
#[tactic(auto, using(crate::proofs::Filtering::filter_more))]
fn due_at_tick(
    alloc: Global,
    settings: &Settings,
    past: &[Entry],
    noted: &Notes,
) -> Result<Vec<Opening>, AllocError>
    ensures { IfOk result (λ due. due.items ≡ filter (is_due (settings_of settings.now) (reverse past.now)) (undecided (settings_of settings.now) noted.now)) }
{
    let waiting = undecided(alloc, settings, noted)?;
    let mut due = Vec::new(alloc);
    for i in 0..waiting.len() {
        let opening = waiting[i];
        if is_due(alloc, settings, past, &opening)? {
            due.push(opening)?;
        }
    }
    Ok(due)
}

/// Those of the undecided episodes that are too big, in order of opening.
#[tactic(auto, using(crate::proofs::Filtering::filter_more))]
fn oversized(
    alloc: Global,
    settings: &Settings,
    past: &[Entry],
    noted: &Notes,
) -> Result<Vec<Opening>, AllocError>
    ensures { IfOk result (λ due. due.items ≡ oversized (settings_of settings.now) (reverse past.now) noted.now) }
{
    let waiting = undecided(alloc, settings, noted)?;
    let mut due = Vec::new(alloc);
    for i in 0..waiting.len() {
        let opening = waiting[i];
        if is_oversized(alloc, settings, past, &opening)? {
            due.push(opening)?;
        }
    }
    Ok(due)
}

/// Whether an undecided episode is due at a tick, the last of these items: it opened long enough before, or root wait
/// is on and some root was taken long enough before, or it is too big.
fn is_due(
    alloc: Global,
    settings: &Settings,
    past: &[Entry],
    opening: &Opening,
) -> Result<bool, AllocError>
    ensures { IfOk result (λ due. due ≡ is_due (settings_of settings.now) (reverse past.now) opening.now) }
{
    let now = clock(past);
    if has_waited(settings.decision_wait, now, opening.moment())
        || 0 < settings.root_wait && is_root_past(settings.root_wait, now, past, opening)
    {
        return Ok(true);
    }
    is_oversized(alloc, settings, past, opening)
}

/// Whether the spans of the opening's episode have more bytes than a trace may have.
fn is_oversized(
    alloc: Global,
    settings: &Settings,
    past: &[Entry],
    opening: &Opening,
) -> Result<bool, AllocError>
    ensures { IfOk result (λ too_big. too_big ≡ is_oversized (settings_of settings.now) (reverse past.now) opening.now) }
{
    let spans = spans_since(alloc, past, opening)?;
    Ok(is_too_big(settings.maximum_trace_size, spans.as_slice()))
}

/// Whether some root among the spans of the opening's episode was taken at a clock that lies at least `root_wait`
/// milliseconds before `now`.
#[tactic(auto, using(crate::proofs::Newest::newest_more, crate::proofs::Newest::roots_more))]
fn is_root_past(root_wait: Moment, now: Moment, journal: &[Entry], opening: &Opening) -> bool
    ensures { result ≡ is_root_past root_wait now (reverse journal.now) opening.now }
{
    // Some such root, as the definition says it; a shard keeps the first one alone (D-071).
    let mut clock = 0;
    let mut found = false;
    for at in 0..journal.len() {
        let entry = &journal[at];
        clock = item_moment(&entry.item).max(clock);
        found = found || is_root_at(opening, at, entry) && has_waited(root_wait, now, clock);
    }
    found
}

/// Whether the item at this position is a root of the opening's episode.
fn is_root_at(opening: &Opening, at: usize, entry: &Entry) -> bool
    ensures { result ≡ list_any is_root (item_spans opening.now at entry.now.refused entry.now.item) }
{
    match &entry.item {
        Item::Span(arrival) => {
            is_span_of(opening, at, arrival) && !entry.refused && is_root(arrival)
        }
        Item::Tick(_) => false,
        Item::End(_) => false,
    }
}

/// Whether a span has no parent.
fn is_root(arrival: &Arrival) -> bool
    ensures { result ≡ is_root arrival.now }
{
    match arrival.rec.span.get().ids {
        None => false,
        Some(ids) => ids.parent.is_none(),
    }
}

/// Whether what came at a moment has waited for `decision_wait` at this clock.
fn has_waited(decision_wait: Moment, clock: Moment, moment: Moment) -> bool
    ensures { result ≡ nat_le (moment + decision_wait) clock }
{
    decision_wait <= clock && moment <= clock - decision_wait
}
