//! An entry is taken and decided again.
ghost use Rattle.std.specs.Prelude.{◌≡◌, ℕ, ◌+◌, [], ◌∷◌, true, false, OnOk, IfOk};
ghost use Rattle.journal_theory.specs.Journal.{Entry as EntryOf, Journal, answered, has_ids};
ghost use Rattle.shard_core.specs.Held.{StandsFor, has_due, is_finished, settings};
ghost use Rattle.shard_core.specs.Taking.{is_refusal, is_loss};
ghost use Rattle.shard_restore.specs.Entries.{entry_of};
ghost use Rattle.shard_restore.specs.Asking.{is_nothing};
ghost use Rattle.shard_restore.specs.Restoring.{IsSettled, answered_by};

use crate::error::RestoreError;
use crate::given::Given;
use decision_cache::Remembered;
use journal_entry::JournalEntry;
use otlp_types::{Item, List};
use shard_core::{Decided, Shard, Taken};
use span_ids::Reason;
use std::alloc::{AllocError, Global};

/// Takes an entry's item again, and decides again what was decided at it, by the answers that were recorded.
///
/// What the shard hands over at it was handed over when the entry was recorded.
pub(crate) fn take_entry(
    alloc: Global,
    shard: &mut Shard,
    entry: JournalEntry,
) -> Result<(), RestoreError>
    requires { has_due shard.old ≡ false }
    ensures settled { OnOk result ((past : Journal) (dealt : ℕ) → StandsFor shard.old past dealt → IsSettled shard.new (entry_of entry ∷ past)) }
    ensures none_due { OnOk result (has_due shard.new ≡ false) }
    ensures settings { settings shard.new ≡ settings shard.old }
{
    let JournalEntry {
        item,
        refused,
        lost,
        answers,
    } = entry;
    if shard.finished() || !has_ids(&item) {
        return Err(RestoreError::Unfit);
    }
    take_again(shard, item, refused, lost)?;
    decide_again(alloc, shard, answers.as_slice())
}

/// Whether a shard may be handed the item: a span has valid ids.
fn has_ids(item: &Item) -> bool
    ensures { result ≡ has_ids item.now }
{
    match item {
        Item::Span(arrival) => arrival.rec.span.get().ids.is_some(),
        Item::Tick(_) | Item::End(_) => true,
    }
}

/// Takes an item, so that it has the marks that were recorded.
fn take_again(shard: &mut Shard, item: Item, refused: bool, lost: bool) -> Result<(), RestoreError>
    requires nothing_due { has_due shard.old ≡ false }
    requires running { is_finished shard.old ≡ false }
    requires ids { has_ids item ≡ true }
    ensures stands { OnOk result ((past : Journal) (dealt : ℕ) → StandsFor shard.old past dealt
        → StandsFor shard.new (record { item = item; refused = refused; lost = lost; answers = [] } ∷ past) 0) }
    ensures settings { settings shard.new ≡ settings shard.old }
{
    let taken = shard.take(item, !refused);
    fits_marks(is_refusal(&taken), is_loss(&taken), refused, lost)
}

/// Whether these marks of an answer are those that were recorded.
fn fits_marks(
    is_refused: bool,
    is_lost: bool,
    refused: bool,
    lost: bool,
) -> Result<(), RestoreError>
    ensures { OnOk result ((is_refused ≡ refused) × (is_lost ≡ lost)) }
{
    if is_refused == refused && is_lost == lost {
        return Ok(());
    }
    if refused && !is_refused {
        // A late span, to which no memory can be refused.
        return Err(RestoreError::Unfit);
    }
    if lost && !is_lost {
        return Err(RestoreError::Lost);
    }
    Err(RestoreError::NoMemory)
}

/// Whether memory was refused to the span: the mark of its entry.
pub fn is_refusal(taken: &Taken) -> bool
    ensures { result ≡ is_refusal taken.now }
{
    matches!(taken, Taken::Dropped(Reason::NoMemory))
}

/// Whether memory was refused to the decision of the trace that left: the mark of the entry.
pub fn is_loss(taken: &Taken) -> bool
    ensures { result ≡ is_loss taken.now }
{
    match taken {
        Taken::Kept { evicted: _, cache } => matches!(cache, Some(Remembered::Lost)),
        _ => false,
    }
}

/// Decides what is due, just as often as answers were recorded, each time by the next of them.
fn decide_again(
    alloc: Global,
    shard: &mut Shard,
    answers: &[List<bool>],
) -> Result<(), RestoreError>
    ensures settled { OnOk result ((e : EntryOf) (past : Journal) → e.answers ≡ [] → StandsFor shard.old (e ∷ past) 0 → IsSettled shard.new (answered_by e answers.now ∷ past)) }
    ensures none_due { OnOk result (has_due shard.new ≡ false) }
    ensures settings { settings shard.new ≡ settings shard.old }
{
    for i in 0..answers.len() {
        decide_by(alloc, shard, answers[i].as_slice())?;
    }
    settle(alloc, shard)
}

/// Decides the trace that is due by these answers: there has to be one, and it has to ask for just these.
fn decide_by(alloc: Global, shard: &mut Shard, answers: &[bool]) -> Result<(), RestoreError>
    ensures decided { OnOk result ((past : Journal) (dealt : ℕ) → StandsFor shard.old past dealt → StandsFor shard.new (answered past answers.now) (dealt + 1)) }
    ensures settings { settings shard.new ≡ settings shard.old }
{
    let Ok(answers) = copied(alloc, answers) else {
        return Err(RestoreError::NoMemory);
    };
    let mut given = Given::new(answers);
    let decided = shard.decide(&mut given);
    if is_nothing(&decided) {
        return Err(RestoreError::Unfit);
    }
    if given.is_spent() {
        Ok(())
    } else {
        Err(RestoreError::Unfit)
    }
}

/// A copy.
fn copied(alloc: Global, answers: &[bool]) -> Result<Vec<bool>, AllocError>
    ensures { IfOk result (λ copy. copy.items ≡ answers.now) }
{
    let mut copy = Vec::new(alloc);
    copy.extend_from_slice(answers)?;
    Ok(copy)
}

/// Sees to it that no trace is due any more.
fn settle(alloc: Global, shard: &mut Shard) -> Result<(), RestoreError>
    ensures settled { OnOk result ((past : Journal) (dealt : ℕ) → StandsFor shard.old past dealt → IsSettled shard.new past) }
    ensures none_due { OnOk result (has_due shard.new ≡ false) }
    ensures settings { settings shard.new ≡ settings shard.old }
{
    let mut given = Given::new(Vec::new(alloc));
    let decided = shard.decide(&mut given);
    if is_nothing(&decided) {
        Ok(())
    } else {
        Err(RestoreError::Unfit)
    }
}

/// Whether no trace was due.
pub fn is_nothing(decided: &Decided) -> bool
    ensures { result ≡ is_nothing decided.now }
{
    matches!(decided, Decided::Nothing)
}
