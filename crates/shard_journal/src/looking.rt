//! What looking back over a journal finds, kept so that questions about it take no memory that can be refused.
ghost use Rattle.std.specs.Prelude.{◌≡◌, true, reverse, is_some, IfOk};
ghost use Rattle.policy_eval.specs.Searches.{are_known};
ghost use Rattle.policy_tree.specs.Expressions.{expressions_in};
ghost use Rattle.policy_tree.specs.Meaning.{meaning};
ghost use Rattle.journal_theory.specs.Journal.{Journal};
ghost use Rattle.journal_theory.specs.Marked.{marks_apply_to_ids};
ghost use Rattle.shard_journal.specs.Settings.{settings_of};
ghost use Rattle.shard_journal.specs.Look.{look_of};
ghost use Rattle.journal_theory.specs.Answered.{effect_answered_at};

use crate::answers::{due_now, marks_apply_to, spans_of_each};
use crate::entry::Entry;
use crate::finding::finding;
use crate::noted::Notes;
use crate::noting::notes_of;
use crate::settings::Settings;
use crate::verdicts::judge_spans;
use otlp_types::{Arrival, Ids, List};
use policy_eval::Searches;
use std::alloc::{AllocError, Global};
use std::marker::Model;

/// What looking back over a journal found: how many episodes are due at its last item, the spans of each, and what is
/// noted of it.
#[derive(Drop)]
pub struct LookBack {
    due: usize,
    spans: Vec<List<Arrival>>,
    noted: Notes,
}

impl Model for LookBack {
    ghost use Rattle.shard_journal.specs.Look.{Look};
    ghost use Rattle.std.specs.Coded.{codes};
    ghost use Rattle.otlp_types.specs.contracts.value.AnyValue as any_value;

    ghost Value = { Look };

    ghost coded = { Prim.hlevel (codes, any_value.the_row.coded) };

    ghost view = { λ l. record { due = l.due; spans = l.spans.items; noted = l.noted } };
}

impl LookBack {
    /// Looks back over a journal.
    pub fn new(
        alloc: Global,
        settings: &Settings,
        journal: &[Entry],
    ) -> Result<LookBack, AllocError>
        ensures { IfOk result (λ look. look ≡ look_of (settings_of settings.now) (reverse journal.now)) }
    {
        // Kept, so that whether a step is enabled takes no memory that can be refused (D-100).
        let due = due_now(alloc, settings, journal)?;
        let spans = spans_of_each(alloc, journal, due.as_slice())?;
        let noted = notes_of(alloc, settings, journal)?;
        Ok(LookBack {
            due: due.len(),
            spans,
            noted,
        })
    }

    /// How many episodes are due at the journal's last item.
    pub fn due(&self) -> usize
        ensures { result ≡ self.now.due }
    {
        self.due
    }

    /// Whether an episode is due at this place, of those due at the journal's last item in order of opening, and its
    /// decision has as many askings as there are answers. The searches know each expression of the policies.
    pub fn is_answered(
        &self,
        settings: &Settings,
        place: usize,
        answers: &[bool],
        searches: &mut Searches,
    ) -> bool
        requires known { are_known searches.old (expressions_in (meaning settings.now.policies)) ≡ true }
        ensures answered { (past : Journal) → self.now ≡ look_of (settings_of settings.now) past → result ≡ is_some (effect_answered_at (settings_of settings.now) past place answers.now) }
        ensures same { searches.new ≡ searches.old }
    {
        if place < self.spans.len() {
            let spans = self.spans[place].as_slice();
            judge_spans(settings, spans, answers, searches).is_some()
        } else {
            false
        }
    }

    /// Whether these marks can apply to a span with these ids that is taken after the journal: memory is refused at
    /// most to an append or an opening, and lost at most by the put of a decision that an opening evicts.
    pub fn marks_apply(
        &self,
        settings: &Settings,
        refused: bool,
        lost: bool,
        ids: Option<Ids>,
    ) -> bool
        ensures { (past : Journal) → self.now ≡ look_of (settings_of settings.now) past → result ≡ marks_apply_to_ids (settings_of settings.now) past refused lost ids }
    {
        let Some(ids) = ids else {
            return false;
        };
        let found = finding(settings, &self.noted, ids.trace);
        marks_apply_to(settings, &self.noted, refused, lost, found)
    }
}
