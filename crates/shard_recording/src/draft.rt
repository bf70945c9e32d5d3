//! The entry that is being made.
ghost use Rattle.std.specs.Prelude.{◌≡◌, ℕ, [], ◌∷◌, ◌++◌, true, false, IfOk, IfErr, IsSomeAnd};
ghost use Rattle.policy_tree.specs.Tree.{limiters};
ghost use Rattle.policy_tree.specs.Meaning.{meaning};
ghost use Rattle.policy_eval.specs.Meaning.{knows};
ghost use Rattle.journal_entry.specs.Bytes.{bytes_of_entry};
ghost use Rattle.journal_entry.specs.Reading.{IsEntry};
ghost use Rattle.journal_entry.specs.ReadsBack.{IsShallow, ReadsBack};
ghost use Rattle.journal_theory.specs.Journal.{Entry as EntryOf, Journal, has_ids};
ghost use Rattle.shard_core.specs.Held.{StandsFor, has_due, is_finished, settings};
ghost use Rattle.shard_core.specs.Taking.{Decides, answer_to, entry, is_last};
ghost use Rattle.shard_restore.specs.Entries.{written};
ghost use Rattle.shard_restore.specs.Restoring.{IsSettled};
ghost use Rattle.shard_recording.specs.Drafts.{IsDraftOf, IsUnderWay, GoesOn};

use crate::noting::Noting;
use journal_entry::{entries_are_read, item_bytes, put_entry};
use otlp_types::{Item, List};
use rate_budget::Limiter;
use shard_core::{Decided, Shard, Taken};
use shard_restore::{is_loss, is_nothing, is_refusal};
use std::alloc::{AllocError, Global};

/// The entry of one item, made while a shard takes it and decides what is due at it.
#[derive(Drop)]
pub struct EntryDraft {
    /// The item's bytes.
    pub(crate) item: Vec<u8>,
    pub(crate) refused: bool,
    pub(crate) lost: bool,
    pub(crate) answers: List<List<bool>>,
    /// Memory was refused to no answer.
    pub(crate) is_whole: bool,
}

impl EntryDraft {
    /// Lets a shard take an item, as `Shard::take` says, and begins its entry. An `Err` hands the item back: memory was
    /// refused to its bytes, and the shard hasn't taken it.
    ///
    /// The entry is read again from its bytes if a span's request nests at most 127 deep as JSON.
    pub fn take(
        alloc: Global,
        shard: &mut Shard,
        item: Item,
        has_memory: bool,
    ) -> Result<(EntryDraft, Taken), Item>
        requires nothing_due { has_due shard.old ≡ false }
        requires running { is_finished shard.old ≡ false }
        requires ids { has_ids item ≡ true }

        // The shard stands for its journal and the entry, as far as it is made.
        ensures under_way { IfOk result (λ r. (past : Journal) (dealt : ℕ) → StandsFor shard.old past dealt → IsUnderWay shard.new r.0 (entry item r.1) past) }
        ensures back { IfOk result (λ _. IsShallow item → ReadsBack item) }
        ensures answer { IfOk result (λ r. (past : Journal) (dealt : ℕ) → StandsFor shard.old past dealt → r.1 ≡ answer_to (settings shard.old) (entry item r.1) past) }
        ensures finished { IfOk result (λ r. is_finished shard.new ≡ is_last r.1) }
        ensures settings { settings shard.new ≡ settings shard.old }
        ensures policies { shard.new.policies ≡ shard.old.policies }

        ensures err { IfErr result (λ it. (it ≡ item) × (shard.new ≡ shard.old)) }
    {
        let Ok(bytes) = item_bytes(alloc, &item) else {
            return Err(item);
        };
        let taken = shard.take(item, has_memory);
        let draft = EntryDraft {
            item: bytes,
            refused: is_refusal(&taken),
            lost: is_loss(&taken),
            answers: List::new(alloc),
            is_whole: true,
        };
        Ok((draft, taken))
    }

    /// Lets the shard decide the trace that is due, as `Shard::decide` says, and notes what the limiter answered.
    ///
    /// `Nothing` says that the entry is made: the shard stands for its journal and this entry.
    pub fn decide<L: Limiter>(
        &mut self,
        alloc: Global,
        shard: &mut Shard,
        limiter: &mut Noting<L>,
    ) -> Decided
        requires nodes { knows (L.has_node limiter.old.inner) (limiters (meaning shard.old.policies)) ≡ true }
        ensures goes_on { (e : EntryOf) (past : Journal) → IsUnderWay shard.old self.old e past → GoesOn result shard.new self.new e past }
        ensures settled { (e : EntryOf) (past : Journal) → IsUnderWay shard.old self.old e past → result ≡ Decided.Nothing → IsSettled shard.new (e ∷ past) }
        ensures none_due { result ≡ Decided.Nothing → has_due shard.new ≡ false }
        ensures decides { Decides L.asks shard.old shard.new result limiter.old.inner limiter.new.inner }
        ensures keeps { (node : ℕ) → L.has_node limiter.new.inner node ≡ L.has_node limiter.old.inner node }
        ensures finished { is_finished shard.new ≡ is_finished shard.old }
        ensures settings { settings shard.new ≡ settings shard.old }
        ensures policies { shard.new.policies ≡ shard.old.policies }
    {
        let _ = limiter.noted(alloc);
        let decided = shard.decide(limiter);
        if is_nothing(&decided) {
            return decided;
        }
        let answers = limiter.noted(alloc);
        self.note(answers);
        decided
    }

    /// Notes the answers to one more decision, if all are there.
    fn note(&mut self, answers: Option<List<bool>>)
        ensures same { (self.new.item ≡ self.old.item) × (self.new.refused ≡ self.old.refused) × (self.new.lost ≡ self.old.lost) }
        ensures noted { self.new.is_whole ≡ true → (self.old.is_whole ≡ true) × IsSomeAnd answers (λ a. self.new.answers ≡ self.old.answers ++ a ∷ []) }
    {
        let Some(answers) = answers else {
            self.is_whole = false;
            return;
        };
        if self.answers.push(answers).is_err() {
            self.is_whole = false;
        }
    }

    /// The record of the entry. `Err` where memory was refused, to it or to an answer of the limiter.
    pub fn into_record(self, alloc: Global) -> Result<Vec<u8>, AllocError>
        ensures bytes { IfOk result (λ out. (e : EntryOf) → IsDraftOf self e → out.items ≡ bytes_of_entry (written e)) }
        ensures entry { IfOk result (λ out. (e : EntryOf) → IsDraftOf self e → ReadsBack e.item → IsEntry out.items (written e)) }
    {
        entries_are_read();
        if !self.is_whole {
            return Err(AllocError);
        }
        let mut out = Vec::new(alloc);
        put_entry(
            &mut out,
            &self.item,
            self.refused,
            self.lost,
            self.answers.as_slice(),
        )?;
        Ok(out)
    }
}
