//! A limiter whose answers are noted.
ghost use Rattle.std.specs.Prelude.{◌≡◌, ℕ, List, [], true, false, MatchOption};
ghost use Rattle.shard_recording.specs.Noting.{AsksNoting};

use otlp_types::List;
use rate_budget::Limiter;
use std::alloc::Global;
use std::mem;

/// Passes askings on to a limiter, and notes what it answered to the decision under way.
#[derive(Drop)]
pub struct Noting<L: Limiter> {
    pub(crate) inner: L,
    pub(crate) answers: List<bool>,
    /// Memory was refused to no answer since the last decision.
    pub(crate) is_whole: bool,
}

impl<L: Limiter> Noting<L> {
    /// A limiter of which nothing was noted yet.
    pub fn new(alloc: Global, inner: L) -> Noting<L>
        ensures { (result.inner ≡ inner) × (result.answers ≡ []) × (result.is_whole ≡ true) }
    {
        Noting {
            inner,
            answers: List::new(alloc),
            is_whole: true,
        }
    }

    /// The limiter.
    pub fn into_inner(self) -> L
        ensures { result ≡ self.inner }
    {
        let Noting {
            inner,
            answers: _,
            is_whole: _,
        } = self;
        inner
    }

    /// What was noted since this was called last: nothing where memory was refused to an answer.
    pub(crate) fn noted(&mut self, alloc: Global) -> Option<List<bool>>
        ensures noted { MatchOption result (self.old.is_whole ≡ false) (λ answers. (self.old.is_whole ≡ true) × (answers ≡ self.old.answers)) }
        ensures none_left { (self.new.answers ≡ []) × (self.new.is_whole ≡ true) }
        ensures inner { self.new.inner ≡ self.old.inner }
    {
        let answers = mem::replace(&mut self.answers, List::new(alloc));
        if self.is_whole {
            Some(answers)
        } else {
            self.is_whole = true;
            None
        }
    }
}

impl<L: Limiter> Limiter for Noting<L> {
    ghost has_node = { λ n node. L.has_node n.inner node };

    ghost asks = { AsksNoting L.asks };

    fn ask(&mut self, node: u16, second: u64, amount: u64) -> bool {
        let granted = self.inner.ask(node, second, amount);
        if self.answers.push(granted).is_err() {
            self.is_whole = false;
        }
        granted
    }

    ghost keeps = { λ s t node second amount answer m h. L.keeps s.inner t.inner node second amount answer m h.0 };
}
