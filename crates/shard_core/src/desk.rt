//! What a shard's answers do: spans go on, and spans are counted. It stands once for all callers of a shard.
ghost use Rattle.std.specs.Prelude.{◌≡◌, ◌≢◌, ℕ, List, [], ◌∷◌, MatchBool, if◌then◌else◌};
ghost use Rattle.span_ids.specs.declared.outcome.Reason.{Reason as ReasonOf};
ghost use Rattle.otlp_types.specs.declared.arrival.Arrival.{Arrival as ArrivalOf};
ghost use Rattle.journal_theory.specs.Fate.{is_same_reason};
ghost use Rattle.shard_core.specs.Taking.{is_last, released_by, released_in, dropped_by, dropped_in};

use crate::answer::{Decided, Taken};
use otlp_types::Arrival;
use span_ids::Reason;

/// Where what a shard answers goes. A desk may need something lent to pass a span on: that of a thread waits by the
/// runtime, that of a script needs nothing (D-284).
pub trait Desk<Lent> {
    /// These spans went on, in order, and so many were counted under each reason.
    ghost takes: { Self → List ArrivalOf → (ReasonOf → ℕ) → Self → Type 0 };

    /// Passes a span on.
    fn ship(&mut self, lent: &Lent, span: Arrival)
        ensures { takes self.old (span ∷ []) (λ reason. 0) self.new };

    /// Passes spans on, in order.
    fn ship_all(&mut self, lent: &Lent, spans: Vec<Arrival>)
        ensures { takes self.old spans.items (λ reason. 0) self.new };

    /// Counts spans under a reason.
    fn count_dropped(&mut self, why: Reason, spans: u64)
        ensures { takes self.old [] (λ reason. if is_same_reason why reason then spans else 0) self.new };

    /// Where no span goes on and none is counted, all is as it was.
    ghost stays: { (s : Self) (dropped : ReasonOf → ℕ) → ((reason : ReasonOf) → dropped reason ≡ 0) → takes s [] dropped s };
}

/// Passes on or counts what the answer to an item says, and says whether it was the last item.
pub fn settle_taken<Lent, D: Desk<Lent>>(lent: &Lent, taken: Taken, desk: &mut D) -> bool
    ensures takes { D.takes desk.old (released_by taken) (λ reason. dropped_by reason taken) desk.new }
    ensures last { result ≡ is_last taken }
{
    match taken {
        Taken::Kept { evicted, cache: _ } => {
            if let Some(left) = evicted {
                desk.count_dropped(Reason::Evicted, left.spans);
            }
            false
        }
        Taken::Late(span) => {
            desk.ship(lent, span);
            false
        }
        Taken::Dropped(reason) => {
            desk.count_dropped(reason, 1);
            false
        }
        Taken::Ticked | Taken::Ended => false,
        Taken::Finished => true,
    }
}

/// Passes on or counts what a decision says, and says whether there was one.
pub fn settle_decided<Lent, D: Desk<Lent>>(lent: &Lent, decided: Decided, desk: &mut D) -> bool
    ensures takes { D.takes desk.old (released_in decided) (λ reason. dropped_in reason decided) desk.new }
    ensures some { MatchBool result (decided ≢ Decided.Nothing) ((decided ≡ Decided.Nothing) × (desk.new ≡ desk.old)) }
{
    match decided {
        Decided::Release(spans) => {
            desk.ship_all(lent, spans);
            true
        }
        Decided::Dropped(spans) => {
            desk.count_dropped(Reason::NotSampled, spans);
            true
        }
        Decided::Nothing => false,
    }
}
