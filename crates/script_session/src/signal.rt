//! What all shards are told alike.
ghost use Rattle.std.specs.Prelude.{◌≡◌, true};
ghost use Rattle.journal_theory.specs.Journal.{has_ids};
ghost use Rattle.script_session.specs.Signals.{item_of};

use otlp_types::Item;
use span_ids::Moment;

/// What every shard is told.
#[derive(Clone, Copy, PartialEq, Eq)]
pub enum Signal {
    /// A moment of the ticker.
    Tick(Moment),
    /// A sender has ended.
    End(u16),
}

impl Signal {
    /// The item by which a shard is told.
    pub fn item(self) -> Item
        ensures item { result ≡ item_of self }
        ensures ids { has_ids result ≡ true }
    {
        match self {
            Signal::Tick(moment) => Item::Tick(moment),
            Signal::End(sender) => Item::End(sender),
        }
    }
}
