//! The clock and the ends of a journal.
ghost use Rattle.std.specs.Prelude.{◌≡◌, reverse};
ghost use Rattle.journal_theory.specs.Journal.{clock, item_moment, has_ended, have_ended, is_end_of};

use crate::entry::Entry;
use otlp_types::Item;
use span_ids::Moment;

/// The greatest moment of the spans and ticks, in milliseconds: 0 where there is none.
#[tactic(auto, using(crate::proofs::Newest::newest_more))]
pub fn clock(journal: &[Entry]) -> Moment
    ensures { result ≡ clock (reverse journal.now) }
{
    let mut greatest = 0;
    for entry in journal {
        greatest = item_moment(&entry.item).max(greatest);
    }
    greatest
}

/// The moment of a span or a tick, in milliseconds: 0 for an End.
pub fn item_moment(item: &Item) -> Moment
    ensures { result ≡ item_moment item.now }
{
    match item {
        Item::Span(arrival) => arrival.moment,
        Item::Tick(moment) => *moment,
        Item::End(_) => 0,
    }
}

/// Whether the sender of this number has ended.
#[tactic(auto, using(crate::proofs::Newest::newest_more))]
pub fn has_ended(journal: &[Entry], sender: usize) -> bool
    ensures { result ≡ has_ended (reverse journal.now) sender }
{
    let mut ended = false;
    for entry in journal {
        ended = is_end_of(sender, &entry.item) || ended;
    }
    ended
}

fn is_end_of(sender: usize, item: &Item) -> bool
    ensures { result ≡ is_end_of sender item.now }
{
    match item {
        Item::Span(_) => false,
        Item::Tick(_) => false,
        Item::End(number) => *number as usize == sender,
    }
}

/// Whether each sender below `senders` has ended.
#[tactic(auto, using(crate::proofs::Newest::have_ended_more))]
pub fn have_ended(journal: &[Entry], senders: usize) -> bool
    ensures { result ≡ have_ended (reverse journal.now) senders }
{
    let mut all = true;
    for sender in 0..senders {
        all = has_ended(journal, sender) && all;
    }
    all
}
