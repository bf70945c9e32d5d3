//! Random items through a shard, beside the plain program that looks back over them.
ghost use Rattle.std.specs.Prelude.{◌≡◌, ◌<◌, IfOk, true};
ghost use Rattle.journal_theory.specs.Journal.{has_ids};

use crate::tests::limited_shard::{LimitedShard, Numbers};
use crate::tests::looking_back::{Entry, ITEMS, Kind, Past, TRACES, WAIT, is_root};
use crate::tests::telling::holds;
use decision_cache::Remembered;
use otlp_types::Item;
use plain_shards::{policy_on, span_item};
use plain_spans::plain_ids;
use shard_core::{Decided, Taken};
use span_ids::Reason;
use std::alloc::{AllocError, Global};
use std::process::Abort;
use std::test::Fail;

/// A further number that looks random (a linear congruential generator).
fn further(number: u64) -> u64 {
    number
        .wrapping_mul(6_364_136_223_846_793_005)
        .wrapping_add(1_442_695_040_888_963_407)
}

/// The entry of an item that was answered so.
fn entry_of(kind: Kind, moment: u64, taken: &Taken) -> Entry {
    Entry {
        kind,
        moment,
        refused: matches!(taken, Taken::Dropped(Reason::NoMemory)),
        lost: matches!(
            taken,
            Taken::Kept {
                cache: Some(Remembered::Lost),
                ..
            }
        ),
    }
}

/// The item of a kind. `AllocError` where there is no such trace, too.
fn item_of(alloc: Global, kind: Kind, moment: u64, place: u64) -> Result<Item, AllocError>
    ensures { IfOk result (λ item. has_ids item ≡ true) }
{
    match kind {
        Kind::Span(trace, error, _) => {
            let id = TRACES.get(trace).copied().unwrap_or("");
            let ids = plain_ids(id, is_root(place as usize)).ok_or(AllocError)?;
            let _span = ids.span; // (so that the borrow checker knows of its type)
            span_item(alloc, ids, place, moment, if error { 2 } else { 0 }, 0)
        }
        Kind::Tick => Ok(Item::Tick(moment)),
        Kind::End => Ok(Item::End(0)),
    }
}

/// Takes an item, and compares what is answered.
fn take(
    rt: &impl Abort,
    alloc: Global,
    shard: &mut LimitedShard,
    past: &Past<'_>,
    kind: Kind,
    moment: u64,
) -> Result<Entry, AllocError> {
    let item = item_of(alloc, kind, moment, past.entries.len() as u64)?;
    holds(rt, !shard.has_due() && !shard.finished(), &kind);
    let taken = shard.take(item);
    let is_right = match kind {
        Kind::Span(_, _, finding) => past.may_answer(finding, &taken),
        Kind::Tick => matches!(taken, Taken::Ticked),
        Kind::End => matches!(taken, Taken::Finished),
    };
    holds(rt, is_right, &(kind, moment));
    Ok(entry_of(kind, moment, &taken))
}

/// Decides all that is due, and compares what is answered.
fn decide(rt: &impl Abort, shard: &mut LimitedShard, past: &Past<'_>) {
    let mut start = 0;
    for _ in 0..ITEMS {
        let decided = shard.decide();
        let Some(opening) = past.decided_from(start) else {
            holds(rt, matches!(decided, Decided::Nothing), &start);
            return;
        };
        holds(rt, past.may_decide(opening, &decided), &opening);
        start = opening.saturating_add(1);
    }
}

/// The settings of a run: times in milliseconds, sizes in bytes and traces.
#[derive(Clone, Copy)]
struct Setting {
    seed: u64,
    root_wait: u64,
    maximum_trace_size: u64,
    num_traces: usize,
    sampled: usize,
    non_sampled: usize,
    ghost keeps_a_trace: { 0 < num_traces },
}

impl Setting {
    /// What was taken so far by a shard with these settings.
    fn past<'a>(&self, entries: &'a [Entry]) -> Past<'a> {
        Past {
            entries,
            root_wait: self.root_wait,
            maximum_trace_size: self.maximum_trace_size,
            num_traces: self.num_traces,
            sampled: self.sampled,
            non_sampled: self.non_sampled,
        }
    }

    /// A shard with these settings.
    fn shard(&self, alloc: Global) -> Result<LimitedShard, AllocError> {
        let policies = policy_on(alloc, Some(2))?;
        let numbers = Numbers {
            decision_wait: WAIT,
            root_wait: self.root_wait,
            maximum_trace_size: self.maximum_trace_size,
            num_traces: self.num_traces,
            sampled: self.sampled,
            non_sampled: self.non_sampled,
            senders: 1,
        };
        LimitedShard::new(alloc, policies, numbers)
    }
}

/// The kind of the next item, by a number that looks random.
fn kind_of(past: &Past<'_>, is_last: bool, random: u64) -> Kind {
    let trace = (random / 8 % 4) as usize;
    if is_last {
        Kind::End
    } else if random % 8 < 3 {
        Kind::Tick
    } else {
        Kind::Span(trace, random / 32 % 2 == 0, past.finding(trace))
    }
}

/// Runs random items through a shard with these settings.
fn run(rt: &impl Abort, alloc: Global, setting: Setting) -> Result<(), Fail> {
    let mut shard = setting.shard(alloc)?;
    let mut entries: Vec<Entry> = Vec::with_capacity(alloc, ITEMS)?;
    let mut number = setting.seed;
    for place in 0..ITEMS {
        number = further(number);
        let random = number >> 33;
        let past = setting.past(entries.as_slice());
        let kind = kind_of(&past, place + 1 == ITEMS, random);
        let moment = match kind {
            Kind::End => 0,
            _ => place as u64 * 2 + random / 64 % 5,
        };
        let entry = take(rt, alloc, &mut shard, &past, kind, moment)?;
        entries.push(entry)?;
        decide(rt, &mut shard, &setting.past(entries.as_slice()));
    }
    holds(rt, shard.finished(), &setting.seed);
    Ok(())
}

/// Runs with buffers of one to three traces and caches of none to two decisions.
fn runs(
    rt: &impl Abort,
    alloc: Global,
    maximum_trace_size: u64,
    root_wait: u64,
) -> Result<(), Fail> {
    for num_traces in 1..4 {
        for sizes in 0..9 {
            let setting = Setting {
                seed: (num_traces * 9 + sizes) as u64,
                root_wait,
                maximum_trace_size,
                num_traces,
                sampled: sizes / 3,
                non_sampled: sizes % 3,
            };
            run(rt, alloc, setting)?;
        }
    }
    Ok(())
}

#[test]
fn random_items(rt: HostRuntime) -> Result<(), Fail> {
    for root_wait in 0..3 {
        runs(&rt, rt.alloc(), 0, root_wait)?;
    }
    Ok(())
}

/// A span here has 74 to 128 bytes: the first maximum is the size of some alone, the second that of two of them.
#[test]
fn random_items_up_to_a_size(rt: HostRuntime) -> Result<(), Fail> {
    runs(&rt, rt.alloc(), 108, 1)?;
    runs(&rt, rt.alloc(), 216, 1)
}
