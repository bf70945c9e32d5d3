//! Each count through the trait, one that would pass the greatest number, and the sums of what several counted.
use drop_ledger::{Count, Counter, CounterOverflow, Report, Tally, numbers_are_sums, total};
use span_ids::Reason;

/// Adds by the trait.
fn add_to<C: Counter>(counter: &mut C, count: Count, n: u64) -> Result<(), CounterOverflow> {
    counter.add(count, n)
}

/// Whether the counts take 1 to 9 and then one of them up to the greatest number and none more, and the numbers behind
/// that.
fn added() -> (bool, [u64; 9]) {
    let mut report = Report::new();
    let mut fits = true;
    let mut n = 0u64;
    for count in &Count::ALL {
        n = n.wrapping_add(1);
        fits &= add_to(&mut report, *count, n) == Ok(());
    }
    fits &= report.add(Count::Handed, u64::MAX - 2) == Ok(());
    fits &= add_to(&mut report, Count::Handed, 1) == Err(CounterOverflow);
    (fits, report.numbers())
}

#[test]
fn each_count_by_itself(rt: HostRuntime) {
    assert_eq!(rt; added(), (true, [1, u64::MAX, 3, 4, 5, 6, 7, 8, 9]));
    numbers_are_sums();
}

/// What a lane or a shard counted, and whether it stopped: from a count on that would pass the greatest number nothing
/// more is counted.
fn counted(additions: &[(Count, u64)]) -> (Report, bool) {
    let mut tally = Tally::new(Report::new());
    for (count, n) in additions {
        tally.count(*count, *n);
    }
    let is_full = tally.is_full();
    (tally.end(), is_full)
}

/// A lane that took 8 spans.
const LANE: [(Count, u64); 3] = [
    (Count::Received, 8),
    (Count::Dropped(Reason::QueueFull), 1),
    (Count::Dropped(Reason::InvalidId), u64::MAX),
];

/// A shard, the fourth addition of which doesn't fit.
const SHARD: [(Count, u64); 5] = [
    (Count::Dropped(Reason::NotSampled), 4),
    (Count::Dropped(Reason::QueueFull), 2),
    (Count::Dropped(Reason::LateNotSampled), u64::MAX),
    (Count::Dropped(Reason::LateNotSampled), 1),
    (Count::Handed, 5),
];

/// The numbers of the sum of these reports, where each fits.
fn summed(reports: &[Report]) -> Option<[u64; 9]> {
    match total(reports) {
        Ok(report) => Some(report.numbers()),
        Err(_) => None,
    }
}

#[test]
fn several_are_summed(rt: HostRuntime) {
    let (lane, lane_is_full) = counted(&LANE);
    let (shard, shard_is_full) = counted(&SHARD);
    let sums = [summed(&[lane, shard]), summed(&[shard, lane, shard])];
    let wanted = [8, 0, u64::MAX, 3, 0, 0, 4, u64::MAX, 0];
    assert_eq!(rt; sums, [Some(wanted), None]);
    assert_eq!(rt;
        (lane_is_full, shard_is_full, summed(&[])),
        (false, true, Some([0; 9]))
    );
}
