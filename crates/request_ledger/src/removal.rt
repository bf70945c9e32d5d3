//! When a segment may go, and whether there is room for more.
ghost use Rattle.std.specs.Prelude.{◌≡◌, ◌+◌, ◌*◌, ◌≤◌, ◌↔◌, IsTrue};
ghost use Rattle.request_ledger.specs.Removal.{EndsAt, is_none_or_past, is_past, is_settled, may_go};

use span_ids::Moment;

/// After so long a segment ends, in milliseconds.
const SEGMENT_TIME: u64 = 10_000;

/// With so many bytes a segment ends.
const SEGMENT_BYTES: u64 = 67_108_864;

/// What a shard has told.
#[derive(Clone, Copy, Debug, PartialEq, Eq)]
pub struct ShardStanding {
    /// The moment of the tick at which it told this.
    pub told: Moment,
    /// When the oldest trace that waits there was opened, if one waits.
    pub oldest: Option<Moment>,
}

/// Whether each shard is past a segment's last moment, by a margin in milliseconds: it has told after it, and each trace
/// that waits there was opened after it.
pub fn is_settled(last: Moment, margin: u64, shards: &[ShardStanding]) -> bool
    ensures { result ≡ is_settled last margin shards.now }
{
    let moment = u128::from(last) + u128::from(margin);
    shards.iter().all(|shard| is_past(moment, shard))
}

/// Whether this shard is past a moment.
fn is_past(moment: u128, shard: &ShardStanding) -> bool
    ensures { result ≡ is_past moment shard.now }
{
    u128::from(shard.told) > moment && is_none_or_past(moment, shard.oldest)
}

fn is_none_or_past(moment: u128, oldest: Option<Moment>) -> bool
    ensures { result ≡ is_none_or_past moment oldest }
{
    match oldest {
        Some(oldest) => u128::from(oldest) > moment,
        None => true,
    }
}

/// Whether there is room for more bytes beside those that are used, of so many MiB.
pub fn has_room(used: u64, more: u64, max_mib: u64) -> bool
    ensures { IsTrue result ↔ (used + more ≤ max_mib * 1048576) }
{
    u128::from(used) + u128::from(more) <= u128::from(max_mib) * 1_048_576
}

/// Whether a segment that began at a moment and has so many bytes ends now. One without a request goes on.
pub fn ends_at(began: Moment, now: Moment, bytes: u64) -> bool
    ensures { IsTrue result ↔ EndsAt began now bytes }
{
    let is_old = u128::from(began) + u128::from(SEGMENT_TIME) <= u128::from(now) && 0 < bytes;
    is_old || SEGMENT_BYTES <= bytes
}

/// Whether a segment may go: none of its spans waits in a shard, which was known while the segment of this number was written,
/// if it was; and whatever was released up to then was handed over or given up. The oldest span that is on its way was released
/// while the segment of that number was written, if one is on its way.
pub fn may_go(settled: Option<u64>, oldest: Option<u64>) -> bool
    ensures { result ≡ may_go settled oldest }
{
    match (settled, oldest) {
        (None, _) => false,
        (Some(_), None) => true,
        (Some(settled), Some(oldest)) => settled < oldest,
    }
}
