//! What the threads leave is gathered.
ghost use Rattle.std.specs.Prelude.{◌≡◌, ◌+◌, ◌++◌, ◌∷◌, ◌≤◌, ◌||◌, [], map, vec_len, vec_capacity};
ghost use Rattle.std.specs.List.{list_any};
ghost use Rattle.lane_queue.specs.Grid.{ends_of};

use crate::lane_job::LaneLeft;
use crate::shard_job::ShardLeft;
use crate::shards::ShardEnds;
use drop_ledger::Report;
use lane_queue::{Room, Sender};
use otlp_types::Item;
use std::sync::Wait;

/// What the threads of a run counted.
#[derive(Drop)]
pub struct ThreadCounts {
    /// What each thread counted.
    pub counts: Vec<Report>,
    /// Whether some thread stopped counting, since a number of its own would have passed 2^64-1.
    pub is_full: bool,
}

impl ThreadCounts {
    /// Adds what a thread counted, and whether it stopped counting.
    pub fn add(&mut self, counts: Report, is_full: bool)
        requires { vec_len self.old.counts + 1 ≤ vec_capacity self.old.counts }
        ensures counts { self.new.counts.items ≡ self.old.counts.items ++ counts ∷ [] }
        ensures full { self.new.is_full ≡ (self.old.is_full || is_full) }
        ensures len { vec_len self.new.counts ≡ vec_len self.old.counts + 1 }
        ensures capacity { vec_capacity self.new.counts ≡ vec_capacity self.old.counts }
    {
        self.counts.push_reserved(counts);
        self.is_full = self.is_full || is_full;
    }
}

/// Gathers the ends at which the lanes pushed, and what they counted.
pub fn gather_lanes<C: Room>(
    lanes: Vec<LaneLeft<C>>,
    columns: &mut Vec<Vec<Sender<Item, C>>>,
    counted: &mut ThreadCounts,
)
    requires columns { vec_len columns.old + vec_len lanes ≤ vec_capacity columns.old }
    requires counts { vec_len counted.old.counts + vec_len lanes ≤ vec_capacity counted.old.counts }
    ensures columns { ends_of columns.new.items ≡ ends_of columns.old.items ++ map (λ lane. lane.senders.items) lanes.items }
    ensures columns_room { (vec_len columns.new ≡ vec_len columns.old + vec_len lanes) × (vec_capacity columns.new ≡ vec_capacity columns.old) }
    ensures counts { counted.new.counts.items ≡ counted.old.counts.items ++ map (λ lane. lane.counts) lanes.items }
    ensures counts_room { (vec_len counted.new.counts ≡ vec_len counted.old.counts + vec_len lanes) × (vec_capacity counted.new.counts ≡ vec_capacity counted.old.counts) }
    ensures full { counted.new.is_full ≡ (counted.old.is_full || list_any (λ lane. lane.is_full) lanes.items) }
{
    for lane in lanes {
        columns.push_reserved(lane.senders);
        counted.add(lane.counts, lane.is_full);
    }
}

/// Gathers the shards' seats and ends, and what they counted.
pub fn gather_shards<'s, C: Room, D: Room, R: Wait>(
    shards: Vec<ShardLeft<'s, C, D, R>>,
    ends: &mut ShardEnds<'s, C, D, R>,
    counted: &mut ThreadCounts,
)
    requires ends { (vec_len ends.old.seats + vec_len shards ≤ vec_capacity ends.old.seats) × (vec_len ends.old.receivers + vec_len shards ≤ vec_capacity ends.old.receivers) × (vec_len ends.old.exports + vec_len shards ≤ vec_capacity ends.old.exports) }
    requires counts { vec_len counted.old.counts + vec_len shards ≤ vec_capacity counted.old.counts }
    ensures seats { ends.new.seats.items ≡ ends.old.seats.items ++ map (λ shard. shard.seat) shards.entry.items }
    ensures receivers { ends.new.receivers.items ≡ ends.old.receivers.items ++ map (λ shard. shard.receiver) shards.entry.items }
    ensures exports { ends.new.exports.items ≡ ends.old.exports.items ++ map (λ shard. shard.sender) shards.entry.items }
    ensures counts { counted.new.counts.items ≡ counted.old.counts.items ++ map (λ shard. shard.counts) shards.entry.items }
    ensures counts_room { (vec_len counted.new.counts ≡ vec_len counted.old.counts + vec_len shards.entry) × (vec_capacity counted.new.counts ≡ vec_capacity counted.old.counts) }
    ensures full { counted.new.is_full ≡ (counted.old.is_full || list_any (λ shard. shard.is_full) shards.entry.items) }
{
    for shard in shards {
        ends.seats.push_reserved(shard.seat);
        ends.receivers.push_reserved(shard.receiver);
        ends.exports.push_reserved(shard.sender);
        counted.add(shard.counts, shard.is_full);
    }
}
