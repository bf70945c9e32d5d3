//! Places that lanes and shards reach, and what may hold them there.

/// Where a lane or a shard is.
#[derive(Clone, Copy, Debug, PartialEq, Eq)]
pub enum ThreadPlace {
    /// A lane has a new connection, and has read nothing of it.
    Connected {
        /// The lane.
        lane: u16,
        /// How many connections the lane had before this one.
        ordinal: u64,
    },
    /// A lane has served a connection to its end.
    Served {
        /// The lane.
        lane: u16,
        /// How many connections the lane had before this one.
        ordinal: u64,
    },
    /// A shard has taken an item, and has decided nothing since.
    Taken {
        /// The shard.
        shard: u16,
    },
}

/// What lanes and shards reach on their way. A test can hold them there, and so knows which of them ran at the same
/// time.
pub trait Barrier {
    /// A lane or a shard is at this place, and goes on when the call returns.
    fn reach(&self, _place: ThreadPlace) {}
}
