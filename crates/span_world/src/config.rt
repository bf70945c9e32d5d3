//! What the core is made with.
use shard_journal::Settings;

/// What a world is made with.
#[derive(Drop)]
pub struct CoreConfig {
    /// The settings of each shard; the senders are those of the world, whatever stands here.
    pub shard: Settings,
    /// The greatest number of spans in a batch.
    pub batch_size: usize,
}
