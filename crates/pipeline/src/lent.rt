//! What all threads of a run are lent.
use http_lane::Answers;
use lane_queue::Brake;
use std::alloc::Global;
use trace_hash::TraceHashing;

/// What all threads of a run are lent.
#[derive(Drop)]
pub struct ThreadContext<'s, Observer, Mark, Time, Runtime> {
    pub rt: &'s Runtime,
    pub alloc: Global,
    /// How every shard hashes trace ids.
    pub hashing: TraceHashing,
    pub observer: &'s Observer,
    pub brake: &'s Brake,
    pub stop: &'s Mark,
    pub clock: &'s Time,
    pub answers: &'s Answers,
}

/// What a run is lent by its caller.
#[derive(Drop)]
pub struct RunContext<'s, Observer, Mark, Time, Runtime> {
    /// What starts threads and lets them wait, and tells the time.
    pub rt: &'s Runtime,
    pub alloc: Global,
    /// Hears what lanes and shards reach, and what they count.
    pub observer: &'s Observer,
    /// What tells lanes and shards that no more is to be taken for now.
    pub brake: &'s Brake,
    /// The mark that asks the run to end.
    pub stop: &'s Mark,
    /// The moments of requests.
    pub clock: &'s Time,
    /// How many requests were answered with each status.
    pub answers: &'s Answers,
}
