//! The laws of pushes and of replies.
ghost use Rattle.lane_seq.specs.Counting.{FullQueuesAreCounted};
ghost use Rattle.lane_seq.specs.Lists.{ListPushesAreDetermined};

/// What the pushes of a request do to queues in one thread is determined: a span is refused exactly where its queue
/// holds its capacity, and else stands last in it.
#[tactic(auto, using(crate::proofs::ListPushes::list_pushes_are_determined))]
pub fn list_pushes_are_determined()
    ensures { ListPushesAreDetermined }
{}

/// What the reply to a request adds to the spans that found their queue full is how many of its spans did: none where
/// the lane's ports wait for room ([`crate::Lane::submit`]).
#[tactic(auto, using(crate::proofs::Refusals::full_queues_are_counted))]
pub fn full_queues_are_counted()
    ensures { FullQueuesAreCounted }
{}
