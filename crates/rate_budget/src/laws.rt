//! What holds of every limiter with one count for each node.
ghost use Rattle.rate_budget.specs.Budget.{OthersStay, BucketFills};

/// An asking of a [`crate::Budgets`] changes no answer at another node.
pub fn other_nodes_stay()
    ensures { OthersStay }
{}

/// A bucket of bytes fills with the seconds, up to its burst.
pub fn bucket_fills()
    ensures { BucketFills }
{}
