//! What holds of all policies.
ghost use Rattle.policy_tree.specs.Walk.{LimitersAreOfTheWalk};

/// The limiter nodes of policies are those that a walk meets, which takes a policy before its parts: node `k` is the
/// walk's `k`-th policy, counted from 0.
pub fn limiters_are_of_the_walk()
    ensures { LimitersAreOfTheWalk }
{}
