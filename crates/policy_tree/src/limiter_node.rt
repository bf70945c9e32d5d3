//! A policy that asks the limiter, by its number.
use crate::limit::Limit;

/// A policy of the kind `Limiting`, by its number among all policies.
///
/// The number is the policy's place in the walk over the list that takes a policy before its parts, from 0.
#[derive(Clone, Copy, PartialEq, Eq)]
pub struct LimiterNode {
    pub node: u16,
    pub limit: Limit,
}
