//! Lists of conditions by their texts, of which one suffices (the Collector contrib's `pkg/ottl`, `ConditionSequence`; the
//! tail sampling processor's policy `ottl_condition`): asked of a span, of its events, or of the spans of a trace and of
//! their events.
#![tactic(auto)]

mod checking;
mod condition;
mod conditions;
mod lists;

pub use checking::{ConditionFault, check};
pub use conditions::Conditions;
pub use lists::trace_meets;
