//! The verdict of policies on the spans of a trace (tailsamplingprocessor README, "Policies").
//!
//! An answer of the limiter is an input of the verdict's definition: whichever limiter it is, the verdict is that of
//! the policies where it grants so, and it is asked just what they ask.
//!
//! ```
//! let mut searches = searches_for(alloc, &policies)?;
//! let verdict = evaluate(&policies, episode.spans(), now, &mut limiter, &mut searches);
//! ```
#![tactic(auto)]

mod answer;
mod answer_list;
mod attribute;
mod decider;
mod latency;
mod laws;
mod leaf;
mod probabilistic;
mod searches;
mod searching;
mod trace_state;
mod verdict;

pub use answer::Answer;
pub use answer_list::{judge, verdict_given};
pub use laws::{answers_are_by_the_node, asked_nodes_rise, decisions_keep_the_counts};
pub use searches::Searches;
pub use searching::searches_for;
pub use verdict::{
    Evaluation, MOST_POLICIES, evaluate, evaluate_with_answers, evaluate_with_decider,
};
