//! The answers of policies that have no parts and ask no limiter.
ghost use Rattle.std.specs.Prelude.{◌≡◌, true};
ghost use Rattle.policy_eval.specs.Searches.{are_known};
ghost use Rattle.policy_tree.specs.Expressions.{expressions_of_leaf};
ghost use Rattle.policy_eval.specs.Policies.{has_status, has_state, is_flagged, leaf_answer};
ghost use Rattle.policy_eval.specs.Meaning.{answer_of};

use crate::answer::Answer;
use crate::attribute::matches;
use crate::latency::{is_slow, is_within};
use crate::probabilistic::is_chosen;
use crate::searches::Searches;
use crate::trace_state::has_member;
use otlp_types::{Arrival, Text};
use policy_tree::Leaf;

/// What such a policy answers for the spans of a trace.
pub fn leaf_answer(leaf: &Leaf, spans: &[Arrival], searches: &mut Searches) -> Answer
    requires known { are_known searches.old (expressions_of_leaf leaf.now) ≡ true }
    ensures answer { result ≡ answer_of (leaf_answer leaf.now spans.now) }
    ensures same { searches.new ≡ searches.old }
{
    match leaf {
        Leaf::AlwaysSample => Answer::Sample,
        Leaf::Latency {
            threshold_ms,
            upper_threshold_ms,
        } => Answer::plain(is_slow(*threshold_ms, *upper_threshold_ms, spans)),
        Leaf::StatusCode { codes } => Answer::plain(has_status(codes.as_slice(), spans)),
        Leaf::Attribute {
            key,
            wanted,
            invert_match,
        } => Answer::of_match(
            matches(key.as_str(), wanted, spans, searches),
            *invert_match,
        ),
        Leaf::SpanCount {
            min_spans,
            max_spans,
        } => Answer::plain(is_within(*min_spans, *max_spans, spans.len() as u64)),
        Leaf::Probabilistic {
            hash_salt,
            ten_thousandths,
        } => Answer::plain(is_chosen(hash_salt.as_str(), *ten_thousandths, spans)),
        Leaf::TraceState { key, values } => {
            Answer::plain(has_state(key.as_str(), values.as_slice(), spans))
        }
        Leaf::OttlCondition {
            error_mode,
            on_span,
            on_event,
        } => Answer::plain(searches.meets(*error_mode, on_span, on_event, spans)),
        Leaf::TraceFlags => Answer::plain(is_flagged(spans)),
    }
}

fn has_status(codes: &[i32], spans: &[Arrival]) -> bool
    ensures { result ≡ has_status codes.now spans.now }
{
    spans.iter().any(|arrival| codes.contains(&arrival.rec.span.get().status.code))
}

fn has_state(key: &str, values: &[Text], spans: &[Arrival]) -> bool
    ensures { result ≡ has_state key.now values.now spans.now }
{
    spans.iter().any(|arrival| has_member(key, values, arrival.rec.span.get().trace_state.as_str()))
}

fn is_flagged(spans: &[Arrival]) -> bool
    ensures { result ≡ is_flagged spans.now }
{
    spans
        .iter()
        .any(|arrival| arrival.rec.span.get().flags % 2 == 1)
}
