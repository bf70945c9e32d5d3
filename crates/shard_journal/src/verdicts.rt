//! The verdict on the spans of a trace, which isn't sampled where it is too big.
ghost use Rattle.std.specs.Prelude.{◌≡◌, true};
ghost use Rattle.policy_eval.specs.Searches.{are_known};
ghost use Rattle.policy_tree.specs.Expressions.{expressions_in};
ghost use Rattle.policy_tree.specs.Meaning.{meaning};
ghost use Rattle.policy_eval.specs.Given.{verdict_given};
ghost use Rattle.policy_eval.specs.Judged.{judged};
ghost use Rattle.trace_buffer.specs.Buffer.{is_too_big};
ghost use Rattle.journal_theory.specs.Journal.{policies_for};
ghost use Rattle.shard_journal.specs.Settings.{settings_of};

use crate::settings::Settings;
use otlp_types::Arrival;
use policy_eval::{Searches, judge, verdict_given};
use span_ids::Verdict;
use span_size::size_of;

/// The verdict on these spans, where the askings of a limiter get these answers in turn. `None` where their number
/// isn't that of the askings: there is none where the spans are too big. It takes no memory that can be refused.
pub fn judge_spans(
    settings: &Settings,
    spans: &[Arrival],
    answers: &[bool],
    searches: &mut Searches,
) -> Option<Verdict>
    requires known { are_known searches.old (expressions_in (meaning settings.now.policies)) ≡ true }
    ensures verdict { result ≡ judged (policies_for (settings_of settings.now) spans.now) answers.now spans.now }
    ensures same { searches.new ≡ searches.old }
{
    if !is_too_big(settings.maximum_trace_size, spans) {
        judge(&settings.policies, spans, answers, searches)
    } else if answers.is_empty() {
        Some(Verdict::NotSampled)
    } else {
        None
    }
}

/// The verdict on these spans, where the askings of a limiter get these answers in turn. A missing answer is a refusal.
pub fn verdict_on(
    settings: &Settings,
    spans: &[Arrival],
    answers: &[bool],
    searches: &mut Searches,
) -> Verdict
    requires known { are_known searches.old (expressions_in (meaning settings.now.policies)) ≡ true }
    ensures verdict { result ≡ verdict_given (policies_for (settings_of settings.now) spans.now) answers.now spans.now }
    ensures same { searches.new ≡ searches.old }
{
    if is_too_big(settings.maximum_trace_size, spans) {
        Verdict::NotSampled
    } else {
        verdict_given(&settings.policies, spans, answers, searches)
    }
}

/// Whether these spans have more bytes than the maximum, where there is one.
pub fn is_too_big(maximum: u64, spans: &[Arrival]) -> bool
    ensures { result ≡ is_too_big maximum spans.now }
{
    0 < maximum && maximum < size_of(spans)
}
