//! The verdict by a list of answers.
ghost use Rattle.std.specs.Prelude.{◌≡◌, ℕ, ◌+◌, ◌≤◌, true, drop, length};
ghost use Rattle.policy_tree.specs.Tree.{nodes};
ghost use Rattle.policy_eval.specs.Searches.{are_known};
ghost use Rattle.policy_tree.specs.Expressions.{expressions_of, expressions_in};
ghost use Rattle.policy_tree.specs.Meaning.{meaning, policy_meaning};
ghost use Rattle.policy_eval.specs.Meaning.{answer_of};
ghost use Rattle.policy_eval.specs.Given.{answer_given, nodes_asked, verdict_given, asked_given};
ghost use Rattle.policy_eval.specs.Judged.{judged};

use crate::answer::{Answer, AnswersSeen};
use crate::leaf::leaf_answer;
use crate::searches::Searches;
use otlp_types::Arrival;
use policy_tree::{Policies, Policy, PolicyKind};
use span_ids::Verdict;

/// The verdict of the policies on the spans of a trace, where the askings of a limiter get these answers in turn. None
/// where their number isn't that of the askings. It takes no memory that can be refused.
pub fn judge(
    policies: &Policies,
    spans: &[Arrival],
    answers: &[bool],
    searches: &mut Searches,
) -> Option<Verdict>
    requires known { are_known searches.old (expressions_in (meaning policies.now)) ≡ true }
    ensures verdict { result ≡ judged (meaning policies.now) answers.now spans.now }
    ensures same { searches.new ≡ searches.old }
{
    let (verdict, asked) = verdict_and_askings(policies, spans, answers, searches);
    // With another number of answers there is no such decision (D-055).
    if asked == answers.len() {
        Some(verdict)
    } else {
        None
    }
}

/// The verdict of the policies on the spans of a trace, where the askings of a limiter get these answers in turn. A
/// missing answer is a refusal. It takes no memory that can be refused.
pub fn verdict_given(
    policies: &Policies,
    spans: &[Arrival],
    answers: &[bool],
    searches: &mut Searches,
) -> Verdict
    requires known { are_known searches.old (expressions_in (meaning policies.now)) ≡ true }
    ensures verdict { result ≡ verdict_given (meaning policies.now) answers.now spans.now }
    ensures same { searches.new ≡ searches.old }
{
    verdict_and_askings(policies, spans, answers, searches).0
}

/// The verdict, and the number of the askings.
fn verdict_and_askings(
    policies: &Policies,
    spans: &[Arrival],
    answers: &[bool],
    searches: &mut Searches,
) -> (Verdict, usize)
    requires known { are_known searches.old (expressions_in (meaning policies.now)) ≡ true }
    ensures verdict { result.0 ≡ verdict_given (meaning policies.now) answers.now spans.now }
    ensures askings { result.1 ≡ length (asked_given (meaning policies.now) answers.now spans.now) }
    ensures same { searches.new ≡ searches.old }
{
    let mut asked = 0;
    let mut seen = AnswersSeen::none();
    for policy in policies.as_slice() {
        let (given, next) = answer_given(policy, spans, answers, asked, searches);
        seen = seen.with(given);
        asked = next;
    }
    (seen.verdict(), asked)
}

/// The answer of the policy, where `asked` of the answers were given before, and how many there are with its own.
fn answer_given(
    policy: &Policy,
    spans: &[Arrival],
    answers: &[bool],
    asked: usize,
    searches: &mut Searches,
) -> (Answer, usize)
    requires within { asked + nodes (policy_meaning policy.now) ≤ 64 }
    requires known { are_known searches.old (expressions_of (policy_meaning policy.now)) ≡ true }
    ensures answer { result.0 ≡ answer_of (answer_given (policy_meaning policy.now) (drop asked answers.now) spans.now) }
    ensures asked { (node : ℕ) → result.1 ≡ asked + length (nodes_asked (policy_meaning policy.now) node (drop asked answers.now) spans.now) }
    ensures same { searches.new ≡ searches.old }
{
    match &policy.kind {
        PolicyKind::Leaf(leaf) => (leaf_answer(leaf, spans, searches), asked),
        PolicyKind::Limiting(_) => {
            let granted = answers.get(asked).copied().unwrap_or(false);
            (Answer::plain(granted), asked + 1)
        }
        PolicyKind::Joined { join, policies } => {
            let mut next = asked;
            let mut seen = AnswersSeen::none();
            for part in policies.as_slice() {
                let (given, behind) = answer_given(part, spans, answers, next, searches);
                next = behind;
                seen = seen.with(given);
                if given.ends(*join) {
                    return (Answer::joined(*join, seen), next);
                }
            }
            (Answer::joined(*join, seen), next)
        }
    }
}
