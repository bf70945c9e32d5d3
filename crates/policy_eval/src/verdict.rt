//! The walk over a tree of policies that asks limiters on its way.
ghost use Rattle.std.specs.Prelude.{◌≡◌, ℕ, ◌+◌, ◌/◌, ◌<◌, ◌≤◌, Bool, true, length};
ghost use Rattle.policy_tree.specs.Tree.{nodes, limits, limiters};
ghost use Rattle.policy_eval.specs.Searches.{are_known};
ghost use Rattle.policy_tree.specs.Expressions.{expressions_of, expressions_in};
ghost use Rattle.policy_tree.specs.Meaning.{meaning, policy_meaning};
ghost use Rattle.policy_eval.specs.Meaning.{knows};
ghost use Rattle.policy_eval.specs.Given.{Evaluates, EvaluatesWithDecider, EvaluatesWithAnswers};
ghost use Rattle.policy_eval.specs.Amounts.{amount_of};
ghost use Rattle.policy_eval.specs.Walks.{Answers};

use crate::answer::{Answer, AnswersSeen};
use crate::decider::Firsts;
use crate::leaf::leaf_answer;
use crate::searches::Searches;
use arrayvec::ArrayVec;
use otlp_types::Arrival;
use policy_tree::{Limit, Policies, Policy, PolicyKind};
use rate_budget::Limiter;
use span_ids::{Moment, Verdict};
use span_size::size_of;

/// The verdict of the policies on the spans of a trace, at this moment in milliseconds. It takes no memory that can be
/// refused.
///
/// The limiter nodes are asked in the order of their numbers, each at most once, for the spans or for their bytes, in
/// the second of the moment. Of the parts of a policy no further one is asked behind an answer that ends them. The
/// searches know each expression of the policies (`searches_for`).
pub fn evaluate<L: Limiter>(
    policies: &Policies,
    spans: &[Arrival],
    now: Moment,
    limiter: &mut L,
    searches: &mut Searches,
) -> Verdict
    requires nodes { knows (L.has_node limiter.old) (limiters (meaning policies.now)) ≡ true }
    requires spans { 0 < length spans.now }
    requires expressions { are_known searches.old (expressions_in (meaning policies.now)) ≡ true }
    ensures evaluates { Evaluates L.asks (meaning policies.now) (now / 1000) spans.now result limiter.old limiter.new }
    ensures keeps { (m : ℕ) → L.has_node limiter.new m ≡ L.has_node limiter.old m }
    ensures same { searches.new ≡ searches.old }
{
    evaluate_with_decider(policies, spans, now, limiter, searches).0
}

/// The same, with the place of the policy that decides, from 0 on, if one does.
pub fn evaluate_with_decider<L: Limiter>(
    policies: &Policies,
    spans: &[Arrival],
    now: Moment,
    limiter: &mut L,
    searches: &mut Searches,
) -> (Verdict, Option<usize>)
    requires nodes { knows (L.has_node limiter.old) (limiters (meaning policies.now)) ≡ true }
    requires spans { 0 < length spans.now }
    requires expressions { are_known searches.old (expressions_in (meaning policies.now)) ≡ true }
    ensures evaluates { EvaluatesWithDecider L.asks (meaning policies.now) (now / 1000) spans.now result.0 result.1 limiter.old limiter.new }
    ensures keeps { (m : ℕ) → L.has_node limiter.new m ≡ L.has_node limiter.old m }
    ensures same { searches.new ≡ searches.old }
{
    let Evaluation {
        verdict,
        decider,
        answers: _,
    } = evaluate_with_answers(policies, spans, now, limiter, searches);
    (verdict, decider)
}

/// At most this many policies stand at the top.
pub const MOST_POLICIES: usize = 64;

/// What policies make of the spans of a trace.
#[derive(Drop)]
pub struct Evaluation {
    pub verdict: Verdict,
    /// The place of the policy that decides, from 0 on, if one does.
    pub decider: Option<usize>,
    /// What each policy answers, in order.
    pub answers: ArrayVec<Answer, MOST_POLICIES>,
}

/// The same, with what each policy answers. The policies are walked over once.
pub fn evaluate_with_answers<L: Limiter>(
    policies: &Policies,
    spans: &[Arrival],
    now: Moment,
    limiter: &mut L,
    searches: &mut Searches,
) -> Evaluation
    requires nodes { knows (L.has_node limiter.old) (limiters (meaning policies.now)) ≡ true }
    requires spans { 0 < length spans.now }
    requires expressions { are_known searches.old (expressions_in (meaning policies.now)) ≡ true }
    ensures evaluates { EvaluatesWithAnswers L.asks (meaning policies.now) (now / 1000) spans.now result.verdict result.decider result.answers.items limiter.old limiter.new }
    ensures keeps { (m : ℕ) → L.has_node limiter.new m ≡ L.has_node limiter.old m }
    ensures same { searches.new ≡ searches.old }
{
    let second = now / 1000;
    let mut next = 0;
    let mut seen = AnswersSeen::none();
    let mut firsts = Firsts::none();
    let mut answers = ArrayVec::new();
    let all = policies.as_slice();
    for place in 0..all.len() {
        let policy = &all[place];
        let given = answer(policy, next, spans, second, limiter, searches);
        seen = seen.with(given);
        firsts = firsts.with(given, place);
        answers.push(given);
        next += policy.count() as u16;
    }
    Evaluation {
        verdict: seen.verdict(),
        decider: firsts.decider(seen),
        answers,
    }
}

/// The answer of the policy with this number, in this second.
fn answer<L: Limiter>(
    policy: &Policy,
    node: u16,
    spans: &[Arrival],
    second: u64,
    limiter: &mut L,
    searches: &mut Searches,
) -> Answer
    requires numbers { node + nodes (policy_meaning policy.now) ≤ 64 }
    requires known { knows (L.has_node limiter.old) (limits (policy_meaning policy.now) node) ≡ true }
    requires spans { 0 < length spans.now }
    requires expressions { are_known searches.old (expressions_of (policy_meaning policy.now)) ≡ true }
    ensures answers { Answers L.asks (policy_meaning policy.now) node second spans.now result limiter.old limiter.new }
    ensures keeps { (m : ℕ) → L.has_node limiter.new m ≡ L.has_node limiter.old m }
    ensures same { searches.new ≡ searches.old }
{
    match &policy.kind {
        PolicyKind::Leaf(leaf) => leaf_answer(leaf, spans, searches),
        PolicyKind::Limiting(limit) => Answer::plain(limiter.ask(
            node,
            second,
            amount_of(*limit, spans),
        )),
        PolicyKind::Joined { join, policies } => {
            let mut next = node + 1;
            let mut seen = AnswersSeen::none();
            for part in policies.as_slice() {
                let given = answer(part, next, spans, second, limiter, searches);
                seen = seen.with(given);
                if given.ends(*join) {
                    return Answer::joined(*join, seen);
                }
                // Counted on over what isn't asked, too: a node's number is its place in the tree.
                next += part.count() as u16;
            }
            Answer::joined(*join, seen)
        }
    }
}

/// What a limiter with this limit is asked for: the number of the spans, or their bytes.
fn amount_of(limit: Limit, spans: &[Arrival]) -> u64
    requires { 0 < length spans.now }
    ensures amount { result ≡ amount_of limit spans.now }
    ensures some { 0 < result }
{
    // Bytes are those of the spans' canonical texts, as for a trace's maximum (D-062).
    match limit {
        Limit::Spans { .. } => spans.len() as u64,
        Limit::Bytes { .. } => size_of(spans),
    }
}
