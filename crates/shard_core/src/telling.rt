//! What is told of the decisions of a shard, and of late spans.
ghost use Rattle.std.specs.Prelude.{◌≡◌, map};
ghost use Rattle.shard_core.specs.Telling.{cause_of, said_by, told_decision, told_evicted, verdict_of_late};

use crate::answer::{Decided, Decision, DueTrace, Taken};
use arrayvec::ArrayVec;
use decision_line::{DecidedTrace, DueCause, EvictedTrace, Said};
use policy_eval::{Answer, MOST_POLICIES};
use span_ids::{Moment, Reason, Verdict};
use trace_buffer::Episode;

/// Why an episode that is due is decided now.
pub(crate) fn cause_of(
    episode: &Episode,
    finished: bool,
    mark: Moment,
    decision_wait: Moment,
) -> DueCause
    ensures { result ≡ cause_of finished mark decision_wait episode.now }
{
    let is_too_big = episode.is_too_big();
    if is_too_big {
        DueCause::Size
    } else if finished {
        DueCause::Close
    } else if episode.moment() as u128 + decision_wait as u128 <= mark as u128 {
        DueCause::Wait
    } else {
        DueCause::RootWait
    }
}

/// What is told of a trace that was due, once it is decided: nothing where nothing was due.
pub fn told_decision(decision: &Decision, due: DueTrace) -> Option<DecidedTrace>
    ensures { result ≡ told_decision decision.now.decided decision.now.decider due }
{
    let verdict = match &decision.decided {
        Decided::Release(_) => Verdict::Sampled,
        Decided::Dropped(_) => Verdict::NotSampled,
        Decided::Nothing => return None,
    };
    Some(DecidedTrace {
        trace: due.trace,
        moment: due.moment,
        opened: due.opened,
        spans: due.spans,
        verdict,
        cause: due.cause,
        decider: decision.decider,
    })
}

/// What each policy said of a trace, in order, as far as they were asked.
pub fn told_answers(answers: &ArrayVec<Answer, MOST_POLICIES>) -> ArrayVec<Said, MOST_POLICIES>
    ensures { result.items ≡ map said_by answers.now.items }
{
    let mut said = ArrayVec::new();
    for answer in answers.as_slice() {
        said.push(said_by(*answer));
    }
    said
}

/// What a policy said, by its answer.
fn said_by(answer: Answer) -> Said
    ensures { result ≡ said_by answer }
{
    match answer {
        Answer::Sample => Said::Sampled,
        Answer::NotSample => Said::NotSampled,
        Answer::InvertedSample => Said::InvertedSampled,
        Answer::InvertedNotSample => Said::InvertedNotSampled,
        Answer::Dropped => Said::Dropped,
    }
}

/// What a late span met: the verdict by which it goes on or is counted, or nothing where the item was no late span.
pub fn verdict_of_late(taken: &Taken) -> Option<Verdict>
    ensures { result ≡ verdict_of_late taken.now }
{
    match taken {
        Taken::Late(_) => Some(Verdict::Sampled),
        Taken::Dropped(Reason::LateNotSampled) => Some(Verdict::NotSampled),
        _ => None,
    }
}

/// What is told, at this moment of the shard's clock, of a trace that left the full buffer undecided, if one did.
pub fn told_evicted(taken: &Taken, moment: Moment) -> Option<EvictedTrace>
    ensures { result ≡ told_evicted moment taken.now }
{
    match taken {
        Taken::Kept {
            evicted: Some(evicted),
            ..
        } if evicted.verdict.is_none() => Some(EvictedTrace {
            trace: evicted.trace,
            moment,
            spans: evicted.spans,
        }),
        _ => None,
    }
}
