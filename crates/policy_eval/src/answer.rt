//! What a policy answers, and the verdict of all answers (tailsamplingprocessor README, "Policies").
ghost use Rattle.std.specs.Prelude.{◌≡◌, if◌then◌else◌};
ghost use Rattle.policy_eval.specs.Policies.{plain, inverted, verdict_answer};
ghost use Rattle.policy_eval.specs.Meaning.{answer_of, is_for, is_end, none_seen, seen_with, each_is_for, some_is_for, joined_seen, verdict_of_seen};

use policy_tree::Join;
use span_ids::Verdict;

/// What a policy answers for the spans of a trace.
#[derive(Clone, Copy, PartialEq, Eq)]
pub enum Answer {
    /// The trace is sampled.
    Sample,
    /// The policy doesn't hold.
    NotSample,
    /// An inverted match doesn't match.
    InvertedSample,
    /// An inverted match matches.
    InvertedNotSample,
    /// The trace is dropped, whatever any other policy answers.
    Dropped,
}

impl Default for Answer {
    fn default() -> Answer {
        Answer::NotSample
    }
}

impl Answer {
    /// The answer of a policy that isn't inverted.
    pub fn plain(holds: bool) -> Answer
        ensures { result ≡ answer_of (plain holds) }
    {
        if holds {
            Answer::Sample
        } else {
            Answer::NotSample
        }
    }

    /// The answer of a policy on attributes: with `invert_match` not to sample where it matches.
    pub fn of_match(holds: bool, invert_match: bool) -> Answer
        ensures { result ≡ answer_of (if invert_match then inverted holds else plain holds) }
    {
        if !invert_match {
            Answer::plain(holds)
        } else if holds {
            Answer::InvertedNotSample
        } else {
            Answer::InvertedSample
        }
    }

    /// The answer that is made of policies by the answers that they gave.
    pub fn joined(join: Join, seen: AnswersSeen) -> Answer
        ensures { result ≡ answer_of (joined_seen join seen) }
    {
        // A `Drop` that drops nothing keeps nothing either (D-034). A `Share` drops where its limiter refuses (D-036).
        match join {
            Join::And => Answer::plain(seen.each_is_for()),
            Join::Not => Answer::plain(!seen.each_is_for()),
            Join::Drop if seen.each_is_for() => Answer::Dropped,
            Join::Drop => Answer::NotSample,
            Join::FirstMatch => seen.verdict_answer(),
            Join::Share if seen.each_is_for() => Answer::Sample,
            Join::Share if seen.some_is_for() => Answer::Dropped,
            Join::Share => Answer::NotSample,
        }
    }

    /// Whether no further policy is asked behind this answer, where they are joined so.
    pub fn ends(self, join: Join) -> bool
        ensures { result ≡ is_end join self }
    {
        // An inverted sample doesn't end a first match, as in the processor (D-035).
        match join {
            Join::FirstMatch => matches!(self, Answer::Sample | Answer::Dropped),
            _ => !self.samples(),
        }
    }

    /// Whether it is an answer for the trace.
    pub fn samples(self) -> bool
        ensures { result ≡ is_for self }
    {
        match self {
            Answer::Sample | Answer::InvertedSample => true,
            Answer::NotSample | Answer::InvertedNotSample | Answer::Dropped => false,
        }
    }
}

/// Which answers the policies gave.
#[derive(Clone, Copy)]
pub struct AnswersSeen {
    pub sample: bool,
    pub not_sample: bool,
    pub inverted_sample: bool,
    pub inverted_not_sample: bool,
    pub dropped: bool,
}

impl AnswersSeen {
    /// No answer.
    pub fn none() -> AnswersSeen
        ensures { result ≡ none_seen }
    {
        AnswersSeen {
            sample: false,
            not_sample: false,
            inverted_sample: false,
            inverted_not_sample: false,
            dropped: false,
        }
    }

    /// These answers, and one more.
    pub fn with(self, answer: Answer) -> AnswersSeen
        ensures { result ≡ seen_with answer self }
    {
        let mut seen = self;
        match answer {
            Answer::Sample => seen.sample = true,
            Answer::NotSample => seen.not_sample = true,
            Answer::InvertedSample => seen.inverted_sample = true,
            Answer::InvertedNotSample => seen.inverted_not_sample = true,
            Answer::Dropped => seen.dropped = true,
        }
        seen
    }

    /// Whether each of these answers is for the trace.
    fn each_is_for(self) -> bool
        ensures { result ≡ each_is_for self }
    {
        !(self.not_sample || self.inverted_not_sample || self.dropped)
    }

    /// Whether one of these answers is for the trace.
    fn some_is_for(self) -> bool
        ensures { result ≡ some_is_for self }
    {
        self.sample || self.inverted_sample
    }

    /// The answer for a trace with the verdict by these answers.
    fn verdict_answer(self) -> Answer
        ensures { result ≡ answer_of (verdict_answer (verdict_of_seen self)) }
    {
        match self.verdict() {
            Verdict::Sampled => Answer::Sample,
            Verdict::NotSampled => Answer::NotSample,
        }
    }

    /// The verdict by these answers.
    pub fn verdict(self) -> Verdict
        ensures { result ≡ verdict_of_seen self }
    {
        if self.dropped || self.inverted_not_sample {
            Verdict::NotSampled
        } else if self.sample || self.inverted_sample && !self.not_sample {
            Verdict::Sampled
        } else {
            Verdict::NotSampled
        }
    }
}
