//! Which policy decides.
ghost use Rattle.std.specs.Prelude.{◌≡◌};
ghost use Rattle.policy_eval.specs.Meaning.{none_first, first_with, decider_of_seen};

use crate::answer::{Answer, AnswersSeen};

/// Where the policies gave each answer first on which a verdict may rest, by their places, from 0 on.
#[derive(Clone, Copy)]
pub struct Firsts {
    pub sample: Option<usize>,
    pub inverted_sample: Option<usize>,
    pub inverted_not_sample: Option<usize>,
    pub dropped: Option<usize>,
}

impl Firsts {
    /// No answer.
    pub fn none() -> Firsts
        ensures { result ≡ none_first }
    {
        Firsts {
            sample: None,
            inverted_sample: None,
            inverted_not_sample: None,
            dropped: None,
        }
    }

    /// These answers, and one more, of the policy at this place, behind all others.
    pub fn with(self, answer: Answer, place: usize) -> Firsts
        ensures { result ≡ first_with answer place self }
    {
        let mut firsts = self;
        // A not-sample that is one of many is no policy's doing, so its place isn't kept (D-040).
        match answer {
            Answer::Sample => firsts.sample = self.sample.or(Some(place)),
            Answer::NotSample => {}
            Answer::InvertedSample => {
                firsts.inverted_sample = self.inverted_sample.or(Some(place));
            }
            Answer::InvertedNotSample => {
                firsts.inverted_not_sample = self.inverted_not_sample.or(Some(place));
            }
            Answer::Dropped => firsts.dropped = self.dropped.or(Some(place)),
        }
        firsts
    }

    /// The place of the policy that decides, where these answers were given.
    pub fn decider(self, seen: AnswersSeen) -> Option<usize>
        ensures { result ≡ decider_of_seen seen self }
    {
        if seen.dropped {
            self.dropped
        } else if seen.inverted_not_sample {
            self.inverted_not_sample
        } else if seen.sample {
            self.sample
        } else if seen.inverted_sample && !seen.not_sample {
            self.inverted_sample
        } else {
            None
        }
    }
}
