//! The words of the texts.
ghost use Rattle.std.specs.Prelude.{◌≡◌};
ghost use Rattle.decision_json.specs.Value.{answer_word, because_word, ended_word, kept_word};

use decision_line::{DueCause, Said};
use span_ids::Verdict;

/// The verdict.
pub fn kept_word(verdict: Verdict) -> &'static str
    ensures { result.now ≡ kept_word verdict }
{
    match verdict {
        Verdict::Sampled => "kept",
        Verdict::NotSampled => "not_kept",
    }
}

/// What the verdict rests on.
pub fn because_word(decider: Option<usize>, cause: DueCause) -> &'static str
    ensures { result.now ≡ because_word decider cause }
{
    match (decider, cause) {
        (Some(_), _) => "policy",
        (None, DueCause::Size) => "too_big",
        (None, _) => "none_agreed",
    }
}

/// What ended the wait.
pub fn ended_word(cause: DueCause) -> &'static str
    ensures { result.now ≡ ended_word cause }
{
    match cause {
        DueCause::Wait => "wait",
        DueCause::RootWait => "root",
        DueCause::Size => "size",
        DueCause::Close => "close",
    }
}

/// What a policy said.
pub fn answer_word(said: Said) -> &'static str
    ensures { result.now ≡ answer_word said }
{
    match said {
        Said::Sampled => "sample",
        Said::NotSampled => "not_sample",
        Said::InvertedSampled => "inverted_sample",
        Said::InvertedNotSampled => "inverted_not_sample",
        Said::Dropped => "drop",
        Said::NotAsked => "not_asked",
    }
}
