//! The members of the lines whose values are words, as they stand between two numbers or names.
ghost use Rattle.std.specs.Prelude.{◌≡◌, ◌++◌, codes};
ghost use Rattle.decision_line.specs.Line.{cause_word, said_word, verdict_word};

use crate::decision::{DueCause, Said};
use span_ids::Verdict;

/// The verdict, behind the moment.
pub fn verdict_member(verdict: Verdict) -> &'static str
    ensures { result.now ≡ codes ",\"verdict\":\"" ++ (verdict_word verdict ++ codes "\"") }
{
    match verdict {
        Verdict::Sampled => ",\"verdict\":\"sampled\"",
        Verdict::NotSampled => ",\"verdict\":\"notSampled\"",
    }
}

/// The cause, behind the policy, and the name of the spans' number.
pub fn cause_member(cause: DueCause) -> &'static str
    ensures { result.now ≡ codes ",\"by\":\"" ++ (cause_word cause ++ codes "\",\"spans\":") }
{
    match cause {
        DueCause::Wait => ",\"by\":\"wait\",\"spans\":",
        DueCause::RootWait => ",\"by\":\"rootWait\",\"spans\":",
        DueCause::Size => ",\"by\":\"size\",\"spans\":",
        DueCause::Close => ",\"by\":\"close\",\"spans\":",
    }
}

/// What a policy said, behind its name, and the end of its object.
pub fn said_member(said: Said) -> &'static str
    ensures { result.now ≡ codes "\",\"said\":\"" ++ (said_word said ++ codes "\"}") }
{
    match said {
        Said::Sampled => "\",\"said\":\"sampled\"}",
        Said::NotSampled => "\",\"said\":\"notSampled\"}",
        Said::InvertedSampled => "\",\"said\":\"invertedSampled\"}",
        Said::InvertedNotSampled => "\",\"said\":\"invertedNotSampled\"}",
        Said::Dropped => "\",\"said\":\"dropped\"}",
        Said::NotAsked => "\",\"said\":\"notAsked\"}",
    }
}
