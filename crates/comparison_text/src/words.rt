//! The words for how a trace ended, as in the lines of decisions.
ghost use Rattle.std.specs.Prelude.{◌≡◌, option_map};
ghost use Rattle.decision_line.specs.Line.{cause_word};
ghost use Rattle.comparison_text.specs.Value.{ended_cause, ended_word};

use decision_line::DueCause;
use run_comparison::HowEnded;
use span_ids::Verdict;

/// What was decided, or that nothing was.
pub fn ended_word(how: HowEnded) -> &'static str
    ensures { result.now ≡ ended_word how }
{
    match how {
        HowEnded::Decided {
            verdict: Verdict::Sampled,
            ..
        } => "sampled",
        HowEnded::Decided {
            verdict: Verdict::NotSampled,
            ..
        } => "notSampled",
        HowEnded::Evicted => "evicted",
    }
}

/// The word for a cause.
fn cause_word(cause: DueCause) -> &'static str
    ensures { result.now ≡ cause_word cause }
{
    match cause {
        DueCause::Wait => "wait",
        DueCause::RootWait => "rootWait",
        DueCause::Size => "size",
        DueCause::Close => "close",
    }
}

/// Why it was decided then, where it was.
pub fn ended_cause(how: HowEnded) -> Option<&'static str>
    ensures { option_map (λ word. word.now) result ≡ ended_cause how }
{
    match how {
        HowEnded::Decided { cause, .. } => Some(cause_word(cause)),
        HowEnded::Evicted => None,
    }
}
