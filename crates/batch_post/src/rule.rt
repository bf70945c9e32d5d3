//! What is done after an attempt.
ghost use Rattle.std.specs.Prelude.{◌≡◌};
ghost use Rattle.batch_post.specs.Rules.{may_try_again, is_taken, next_wait, with_jitter, wait_after, is_too_late, verdict_of};

use crate::outcome::AttemptOutcome;

/// For how long a batch is tried, in milliseconds.
#[derive(Clone, Copy)]
pub struct Retry {
    /// The first wait.
    pub initial: u64,
    /// The longest wait that no answer asks for.
    pub longest: u64,
    /// How long after the first attempt the last one is begun, and 0: for ever.
    pub patience: u64,
}

/// What is done after an attempt.
#[derive(Clone, Copy, PartialEq, Eq)]
pub enum RetryVerdict {
    /// The backend took the batch.
    Taken,
    /// The batch is tried again after this number of milliseconds.
    Waits(u64),
    /// The batch is given up.
    Ends,
}

/// Whether the batch is tried again after this, while there is time.
pub(crate) fn may_try_again(outcome: AttemptOutcome) -> bool
    ensures { result ≡ may_try_again outcome }
{
    match outcome {
        AttemptOutcome::Answered(status, _) => matches!(status, 429 | 502 | 503 | 504),
        AttemptOutcome::NoAnswer => true,
    }
}

/// Whether the backend took the batch.
pub(crate) fn is_taken(outcome: AttemptOutcome) -> bool
    ensures { result ≡ is_taken outcome }
{
    // Not 202 or another 2xx: OTLP/HTTP says 200 (D-209).
    matches!(outcome, AttemptOutcome::Answered(200, _))
}

impl Retry {
    /// The wait after this one that no answer asks for.
    pub(crate) fn next_wait(&self, wait: u64) -> u64
        ensures { result ≡ next_wait self.now wait }
    {
        wait.saturating_mul(2).min(self.longest)
    }

    /// Whether it is too late for an attempt after this wait, where `elapsed` has passed since the first one began, and
    /// `left` is what is left to a collector that closes.
    fn is_too_late(&self, elapsed: u64, wait: u64, left: Option<u64>) -> bool
        ensures { result ≡ is_too_late self.now elapsed wait left }
    {
        let is_over = self.patience > 0 && elapsed.saturating_add(wait) > self.patience;
        match left {
            Some(left) => is_over || wait > left,
            None => is_over,
        }
    }

    /// What is done after an attempt that ended so, when the wait that no answer asks for is this one, with a random
    /// number.
    pub fn verdict(
        &self,
        outcome: AttemptOutcome,
        wait: u64,
        random: u64,
        elapsed: u64,
        left: Option<u64>,
    ) -> RetryVerdict
        ensures { result ≡ verdict_of self.now outcome wait random elapsed left }
    {
        if is_taken(outcome) {
            return RetryVerdict::Taken;
        }
        let wait = wait_after(outcome, wait, random);
        if may_try_again(outcome) && !self.is_too_late(elapsed, wait, left) {
            RetryVerdict::Waits(wait)
        } else {
            RetryVerdict::Ends
        }
    }
}

/// A wait between its half and its whole.
fn with_jitter(wait: u64, random: u64) -> u64
    ensures { result ≡ with_jitter wait random }
{
    // With jitter, so that senders that failed together don't come back together.
    wait - random % (wait / 2 + 1)
}

/// The wait after an attempt: that which the answer asks for, where it asks for some time, else this one, with jitter.
fn wait_after(outcome: AttemptOutcome, wait: u64, random: u64) -> u64
    ensures { result ≡ wait_after outcome wait random }
{
    // A `Retry-After` of 0 counts as none: the backend would be asked again and again without a pause (D-204).
    match outcome {
        AttemptOutcome::Answered(_, Some(asked)) if asked > 0 => asked,
        _ => with_jitter(wait, random),
    }
}
