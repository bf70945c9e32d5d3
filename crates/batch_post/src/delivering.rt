//! The delivery of one batch.
ghost use Rattle.std.specs.Prelude.{◌≡◌};
ghost use Rattle.batch_post.specs.Deliveries.{Delivers};

use crate::backend::Backend;
use crate::outcome::BatchFate;
use crate::rule::{Retry, RetryVerdict};
use std::sync::Wait;

/// Tries a batch until the backend took it or it is to be given up by the rule. That is settled by the caller.
pub fn deliver<B: Backend, R: Wait>(
    rt: &R,
    rule: &Retry,
    backend: &mut B,
    batch: &[u8],
) -> BatchFate
    ensures { Delivers rule.now (B.log backend.old) (B.log backend.new) batch.now result }
{
    let began = backend.now();
    let mut wait = rule.initial;
    for _ in rt.forever() {
        let outcome = backend.attempt(batch);
        let random = backend.random();
        let elapsed = backend.now().saturating_sub(began);
        let left = backend.left();
        match rule.verdict(outcome, wait, random, elapsed, left) {
            RetryVerdict::Taken => return BatchFate::Delivered,
            RetryVerdict::Waits(milliseconds) => backend.wait(milliseconds),
            RetryVerdict::Ends => return BatchFate::GivenUp,
        }
        wait = rule.next_wait(wait);
    }
    unreachable!()
}
