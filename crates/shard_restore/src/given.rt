//! A limiter that gives the answers that were recorded.
ghost use Rattle.std.specs.Prelude.{◌≡◌, true, false, [], refl};
ghost use Rattle.shard_restore.specs.Asking.{Left, GivesNext};

use rate_budget::Limiter;
use std::marker::Model;

/// Gives recorded answers, one after the other, whoever asks. It refuses behind the last, and keeps that in mind.
#[derive(Drop)]
pub(crate) struct Given {
    answers: Vec<bool>,
    at: usize,
    is_short: bool,
}

impl Model for Given {
    ghost use Rattle.std.specs.Prelude.{drop};
    ghost use Rattle.shard_restore.specs.Asking.{Left};

    ghost Value = { Left };

    ghost view = { λ g. record { answers = drop g.at g.answers.items; is_short = g.is_short } };
}

impl Given {
    /// These answers.
    pub(crate) fn new(answers: Vec<bool>) -> Given
        ensures { result ≡ record { answers = answers.items; is_short = false } }
    {
        Given {
            answers,
            at: 0,
            is_short: false,
        }
    }

    /// Whether just these answers were asked for.
    pub(crate) fn is_spent(&self) -> bool
        ensures { result ≡ true → self.now ≡ record { answers = []; is_short = false } }
    {
        !self.is_short && self.at >= self.answers.len()
    }
}

impl Limiter for Given {
    ghost has_node = { λ _ _. true };

    ghost asks = { GivesNext };

    fn ask(&mut self, _node: u16, _second: u64, _amount: u64) -> bool {
        if self.at < self.answers.len() {
            let granted = self.answers[self.at];
            self.at += 1;
            granted
        } else {
            self.is_short = true;
            false
        }
    }

    ghost keeps = { λ s t node second amount answer m h. refl };
}
