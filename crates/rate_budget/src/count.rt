//! What is spent of one limiter node's limit.
ghost use Rattle.std.specs.Prelude.{◌≡◌};
ghost use Rattle.rate_budget.specs.Grant.{capacity};
ghost use Rattle.rate_budget.specs.Budget.{spent_in, grants_of, asked_count};

use policy_tree::Limit;

/// A limiter node with its limit, its greatest second asked, and what is spent in that second: of spans those granted
/// in it, of bytes those that are missing in the bucket.
#[derive(Clone, Copy, PartialEq, Eq)]
pub struct LimiterCount {
    pub node: u16,
    pub limit: Limit,
    pub second: u64,
    pub spent: u64,
}

impl LimiterCount {
    /// Whether `n` spans or bytes, as the limit has it, are granted in this second. A second before the greatest
    /// one counts as the greatest.
    pub fn ask(&mut self, second: u64, n: u64) -> bool
        ensures answer { result ≡ grants_of second n self.old }
        ensures after { self.new ≡ asked_count second n self.old }
    {
        // In the greatest second asked so far: where a clock goes back nothing is granted twice (D-350).
        let spent = self.spent_in(second);
        self.second = second.max(self.second);
        let granted = match spent.checked_add(n) {
            Some(sum) => sum <= capacity(self.limit),
            None => false,
        };
        self.spent = if granted { spent + n } else { spent };
        granted
    }

    /// What is spent so far where it is asked in this second.
    fn spent_in(&self, second: u64) -> u64
        ensures { result ≡ spent_in second self.now }
    {
        let seconds = second.saturating_sub(self.second);
        match self.limit {
            Limit::Spans { .. } if seconds > 0 => 0,
            Limit::Spans { .. } => self.spent,
            // By whole seconds, since a decision's second is all that an asking has of time (D-058).
            Limit::Bytes { per_second, .. } => {
                self.spent
                    .saturating_sub(per_second.saturating_mul(seconds))
            }
        }
    }
}

/// What the limit grants where nothing was granted before.
fn capacity(limit: Limit) -> u64
    ensures { result ≡ capacity limit }
{
    match limit {
        Limit::Spans { per_second } => per_second,
        Limit::Bytes { burst, .. } => burst,
    }
}
