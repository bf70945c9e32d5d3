//! What each policy kept.
ghost use Rattle.std.specs.Prelude.{◌≡◌, IfOk, replicate};
ghost use Rattle.run_comparison.specs.Amount.{nothing};
ghost use Rattle.run_comparison.specs.Policies.{kept_by_all, sum_of, with_amount};

use crate::amount::Amount;
use std::alloc::{AllocError, Global};
use std::marker::Model;

/// What each policy kept, by its place, and what was kept without one.
#[derive(Drop)]
pub struct PolicyAmounts {
    by_place: Vec<Amount>,
    without: Amount,
}

impl Model for PolicyAmounts {
    ghost use Rattle.run_comparison.specs.Policies.{PolicyAmounts};

    ghost Value = { PolicyAmounts };

    ghost view = { λ p. record { by_place = p.by_place.items; without = p.without } };
}

/// An amount and others together.
fn sum_of(first: Amount, others: &[Amount]) -> Amount
    ensures { result ≡ sum_of first others.now }
{
    let mut sum = first;
    for amount in others {
        sum = sum.plus(*amount);
    }
    sum
}

impl PolicyAmounts {
    /// None of so many policies kept anything.
    pub fn new(alloc: Global, policies: usize) -> Result<PolicyAmounts, AllocError>
        ensures { IfOk result (λ p. p ≡ record { by_place = replicate policies nothing; without = nothing }) }
    {
        Ok(PolicyAmounts {
            by_place: vec![in alloc; Amount::nothing(); policies]?,
            without: Amount::nothing(),
        })
    }

    /// The policy at a place kept some more; where there is none, it was kept without one.
    pub fn add(&mut self, place: Option<usize>, more: Amount)
        ensures { self.new ≡ with_amount self.old place more }
    {
        match place {
            Some(place) if place < self.by_place.len() => {
                let amount = self.by_place[place];
                self.by_place[place] = amount.plus(more);
            }
            _ => self.without = self.without.plus(more),
        }
    }

    /// What each policy kept, by its place.
    pub fn by_place(&self) -> &[Amount]
        ensures { result.now ≡ self.now.by_place }
    {
        &self.by_place
    }

    /// What was kept in all.
    pub fn all(&self) -> Amount
        ensures { result ≡ kept_by_all self.now }
    {
        sum_of(self.without, &self.by_place)
    }

    /// What was kept without a policy.
    pub fn without(&self) -> Amount
        ensures { result ≡ self.now.without }
    {
        self.without
    }
}
