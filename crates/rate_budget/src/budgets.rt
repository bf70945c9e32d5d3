//! The limiter nodes of some policies, asked by one thread.
ghost use Rattle.std.specs.Prelude.{◌≡◌, ℕ, ◌+◌, ◌==◌, Bool, true, false, IsTrue, nat_le, length, ◌<◌, List, [], ◌∷◌, IfOk};
ghost use Rattle.policy_tree.specs.Tree.{Policies as tree_of};
ghost use Rattle.policy_tree.specs.Meaning.{meaning};
ghost use Rattle.rate_budget.specs.Grant.{Asking};
ghost use Rattle.rate_budget.specs.Budget.{limiter_counts, has_node as has_node_in, grants_at as grants_by, after as after_by, AsksBudgets, StandsAfter};

use crate::count::LimiterCount;
use crate::limiter::Limiter;
use policy_tree::Policies;
use std::alloc::{AllocError, Global};
use std::marker::Model;

/// One count for each limiter node of some policies, in the order of their numbers.
#[derive(Drop)]
pub struct Budgets {
    counts: Vec<LimiterCount>,
}

impl Model for Budgets {
    ghost use Rattle.std.specs.Prelude.{List};
    ghost use Rattle.rate_budget.specs.declared.count.LimiterCount.{LimiterCount};

    ghost Value = { List LimiterCount };

    ghost view = { λ b. b.counts.items };
}

impl Budgets {
    /// The counts of the policies' limiter nodes before any asking.
    pub fn new(alloc: Global, policies: &Policies) -> Result<Budgets, AllocError>
        ensures { IfOk result (λ budgets. budgets ≡ limiter_counts (meaning policies.now) []) }
    {
        let mut counts = Vec::new(alloc);
        for limiter in policies.limiters(alloc)?.as_slice() {
            counts.push(LimiterCount {
                node: limiter.node,
                limit: limiter.limit,
                second: 0,
                spent: 0,
            })?;
        }
        Ok(Budgets { counts })
    }

    /// Whether there is a count of this node.
    pub fn has_node(&self, node: u16) -> bool
        ensures { result ≡ has_node_in self.now node }
    {
        self.counts.iter().any(|count| count.node == node)
    }

    fn ask_node(&mut self, node: u16, second: u64, n: u64) -> bool
        requires { has_node_in self.old node ≡ true }
        ensures answer { result ≡ grants_by self.old node second n }
        ensures after { self.new ≡ after_by self.old node second n }
    {
        ask_in(self.counts.as_mut_slice(), node, second, n)
    }
}

fn ask_in(counts: &mut [LimiterCount], node: u16, second: u64, n: u64) -> bool
    requires { has_node_in counts.old node ≡ true }
    ensures answer { result ≡ grants_by counts.old node second n }
    ensures after { counts.new ≡ after_by counts.old node second n }
{
    let mut i = 0;
    // There are 64 policies at most, so they are walked over.
    while i < counts.len() {
        if counts[i].node == node {
            return counts[i].ask(second, n);
        }
        i += 1;
    }
    unreachable!()
}

impl Limiter for Budgets {
    ghost use Rattle.rate_budget.specs.BudgetLaws.{budgets-keep};

    ghost has_node = { has_node_in };

    ghost asks = { AsksBudgets };

    /// Whether this amount of spans or bytes is granted to the node in this second. It takes no memory.
    fn ask(&mut self, node: u16, second: u64, amount: u64) -> bool
        requires node { has_node_in self.old node ≡ true }
        requires amount { 0 < amount }
        ensures asked { AsksBudgets self.old node second amount result self.new }
        ensures stands { (policies : tree_of) (askings : List Asking) → self.old ≡ limiter_counts policies askings → StandsAfter policies askings node second amount result self.new }
    {
        self.ask_node(node, second, amount)
    }

    ghost keeps = { budgets-keep };
}
