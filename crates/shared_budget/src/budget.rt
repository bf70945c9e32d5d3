//! The seats at all limiter nodes of some policies: made at once, and compared once all have ended.
ghost use Rattle.std.specs.Prelude.{◌≡◌, ◌<◌, [], All, map, length, IfOk};
ghost use Rattle.policy_tree.specs.Tree.{limiters};
ghost use Rattle.policy_tree.specs.Meaning.{meaning};
ghost use Rattle.shared_budget.specs.Rule.{IsSeat};
ghost use Rattle.shared_budget.specs.Budget.{cell_of, AreNewSeats, AreOfOneBudget, HaveOneHistoryEach};
ghost use Rattle.shared_budget.specs.Columns.{with_column, united, IsCompared};

use crate::budget_seat::BudgetSeat;
use crate::node_budget::node_seats;
use crate::node_seat::NodeSeat;
use policy_tree::Policies;
use std::alloc::{AllocError, Global};
use std::sync::Wait;

/// One limiter of the spans and bytes per second of some policies, for several seats (tailsamplingprocessor README,
/// `rate_limiting`, `bytes_limiting`).
pub struct SharedBudget;

impl SharedBudget {
    /// This number of seats at each limiter node of the policies, before any asking. All memory is reserved here: `Err`
    /// where some of it was refused. Each seat holds the handle by which it waits.
    pub fn new<'r, R: Wait>(
        rt: &'r R,
        alloc: Global,
        policies: &Policies,
        seats: u64,
    ) -> Result<Vec<BudgetSeat<'r, R>>, AllocError>
        requires seats { 0 < seats }
        ensures { IfOk result (λ all. AreNewSeats (limiters (meaning policies.now)) seats all.items) }
    {
        let mut all = unseated(rt, alloc, seats)?;
        for limiter in policies.limiters(alloc)?.as_slice() {
            let column = node_seats(alloc, limiter.node, limiter.limit, seats)?;
            add_column(&mut all, column)?;
        }
        Ok(all)
    }

    /// Compares the seats that one [`SharedBudget::new`] gave, once all have ended: each node has one history with
    /// every seat's askings.
    pub fn reunite<'r, R: Wait>(seats: Vec<BudgetSeat<'r, R>>)
        requires { AreOfOneBudget seats.items }
        ensures { HaveOneHistoryEach seats.entry.items }
    {
        let mut seats = seats;
        let Some(first) = seats.pop() else {
            return;
        };
        let (rt, mut nodes) = first.into_parts();
        while let Some(other) = seats.pop() {
            let (_, others) = other.into_parts();
            unite_nodes(&mut nodes, others);
        }
        compare_each(rt, nodes);
    }
}

// Seats at no node, of this number.
fn unseated<'r, R: Wait>(
    rt: &'r R,
    alloc: Global,
    seats: u64,
) -> Result<Vec<BudgetSeat<'r, R>>, AllocError>
    ensures { IfOk result (λ all. AreNewSeats [] seats all.items) }
{
    let mut all = Vec::new(alloc);
    for _ in 0..seats {
        all.push(BudgetSeat::unseated(rt, alloc))?;
    }
    Ok(all)
}

// Each seat gets its seat at one node more.
fn add_column<'r, R: Wait>(
    all: &mut Vec<BudgetSeat<'r, R>>,
    column: Vec<NodeSeat>,
) -> Result<(), AllocError>
    requires same { length column.items ≡ length all.old.items }
    requires seats { All (λ n. IsSeat n.1) column.items }
    ensures { IfOk result (λ _. all.new.items ≡ with_column all.old.items column.items) }
{
    let mut column = column;
    while let Some(node) = column.pop() {
        all[column.len()].add(node)?;
    }
    Ok(())
}

// What another seat knows is taken in, node by node.
fn unite_nodes(nodes: &mut Vec<NodeSeat>, others: Vec<NodeSeat>)
    requires { map cell_of others.items ≡ map cell_of nodes.old.items }
    ensures { nodes.new.items ≡ united nodes.old.items others.items }
{
    let mut others = others;
    while let Some(other) = others.pop() {
        nodes[others.len()].unite(other);
    }
}

// Compares what was taken in at each node.
fn compare_each<R: Wait>(rt: &R, nodes: Vec<NodeSeat>)
    ensures { All IsCompared nodes.items }
{
    let mut nodes = nodes;
    while let Some(node) = nodes.pop() {
        let mut node = node;
        node.compare(rt);
    }
}
