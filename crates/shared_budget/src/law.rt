//! What holds of every history of seats, whoever asked.
ghost use Rattle.shared_budget.specs.Seats.{StaysWithin};
ghost use Rattle.shared_budget.specs.Budget.{NewSeatsAreOfOne, NewSeatsHaveNodes, AskingKeepsCells, SameCellsSuffice, EachStaysWithin};

/// In each second the spans that a node grants add up to at most its limit, and its bucket of bytes is never overdrawn.
pub fn stays_within()
    ensures history { StaysWithin }
    ensures each { EachStaysWithin }
{}

/// The seats that one call makes may be compared, however often each was asked.
pub fn asked_seats_may_be_compared()
    ensures new { NewSeatsAreOfOne }
    ensures asked { AskingKeepsCells }
    ensures same { SameCellsSuffice }
{}

/// Each seat that one call makes is at every limiter node of the policies, so that it may be lent to their decisions.
/// No asking changes that (`keeps` of its `Limiter`).
pub fn new_seats_have_nodes()
    ensures { NewSeatsHaveNodes }
{}
