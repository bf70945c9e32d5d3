//! Seats in one thread, and on threads of their own.
ghost use Rattle.std.specs.Prelude.{◌≡◌, ◌≤◌, ◌*◌, map, vec_len};
ghost use Rattle.shared_budget.specs.Budget.{cell_of, AreOfOneBudget};

use otlp_types::Text;
use policy_tree::{Limit, Policies, Policy, PolicyKind};
use rate_budget::Limiter;
use shared_budget::{BudgetSeat, SharedBudget};
use std::alloc::{AllocError, Global};
use std::sync::Wait;
use std::test::Fail;
use std::thread;
use std::thread::Threads;

/// The name and the limit of a policy.
type Row = (&'static str, Limit);

/// A policy with a limit of so many spans per second.
const fn rate(name: &'static str, per_second: u64) -> Row {
    (name, Limit::Spans { per_second })
}

/// A policy with a bucket of so many bytes.
const fn bucket(name: &'static str, per_second: u64, burst: u64) -> Row {
    (name, Limit::Bytes { per_second, burst })
}

/// The policy of a row.
fn policy(alloc: Global, (name, limit): Row) -> Result<Policy, AllocError> {
    Ok(Policy {
        name: Text::from_str(alloc, name)?,
        kind: PolicyKind::Limiting(limit),
    })
}

/// Puts the policy of a row behind others.
fn put_policy(alloc: Global, list: &mut Vec<Policy>, row: Row) -> Result<(), AllocError> {
    list.reserve(1)?;
    list.push_reserved(policy(alloc, row)?);
    Ok(())
}

/// The policies of these rows.
fn policies(alloc: Global, rows: &[Row]) -> Result<Policies, Fail> {
    let mut list = Vec::new(alloc);
    for row in rows {
        put_policy(alloc, &mut list, *row)?;
    }
    Ok(Policies::new(alloc, list)?)
}

/// What a seat is answered. A node that it isn't at is answered no.
fn ask<'r, R: Wait>(seat: &mut BudgetSeat<'r, R>, node: u16, second: u64, amount: u64) -> bool
    ensures { map cell_of seat.new ≡ map cell_of seat.old }
{
    amount > 0 && seat.has_node(node) && seat.ask(node, second, amount)
}

/// Asks at the first node for one span or byte, so many times in a second, and counts what is granted.
fn ask_times<'r, R: Wait>(
    seat: BudgetSeat<'r, R>,
    second: u64,
    times: u64,
) -> (u64, BudgetSeat<'r, R>)
    ensures granted { result.0 ≤ times }
    ensures cells { map cell_of result.1 ≡ map cell_of seat.entry }
{
    let mut seat = seat;
    let mut granted = 0;
    for _ in 0..times {
        if ask(&mut seat, 0, second, 1) {
            granted += 1;
        }
    }
    (granted, seat)
}

/// Two seats on threads of their own: each asks so many times in a second.
fn ask_both<'a, 'b, R: Threads + Wait + Sync>(
    rt: &R,
    one: BudgetSeat<'a, R>,
    other: BudgetSeat<'b, R>,
    second: u64,
    times: u32,
) -> (u64, BudgetSeat<'a, R>, BudgetSeat<'b, R>)
    ensures granted { result.0 ≤ 2 * times }
    ensures one { map cell_of result.1 ≡ map cell_of one.entry }
    ensures other { map cell_of result.2 ≡ map cell_of other.entry }
{
    let times = times as u64;
    let ((ones, one), (others, other)) = thread::join(
        rt,
        move || ask_times(one, second, times),
        move || ask_times(other, second, times),
    );
    (ones + others, one, other)
}

/// Four seats ask on threads of their own.
fn ask_by_four<'r, R: Threads + Wait + Sync>(
    rt: &'r R,
    seats: &mut Vec<BudgetSeat<'r, R>>,
    second: u64,
    times: u32,
) -> u64
    requires one { AreOfOneBudget seats.old.items }
    requires four { vec_len seats.old ≡ 4 }
    ensures one { AreOfOneBudget seats.new.items }
    ensures four { vec_len seats.new ≡ 4 }
{
    let one = seats.take_last();
    let two = seats.take_last();
    let three = seats.take_last();
    let four = seats.take_last();
    let ((first_half, one, two), (second_half, three, four)) = thread::join(
        rt,
        move || ask_both(rt, one, two, second, times),
        move || ask_both(rt, three, four, second, times),
    );
    seats.push_reserved(four);
    seats.push_reserved(three);
    seats.push_reserved(two);
    seats.push_reserved(one);
    first_half + second_half
}

/// Whether four seats on threads of their own, each at 400 askings in each of these seconds, are granted just so many
/// there.
fn seconds_grant<R: Threads + Wait + Sync>(
    rt: &R,
    alloc: Global,
    row: Row,
    seconds: &[(u64, u64)],
) -> Result<bool, Fail> {
    let policies = policies(alloc, &[row])?;
    let mut seats = SharedBudget::new(rt, alloc, &policies, 4)?;
    let mut within = true;
    for (second, granted) in seconds {
        within = within && ask_by_four(rt, &mut seats, *second, 400) == *granted;
    }
    SharedBudget::reunite(seats);
    Ok(within)
}

/// A thousand spans in each of 25 seconds.
const EACH_SECOND: [(u64, u64); 25] = [
    (0, 1000),
    (1, 1000),
    (2, 1000),
    (3, 1000),
    (4, 1000),
    (5, 1000),
    (6, 1000),
    (7, 1000),
    (8, 1000),
    (9, 1000),
    (10, 1000),
    (11, 1000),
    (12, 1000),
    (13, 1000),
    (14, 1000),
    (15, 1000),
    (16, 1000),
    (17, 1000),
    (18, 1000),
    (19, 1000),
    (20, 1000),
    (21, 1000),
    (22, 1000),
    (23, 1000),
    (24, 1000),
];

#[test]
fn four_seats_over_seconds(rt: HostRuntime) -> Result<(), Fail> {
    assert!(rt; seconds_grant(&rt, rt.alloc(), rate("a", 1000), &EACH_SECOND)?);
    Ok(())
}

/// A full bucket of 1000 bytes, and what it gets back: 300 with each second, and never above 1000.
#[test]
fn four_seats_at_a_bucket(rt: HostRuntime) -> Result<(), Fail> {
    let seconds = [
        (0, 1000),
        (1, 300),
        (2, 300),
        (1, 0),
        (5, 900),
        (9, 1000),
        (9, 0),
        (10, 300),
        (1000, 1000),
    ];
    assert!(rt; seconds_grant(&rt, rt.alloc(), bucket("a", 300, 1000), &seconds)?);
    Ok(())
}

/// An asking: the seat, the node, the second and the amount, and whether it is granted.
type Asking = ((usize, u16, u64, u64), bool);

/// Whether seats answer so.
fn is_answered<'r, R: Wait>(seats: &mut Vec<BudgetSeat<'r, R>>, asking: &Asking) -> bool {
    let ((seat, node, second, amount), granted) = *asking;
    match seats.get_mut(seat) {
        Some(seat) => ask(seat, node, second, amount) == granted,
        None => false,
    }
}

/// The place of the first of these askings that two seats of these policies answer otherwise.
fn first_wrong<R: Threads + Wait + Sync>(
    rt: &R,
    alloc: Global,
    rows: &[Row],
    askings: &[Asking],
) -> Result<Option<usize>, Fail> {
    let policies = policies(alloc, rows)?;
    let mut seats = SharedBudget::new(rt, alloc, &policies, 2)?;
    let mut wrong = None;
    for (place, asking) in askings.iter().enumerate() {
        if wrong.is_none() && !is_answered(&mut seats, asking) {
            wrong = Some(place);
        }
    }
    Ok(wrong)
}

#[test]
fn nodes_of_two_seats(rt: HostRuntime) -> Result<(), Fail> {
    let rows = [rate("a", 3), rate("b", u64::MAX)];
    let askings = [
        ((0, 0, 5, 2), true),
        ((1, 0, 4, 2), false),
        ((1, 1, 0, u64::MAX), true),
        ((0, 0, 4, 1), true),
        ((1, 0, 6, 3), true),
        ((0, 0, 5, 1), false),
        ((0, 1, 0, 1), false),
        ((0, 1, 1, 1), true),
        ((0, 2, 2, 1), false),
    ];
    assert_eq!(rt; first_wrong(&rt, rt.alloc(), &rows, &askings)?, None);
    Ok(())
}

#[test]
fn buckets_of_two_seats(rt: HostRuntime) -> Result<(), Fail> {
    let rows = [
        bucket("a", 3, 7),
        bucket("b", u64::MAX, u64::MAX),
        bucket("c", 0, 5),
    ];
    let askings = [
        ((0, 0, 5, 8), false),
        ((1, 0, 5, 7), true),
        ((0, 0, 5, 1), false),
        ((0, 0, 6, 4), false),
        ((1, 0, 6, 3), true),
        ((0, 0, 4, 1), false),
        ((0, 0, 7, 2), true),
        ((1, 0, 7, 2), false),
        ((1, 0, 7, 1), true),
        ((0, 0, 9, 6), true),
        ((1, 0, u64::MAX, 8), false),
        ((1, 0, u64::MAX, 7), true),
        ((0, 1, 0, u64::MAX), true),
        ((1, 1, 0, 1), false),
        ((1, 1, 1, u64::MAX), true),
        ((0, 1, 3, 1), true),
        ((1, 2, 0, 3), true),
        ((0, 2, u64::MAX, 3), false),
        ((0, 2, u64::MAX, 2), true),
        ((0, 3, 2, 1), false),
    ];
    assert_eq!(rt; first_wrong(&rt, rt.alloc(), &rows, &askings)?, None);
    Ok(())
}
