//! The shares of the parts of a composite.
ghost use Rattle.std.specs.Prelude.{◌≡◌, ◌≤◌, ◌*◌, ◌/◌, IfOk, IfSome, codes, map, option_map};
ghost use Rattle.toml.specs.Data.{get_member};
ghost use Rattle.toml.specs.View.{view, table_view, items_view};
ghost use Rattle.tsc_config.specs.PolicyOrder as orders;
ghost use Rattle.tsc_config.specs.Values as spec;

use crate::settings_values::{items_at, natural_at};
use config_faults::{is_text_at, member, order_fault};
use otlp_types::{List, Text, TryClone};
use policy_tree::{Join, Limit, Policy, PolicyKind};
use std::alloc::{AllocError, Global};
use toml::{Table, Value};

/// The parts of a composite as they are asked, each within its share, by the value at the key of its settings.
pub fn composite_of(
    alloc: Global,
    table: &Table,
    parts: List<Policy>,
) -> Result<List<Policy>, AllocError>
    ensures { IfOk result (λ list. list ≡ spec.composite_of (get_member (codes "composite") (table_view table.now)) parts) }
{
    match member(table, "composite") {
        Some(value) => shares_by(alloc, value, parts),
        None => Ok(List::new(alloc)),
    }
}

fn shares_by(alloc: Global, value: &Value, parts: List<Policy>) -> Result<List<Policy>, AllocError>
    ensures { IfOk result (λ list. list ≡ spec.composite_of (Some (view value.now)) parts) }
{
    match value {
        Value::Table(settings) => shares_of(alloc, settings, parts),
        _ => Ok(List::new(alloc)),
    }
}

fn shares_of(
    alloc: Global,
    settings: &Table,
    parts: List<Policy>,
) -> Result<List<Policy>, AllocError>
    ensures { IfOk result (λ list. list ≡ spec.shares_of (table_view settings.now) parts) }
{
    let total = natural_at(settings, "max_total_spans_per_second");
    let count = parts.len() as u64;
    let allocations = items_at(settings, "rate_allocation");
    let parts = parts.as_slice();
    match order_of(settings) {
        Some(Value::Array(order)) => {
            shares_by_order(alloc, total, count, allocations, order.as_slice(), parts)
        }
        _ => shares_as_written(alloc, total, count, allocations, parts),
    }
}

/// What stands at the key of the order.
fn order_of(settings: &Table) -> Option<&Value>
    ensures { option_map (λ v. view v.now) result ≡ spec.order_of (table_view settings.now) }
{
    // One with a fault is passed over, so that no fault of the policies follows from it.
    match order_fault(Join::FirstMatch, settings) {
        None => member(settings, "policy_order"),
        Some(_) => None,
    }
}

fn shares_as_written(
    alloc: Global,
    total: u64,
    count: u64,
    allocations: &[Value],
    parts: &[Policy],
) -> Result<List<Policy>, AllocError>
    ensures { IfOk result (λ list. list ≡ map (spec.within_share total count (items_view allocations.now)) parts.now) }
{
    let mut list = List::new(alloc);
    for part in parts {
        list.push(within_share(alloc, total, count, allocations, part)?)?;
    }
    Ok(list)
}

/// For each of these texts the first part that it names, within its share.
fn shares_by_order(
    alloc: Global,
    total: u64,
    count: u64,
    allocations: &[Value],
    order: &[Value],
    parts: &[Policy],
) -> Result<List<Policy>, AllocError>
    ensures { IfOk result (λ list. list ≡ map (spec.within_share total count (items_view allocations.now)) (orders.each_named (items_view order.now) parts.now)) }
{
    let mut list = List::new(alloc);
    for text in order {
        if let Some(part) = first_named(text, parts) {
            list.push(within_share(alloc, total, count, allocations, part)?)?;
        }
    }
    Ok(list)
}

fn first_named<'a>(text: &Value, parts: &'a [Policy]) -> Option<&'a Policy>
    ensures { option_map (λ part. part.now) result ≡ orders.first_named (view text.now) parts.now }
{
    for part in parts {
        if names(text, part) {
            return Some(part);
        }
    }
    None
}

/// Whether a text is the name of this policy.
fn names(text: &Value, policy: &Policy) -> bool
    ensures { result ≡ orders.names (view text.now) policy.now }
{
    match text {
        Value::String(text) => text.as_str() == policy.name.as_str(),
        _ => false,
    }
}

/// A part, one of `count`, within its share of the total in spans per second.
fn within_share(
    alloc: Global,
    total: u64,
    count: u64,
    allocations: &[Value],
    part: &Policy,
) -> Result<Policy, AllocError>
    ensures { IfOk result (λ share. share ≡ spec.within_share total count (items_view allocations.now) part.now) }
{
    let percent = percent_among(part.name.as_str(), allocations);
    // The total is no limiter: a share is at most 100 percent of it (D-036).
    let limiter = Policy {
        name: beside(alloc, part.name.as_str())?,
        kind: PolicyKind::Limiting(Limit::Spans {
            per_second: match percent {
                Some(percent) => percentage(total, percent),
                None => total / count.max(1),
            },
        }),
    };
    let mut policies = List::new(alloc);
    policies.push(part.try_clone(alloc)?)?;
    policies.push(limiter)?;
    Ok(Policy {
        name: part.name.try_clone(alloc)?,
        kind: PolicyKind::Joined {
            join: Join::Share,
            policies,
        },
    })
}

/// A name for a limiter beside a policy, which isn't that policy's.
fn beside(alloc: Global, name: &str) -> Result<Text, AllocError>
    ensures { IfOk result (λ text. text ≡ spec.beside name.now) }
{
    if name.is_empty() {
        Text::from_str(alloc, "limit")
    } else {
        Ok(Text::new(alloc))
    }
}

/// A percentage of the total, rounded down.
#[tactic(auto, using(crate::proofs::Shares::within_total))]
fn percentage(total: u64, percent: u64) -> u64
    requires { percent ≤ 100 }
    ensures { result ≡ total * percent / 100 }
{
    (u128::from(total) * u128::from(percent) / 100) as u64
}

/// The percentage of the part of that name, by the first of these items that tells it.
fn percent_among(name: &str, items: &[Value]) -> Option<u64>
    ensures percent { result ≡ spec.percent_among name.now (items_view items.now) }
    ensures within { IfSome result (λ percent. percent ≤ 100) }
{
    // The first that names the part counts; one that names no part counts for nothing (D-037).
    for item in items {
        if let Some(percent) = percent_by(name, item) {
            return Some(percent);
        }
    }
    None
}

fn percent_by(name: &str, item: &Value) -> Option<u64>
    ensures percent { result ≡ spec.percent_by name.now (view item.now) }
    ensures within { IfSome result (λ percent. percent ≤ 100) }
{
    match item {
        Value::Table(table) if is_text_at(name, table, "policy") => percent_at(table),
        _ => None,
    }
}

fn percent_at(table: &Table) -> Option<u64>
    ensures percent { result ≡ spec.percent_value (get_member (codes "percent") (table_view table.now)) }
    ensures within { IfSome result (λ percent. percent ≤ 100) }
{
    match member(table, "percent") {
        Some(Value::Integer(number)) if 1 <= *number && *number <= 100 => Some(*number as u64),
        _ => None,
    }
}
