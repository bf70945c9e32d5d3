//! Policies and services of both runs, side by side, and the same steps of time.
ghost use Rattle.std.specs.Prelude.{◌≡◌, [], map, string_bytes, IfOk, OnOk};
ghost use Rattle.run_comparison.specs.Rows.{amount_at, beside, covering_those_of, is_first, policy_rows, same_steps, seen_policy, seen_service, service_rows, stands_alone, with_new_policy, with_new_service, with_old_policies, with_old_services};

use crate::amount::Amount;
use crate::kept_run::KeptRun;
use crate::names::place_of;
use crate::services::Services;
use crate::steps::Steps;
use std::alloc::{AllocError, Global};

/// A policy of one or both runs, and what it kept in each, where it is there.
#[derive(Clone, Copy)]
pub struct PolicyRow<'a> {
    pub name: &'a str,
    pub old: Option<Amount>,
    pub new: Option<Amount>,
}

/// A service of one or both runs, and how many of its spans each kept.
#[derive(Clone, Copy)]
pub struct ServiceRow<'a> {
    pub name: &'a str,
    pub old: u64,
    pub new: u64,
}

/// What the policy at a place kept.
fn amount_at(run: &KeptRun, place: usize) -> Option<Amount>
    ensures { result ≡ amount_at run.now place }
{
    run.policies().by_place().get(place).copied()
}

/// Whether the policy at a place is the first of its name.
fn is_first(names: &[String], name: &str, place: usize) -> bool
    ensures { result ≡ is_first (map string_bytes names.now) name.now place }
{
    match place_of(names, name) {
        Some(first) => first == place,
        None => false,
    }
}

/// What the first policy of a name kept, beside the first of that name in the other run.
fn beside(run: &KeptRun, first: bool, name: &str) -> Option<Amount>
    ensures { result ≡ beside run.now first name.now }
{
    if !first {
        return None;
    }
    amount_at(run, place_of(run.names(), name)?)
}

/// The policies of the old run, each beside the first of its name in the new one, if it is the first.
fn old_policies<'a>(
    alloc: Global,
    old: &'a KeptRun,
    new: &'a KeptRun,
) -> Result<Vec<PolicyRow<'a>>, AllocError>
    ensures { IfOk result (λ rows. map seen_policy rows.items ≡ with_old_policies old.now new.now 0 old.now.names []) }
{
    let mut rows = Vec::new(alloc);
    let names = old.names();
    for (place, name) in names.iter().enumerate() {
        let name = name.as_str();
        rows.push(PolicyRow {
            name,
            old: amount_at(old, place),
            new: beside(new, is_first(names, name, place), name),
        })?;
    }
    Ok(rows)
}

/// Whether a policy of the new run stands beside none of the old one.
fn stands_alone(old: &KeptRun, new: &KeptRun, place: usize, name: &str) -> bool
    ensures { result ≡ stands_alone old.now new.now place name.now }
{
    !is_first(new.names(), name, place) || place_of(old.names(), name).is_none()
}

/// Adds the policy of the new run at a place, where it stands beside none of the old one.
fn add_new_policy<'a>(
    rows: &mut Vec<PolicyRow<'a>>,
    old: &KeptRun,
    new: &KeptRun,
    place: usize,
    name: &'a str,
) -> Result<(), AllocError>
    ensures { OnOk result (map seen_policy rows.new.items ≡ with_new_policy old.now new.now place name.now (map seen_policy rows.old.items)) }
{
    if stands_alone(old, new, place, name) {
        rows.push(PolicyRow {
            name,
            old: None,
            new: amount_at(new, place),
        })?;
    }
    Ok(())
}

/// The policies of both runs: those of the old one in their order, each beside the first of its name in the new one,
/// and then those of the new one that stand beside none. `Err` where memory was refused.
pub fn policy_rows<'a>(
    alloc: Global,
    old: &'a KeptRun,
    new: &'a KeptRun,
) -> Result<Vec<PolicyRow<'a>>, AllocError>
    ensures { IfOk result (λ rows. map seen_policy rows.items ≡ policy_rows old.now new.now) }
{
    let mut rows = old_policies(alloc, old, new)?;
    let names = new.names();
    for (place, name) in names.iter().enumerate() {
        add_new_policy(&mut rows, old, new, place, name.as_str())?;
    }
    Ok(rows)
}

/// The services of the old run, each beside that of its name in the new one.
fn old_services<'a>(
    alloc: Global,
    old: &'a Services,
    new: &'a Services,
) -> Result<Vec<ServiceRow<'a>>, AllocError>
    ensures { IfOk result (λ rows. map seen_service rows.items ≡ with_old_services old.now new.now 0 old.now.names []) }
{
    let mut rows = Vec::new(alloc);
    let names = old.names();
    for (place, name) in names.iter().enumerate() {
        rows.push(ServiceRow {
            name: name.as_str(),
            old: old.spans_at(place),
            new: new.spans_of(name.as_str()),
        })?;
    }
    Ok(rows)
}

/// Adds the service of the new run at a place, where it has none in the old one.
fn add_new_service<'a>(
    rows: &mut Vec<ServiceRow<'a>>,
    old: &Services,
    new: &Services,
    place: usize,
    name: &'a str,
) -> Result<(), AllocError>
    ensures { OnOk result (map seen_service rows.new.items ≡ with_new_service old.now new.now place name.now (map seen_service rows.old.items)) }
{
    if place_of(old.names(), name).is_none() {
        rows.push(ServiceRow {
            name,
            old: 0,
            new: new.spans_at(place),
        })?;
    }
    Ok(())
}

/// The services of both runs: those of the old one in the order of their first spans, and then those of the new one
/// alone. `Err` where memory was refused.
pub fn service_rows<'a>(
    alloc: Global,
    old: &'a Services,
    new: &'a Services,
) -> Result<Vec<ServiceRow<'a>>, AllocError>
    ensures { IfOk result (λ rows. map seen_service rows.items ≡ service_rows old.now new.now) }
{
    let mut rows = old_services(alloc, old, new)?;
    let names = new.names();
    for (place, name) in names.iter().enumerate() {
        add_new_service(&mut rows, old, new, place, name.as_str())?;
    }
    Ok(rows)
}

/// The steps of one run reach as far as those of another, too.
fn covering_those_of(alloc: Global, of: &Steps, other: &Steps) -> Result<Steps, AllocError>
    ensures { IfOk result (λ steps. steps ≡ covering_those_of of.now other.now) }
{
    let mut steps = of.try_clone(alloc)?;
    if let Some((from, to)) = other.range() {
        steps.cover(from, to);
    }
    Ok(steps)
}

/// The steps of both runs, which reach from the earliest moment of both to the latest, so that they have one width.
/// `Err` where memory was refused.
pub fn same_steps(alloc: Global, old: &Steps, new: &Steps) -> Result<(Steps, Steps), AllocError>
    ensures { IfOk result (λ steps. (steps.0, steps.1) ≡ same_steps old.now new.now) }
{
    let of_old = covering_those_of(alloc, old, new)?;
    let of_new = covering_those_of(alloc, new, old)?;
    Ok((of_old, of_new))
}
