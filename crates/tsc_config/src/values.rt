//! What a table without a fault gives.
ghost use Rattle.std.specs.Prelude.{◌≡◌, ◌≤◌, IfOk, codes, []};
ghost use Rattle.policy_tree.specs.declared.policy.Join.TheVariants as join_is;
ghost use Rattle.toml.specs.Data.{get_member, table as table_data};
ghost use Rattle.toml.specs.View.{view, table_view, array_view};
ghost use Rattle.config_faults.specs.PolicyTypes.{type_name};
ghost use Rattle.config_faults.specs.Tables.{choice_row, number_row};
ghost use Rattle.tsc_config.specs.Values as spec;

use crate::composites::composite_of;
use crate::settings_values::{kind_in, number_at, text_at, text_of, truth_at};
use config_faults::{
    ChoiceKey, NumberKey, PolicyType, join_at, join_type, member, sub_key, type_at,
};
use otlp_types::{List, Text};
use policy_tree::{Join, Leaf, Policy, PolicyKind};
use std::alloc::{AllocError, Global};
use toml::value::Array;
use toml::{Table, Value};

/// The wait from a trace's root on, at whichever of its two names it stands, or its default.
pub fn root_wait_at(table: &Table) -> u64
    ensures { result ≡ spec.root_wait_of (table_view table.now) }
{
    if member(table, NumberKey::RootWait.row().0).is_some() {
        number_at(table, NumberKey::RootWait)
    } else {
        number_at(table, NumberKey::RootReceived)
    }
}

/// The addresses of a collector, and the paths of its output, of its decisions and of its record.
#[derive(Drop)]
pub struct Places {
    /// Where requests are taken.
    pub listen: Text,
    /// Where those in charge are answered.
    pub admin: Text,
    /// Where the numbers alone are answered.
    pub metrics: Text,
    /// The file of the output.
    pub output: Text,
    /// The file of the lines about decided traces.
    pub decisions: Text,
    /// The file of the requests that are taken.
    pub request_record: Text,
}

/// The addresses of a collector, and the paths of its output, of its decisions and of its record.
pub fn places_at(alloc: Global, table: &Table) -> Result<Places, AllocError>
    ensures listen { IfOk result (λ places. places.listen ≡ spec.address_of (codes "127.0.0.1:4318") (get_member (codes "listen") (table_view table.now))) }
    ensures admin { IfOk result (λ places. places.admin ≡ spec.address_of [] (get_member (codes "admin") (table_view table.now))) }
    ensures metrics { IfOk result (λ places. places.metrics ≡ spec.address_of [] (get_member (codes "metrics") (table_view table.now))) }
    ensures output { IfOk result (λ places. places.output ≡ spec.address_of [] (get_member (codes "output") (table_view table.now))) }
    ensures decisions { IfOk result (λ places. places.decisions ≡ spec.address_of [] (get_member (codes "decisions") (table_view table.now))) }
    ensures request_record { IfOk result (λ places. places.request_record ≡ spec.address_of [] (get_member (codes "record") (table_view table.now))) }
{
    Ok(Places {
        listen: address_at(alloc, table, "listen", "127.0.0.1:4318")?,
        admin: address_at(alloc, table, "admin", "")?,
        metrics: address_at(alloc, table, "metrics", "")?,
        output: address_at(alloc, table, "output", "")?,
        decisions: address_at(alloc, table, "decisions", "")?,
        request_record: address_at(alloc, table, "record", "")?,
    })
}

/// The text at a key, or its default.
fn address_at(alloc: Global, table: &Table, key: &str, default: &str) -> Result<Text, AllocError>
    ensures { IfOk result (λ text. text ≡ spec.address_of default.now (get_member key.now (table_view table.now))) }
{
    match member(table, key) {
        Some(value) => text_of(alloc, value),
        None => Text::from_str(alloc, default),
    }
}

/// Whether the other text stands at a key of one of two, and not that by default.
pub fn is_other_at(table: &Table, key: ChoiceKey) -> bool
    ensures { result ≡ spec.is_other (choice_row key) (get_member (choice_row key).name (table_view table.now)) }
{
    let (name, _, other) = key.row();
    match member(table, name) {
        Some(Value::String(text)) => text.as_str() == other,
        _ => false,
    }
}

/// The size of a cache of decisions, by its key in the table of the caches, or its default.
pub fn cache_size_at(table: &Table, key: NumberKey) -> usize
    requires lowest { (number_row key).lowest ≤ (number_row key).default }
    requires greatest { (number_row key).default ≤ (number_row key).greatest }
    ensures { result ≡ spec.cache_size (number_row key) (get_member (codes "decision_cache") (table_view table.now)) }
{
    match member(table, "decision_cache") {
        Some(value) => size_in(value, key),
        None => key.row().1 as usize,
    }
}

fn size_in(value: &Value, key: NumberKey) -> usize
    requires lowest { (number_row key).lowest ≤ (number_row key).default }
    requires greatest { (number_row key).default ≤ (number_row key).greatest }
    ensures { result ≡ spec.size_in (number_row key) (view value.now) }
{
    match value {
        Value::Table(sizes) => number_at(sizes, key) as usize,
        _ => key.row().1 as usize,
    }
}

/// The policies, in order, or with `sample_on_first_match` the one that is made of them.
pub fn policies_at(alloc: Global, table: &Table) -> Result<Vec<Policy>, AllocError>
    ensures { IfOk result (λ list. list.items ≡ spec.policies_given (table_view table.now)) }
{
    let policies = listed_at(alloc, table)?;
    if !truth_at(table, "sample_on_first_match") {
        return Ok(policies.into_vec());
    }
    let mut list = Vec::new(alloc);
    list.push(Policy {
        // One policy made of the others, so that no crate above has a setting more (D-035).
        name: Text::from_str(alloc, "")?,
        kind: PolicyKind::Joined {
            join: Join::FirstMatch,
            policies,
        },
    })?;
    Ok(list)
}

/// The policies at their key, in order.
fn listed_at(alloc: Global, table: &Table) -> Result<List<Policy>, AllocError>
    ensures { IfOk result (λ list. list ≡ spec.policies_of (get_member (codes "policies") (table_view table.now))) }
{
    match member(table, "policies") {
        Some(Value::Array(items)) => item_policies(alloc, items),
        _ => Ok(List::new(alloc)),
    }
}

#[cycle(policies)]
fn item_policies(alloc: Global, items: &Array) -> Result<List<Policy>, AllocError>
    ensures { IfOk result (λ list. list ≡ spec.item_policies (array_view items.now)) }
{
    let mut list = List::new(alloc);
    for item in items {
        if let Some(policy) = policy_value(alloc, item)? {
            list.push(policy)?;
        }
    }
    Ok(list)
}

#[cycle(policies)]
fn policy_value(alloc: Global, value: &Value) -> Result<Option<Policy>, AllocError>
    ensures { IfOk result (λ found. found ≡ spec.policy_value (view value.now)) }
{
    match value {
        Value::Table(table) => {
            let nested = parts_policies(alloc, join_at(table), table)?;
            Ok(Some(policy_of(alloc, table, nested)?))
        }
        _ => Ok(None),
    }
}

/// The policies that are joined so, of a policy table.
#[cycle(policies)]
fn parts_policies(alloc: Global, join: Join, table: &Table) -> Result<List<Policy>, AllocError>
    ensures { IfOk result (λ list. list ≡ spec.parts_policies join (table_view table.now)) }
{
    for (key, value) in table {
        if key.as_str() == join_type(join).name() {
            return parts_settings(alloc, join, value);
        }
    }
    Ok(List::new(alloc))
}

#[cycle(policies)]
fn parts_settings(alloc: Global, join: Join, value: &Value) -> Result<List<Policy>, AllocError>
    ensures { IfOk result (λ list. list ≡ spec.parts_settings join (view value.now)) }
{
    match value {
        Value::Table(settings) => sub_policies(alloc, join, settings),
        _ => Ok(List::new(alloc)),
    }
}

#[cycle(policies)]
fn sub_policies(alloc: Global, join: Join, table: &Table) -> Result<List<Policy>, AllocError>
    ensures { IfOk result (λ list. list ≡ spec.sub_policies join (table_view table.now)) }
{
    for (key, value) in table {
        if key.as_str() == sub_key(join) {
            return sub_value(alloc, join, value);
        }
    }
    Ok(List::new(alloc))
}

/// The policies of an array, or of a `not` that of one table.
#[cycle(policies)]
fn sub_value(alloc: Global, join: Join, value: &Value) -> Result<List<Policy>, AllocError>
    ensures { IfOk result (λ list. list ≡ spec.sub_value join (view value.now)) }
{
    match (join, value) {
        (Join::Not, Value::Table(table)) => one_policy(alloc, table),
        (Join::And | Join::Drop | Join::FirstMatch, Value::Array(items)) => {
            item_policies(alloc, items)
        }
        _ => Ok(List::new(alloc)),
    }
}

/// A list of the policy of one table.
#[cycle(policies)]
fn one_policy(alloc: Global, table: &Table) -> Result<List<Policy>, AllocError>
    ensures { IfOk result (λ list. list ≡ spec.sub_value join_is.Not (table_data (table_view table.now))) }
{
    let nested = parts_policies(alloc, join_at(table), table)?;
    let mut list = List::new(alloc);
    list.push(policy_of(alloc, table, nested)?)?;
    Ok(list)
}

/// The policy of a table, with these policies where it is made of others.
#[tactic(auto, unfolding(crate::specs::Values::policy_of))]
fn policy_of(alloc: Global, table: &Table, nested: List<Policy>) -> Result<Policy, AllocError>
    ensures { IfOk result (λ policy. policy ≡ spec.policy_of (table_view table.now) nested) }
{
    Ok(Policy {
        name: text_at(alloc, table, "name")?,
        kind: kind_typed(alloc, type_at(table), table, nested)?,
    })
}

fn kind_typed(
    alloc: Global,
    kind: Option<PolicyType>,
    table: &Table,
    nested: List<Policy>,
) -> Result<PolicyKind, AllocError>
    ensures { IfOk result (λ found. found ≡ spec.kind_typed kind (table_view table.now) nested) }
{
    // What is given for a table with a fault is never used: it is refused.
    match kind {
        None => Ok(PolicyKind::Leaf(Leaf::AlwaysSample)),
        Some(PolicyType::And) => Ok(PolicyKind::Joined {
            join: Join::And,
            policies: nested,
        }),
        Some(PolicyType::Not) => Ok(PolicyKind::Joined {
            join: Join::Not,
            policies: nested,
        }),
        Some(PolicyType::Drop) => Ok(PolicyKind::Joined {
            join: Join::Drop,
            policies: nested,
        }),
        Some(PolicyType::Composite) => Ok(PolicyKind::Joined {
            join: Join::FirstMatch,
            policies: composite_of(alloc, table, nested)?,
        }),
        Some(PolicyType::TraceFlags) => Ok(PolicyKind::Leaf(Leaf::TraceFlags)),
        Some(kind) => kind_by(alloc, kind, table),
    }
}

fn kind_by(alloc: Global, kind: PolicyType, table: &Table) -> Result<PolicyKind, AllocError>
    ensures { IfOk result (λ found. found ≡ spec.kind_by kind (get_member (type_name kind) (table_view table.now))) }
{
    match member(table, kind.name()) {
        Some(value) => kind_of(alloc, kind, value),
        None => Ok(PolicyKind::Leaf(Leaf::AlwaysSample)),
    }
}

fn kind_of(alloc: Global, kind: PolicyType, value: &Value) -> Result<PolicyKind, AllocError>
    ensures { IfOk result (λ found. found ≡ spec.kind_of kind (view value.now)) }
{
    match value {
        Value::Table(settings) => kind_in(alloc, kind, settings),
        _ => Ok(PolicyKind::Leaf(Leaf::AlwaysSample)),
    }
}
