//! Where a fault of policies, or a condition, stands, as it is written there.
ghost use Rattle.std.specs.Prelude.{◌≡◌, IfOk, option_map, string_bytes};
ghost use Rattle.toml.specs.View.{view, table_view, array_view, items_view};
ghost use Rattle.policy_places.specs.Walk as spec;

use crate::bounds::{are_crossed, empty_values};
use crate::conditions::text_place;
use crate::doubled::doubled_name;
use crate::places::{item_place, key_place};
use config_faults::{PolicyType, join_at, join_type, member, sub_key, type_at};
use policy_tree::{Join, PolicyFault};
use std::alloc::{AllocError, Global};
use toml::value::Array;
use toml::{Table, Value};

/// Where a fault of policies stands.
#[derive(Drop)]
pub struct FaultPlace {
    /// The keys that lead to the list of policies, to the settings of a policy, or to the values that it looks for.
    pub keys: String,
    /// The name that two policies of that list have, where this is the fault.
    pub name: Option<String>,
}

/// What is looked for in policies.
#[derive(Clone, Copy)]
pub(crate) enum Sought<'a> {
    /// A fault.
    Fault(PolicyFault),
    /// A policy `ottl_condition` that has this text at this key.
    Condition(&'a str, &'a str),
}

/// Where in the table of a configuration a fault of policies stands first, in the order of the text: an empty list, two
/// policies of one list with the same name, bounds that leave nothing between them, or a policy without values. It is
/// nothing where none of it is written so: then it only follows from another fault, since a policy that is no table is
/// left out, and a name or values with a fault count as empty. Of the other faults no place is told.
pub fn fault_place(
    alloc: Global,
    table: &Table,
    fault: PolicyFault,
) -> Result<Option<FaultPlace>, AllocError>
    ensures { IfOk result (λ found. spec.seen found ≡ spec.fault_place fault (table_view table.now)) }
{
    in_policies(alloc, table, Sought::Fault(fault))
}

/// Where in the table of a configuration a policy `ottl_condition` has this text first, at the key `span` or `spanevent`.
pub fn condition_place(
    alloc: Global,
    table: &Table,
    key: &str,
    text: &str,
) -> Result<Option<String>, AllocError>
    ensures { IfOk result (λ found. option_map string_bytes found ≡ spec.condition_place key.now text.now (table_view table.now)) }
{
    match in_policies(alloc, table, Sought::Condition(key, text))? {
        Some(place) => Ok(Some(place.keys)),
        None => Ok(None),
    }
}

/// In the table of a configuration.
fn in_policies(
    alloc: Global,
    table: &Table,
    sought: Sought<'_>,
) -> Result<Option<FaultPlace>, AllocError>
    ensures { IfOk result (λ found. spec.seen found ≡ spec.sought_place (spec.sought_of sought.entry) (table_view table.now)) }
{
    match member(table, "policies") {
        Some(Value::Array(items)) => in_list(alloc, "policies", items, sought),
        _ => Ok(None),
    }
}

/// In a list of policies at a place.
#[cycle(policies)]
fn in_list(
    alloc: Global,
    place: &str,
    items: &Array,
    sought: Sought<'_>,
) -> Result<Option<FaultPlace>, AllocError>
    ensures { IfOk result (λ found. spec.seen found ≡ spec.list_place (spec.sought_of sought.entry) place.now (array_view items.now)) }
{
    let own = own_place(alloc, place, items, sought)?;
    if own.is_some() {
        return Ok(own);
    }
    in_items(alloc, place, items, sought)
}

/// In one of the policies of a list at a place.
#[cycle(policies)]
fn in_items(
    alloc: Global,
    place: &str,
    items: &Array,
    sought: Sought<'_>,
) -> Result<Option<FaultPlace>, AllocError>
    ensures { IfOk result (λ found. spec.seen found ≡ spec.items_place (spec.sought_of sought.entry) place.now 0 (array_view items.now)) }
{
    let mut index = 0u64;
    for item in items {
        let here = item_place(alloc, place, index)?;
        let found = in_policy(alloc, here.as_str(), item, sought)?;
        if found.is_some() {
            return Ok(found);
        }
        index = index.saturating_add(1);
    }
    Ok(None)
}

/// In a policy at a place, where it is a table.
#[cycle(policies)]
fn in_policy(
    alloc: Global,
    place: &str,
    value: &Value,
    sought: Sought<'_>,
) -> Result<Option<FaultPlace>, AllocError>
    ensures { IfOk result (λ found. spec.seen found ≡ spec.policy_place (spec.sought_of sought.entry) place.now (view value.now)) }
{
    match value {
        Value::Table(table) => match type_at(table) {
            Some(PolicyType::And | PolicyType::Not | PolicyType::Drop | PolicyType::Composite) =>
                in_parts(alloc, place, join_at(table), table, sought),
            Some(kind) => leaf_place(alloc, place, kind, table, sought),
            None => Ok(None),
        },
        _ => Ok(None),
    }
}

/// In the settings of a policy that is joined so, in a policy table.
#[cycle(policies)]
fn in_parts(
    alloc: Global,
    place: &str,
    join: Join,
    table: &Table,
    sought: Sought<'_>,
) -> Result<Option<FaultPlace>, AllocError>
    ensures { IfOk result (λ found. spec.seen found ≡ spec.parts_place (spec.sought_of sought.entry) place.now join (table_view table.now)) }
{
    for (key, value) in table {
        if key.as_str() == join_type(join).name() {
            let here = key_place(alloc, place, join_type(join).name())?;
            return in_settings(alloc, here.as_str(), join, value, sought);
        }
    }
    Ok(None)
}

#[cycle(policies)]
fn in_settings(
    alloc: Global,
    place: &str,
    join: Join,
    value: &Value,
    sought: Sought<'_>,
) -> Result<Option<FaultPlace>, AllocError>
    ensures { IfOk result (λ found. spec.seen found ≡ spec.settings_place (spec.sought_of sought.entry) place.now join (view value.now)) }
{
    match value {
        Value::Table(table) => in_sub_policies(alloc, place, join, table, sought),
        _ => Ok(None),
    }
}

#[cycle(policies)]
fn in_sub_policies(
    alloc: Global,
    place: &str,
    join: Join,
    table: &Table,
    sought: Sought<'_>,
) -> Result<Option<FaultPlace>, AllocError>
    ensures { IfOk result (λ found. spec.seen found ≡ spec.sub_policies_place (spec.sought_of sought.entry) place.now join (table_view table.now)) }
{
    for (key, value) in table {
        if key.as_str() == sub_key(join) {
            let here = key_place(alloc, place, sub_key(join))?;
            return in_sub_value(alloc, here.as_str(), join, value, sought);
        }
    }
    Ok(None)
}

/// In the policies that are joined: a list of policy tables, or of a `not` one policy table.
#[cycle(policies)]
fn in_sub_value(
    alloc: Global,
    place: &str,
    join: Join,
    value: &Value,
    sought: Sought<'_>,
) -> Result<Option<FaultPlace>, AllocError>
    ensures { IfOk result (λ found. spec.seen found ≡ spec.sub_value_place (spec.sought_of sought.entry) place.now join (view value.now)) }
{
    match (join, value) {
        (Join::Not, _) => in_policy(alloc, place, value, sought),
        (Join::And | Join::Drop | Join::FirstMatch, Value::Array(items)) => {
            in_list(alloc, place, items, sought)
        }
        _ => Ok(None),
    }
}

/// Of a list at a place its own fault, where it is looked for: it is empty, or two of its policies have the same name.
fn own_place(
    alloc: Global,
    place: &str,
    items: &Array,
    sought: Sought<'_>,
) -> Result<Option<FaultPlace>, AllocError>
    ensures { IfOk result (λ found. spec.seen found ≡ spec.own_place (spec.sought_of sought.entry) place.now (array_view items.now)) }
{
    match sought {
        Sought::Fault(PolicyFault::EmptyList) => empty_place(alloc, place, items.as_slice()),
        Sought::Fault(PolicyFault::SameName) => {
            named_place(alloc, place, doubled_name(items.as_slice()))
        }
        _ => Ok(None),
    }
}

/// A list's place, where it is empty.
fn empty_place(
    alloc: Global,
    place: &str,
    items: &[Value],
) -> Result<Option<FaultPlace>, AllocError>
    ensures { IfOk result (λ found. spec.seen found ≡ spec.empty_place place.now (items_view items.now)) }
{
    match items {
        [] => Ok(Some(place_of(alloc, place)?)),
        [_, ..] => Ok(None),
    }
}

/// A list's place, where two of its policies have this name.
fn named_place(
    alloc: Global,
    place: &str,
    name: Option<&str>,
) -> Result<Option<FaultPlace>, AllocError>
    ensures { IfOk result (λ found. spec.seen found ≡ spec.named_place place.now (option_map (λ n. n.now) name.entry)) }
{
    match name {
        Some(name) => Ok(Some(FaultPlace {
            keys: String::from_str(alloc, place)?,
            name: Some(String::from_str(alloc, name)?),
        })),
        None => Ok(None),
    }
}

/// Of a policy table at a place, of a type that isn't made of others, the fault of its bounds or of its values, or a
/// condition.
fn leaf_place(
    alloc: Global,
    place: &str,
    kind: PolicyType,
    table: &Table,
    sought: Sought<'_>,
) -> Result<Option<FaultPlace>, AllocError>
    ensures { IfOk result (λ found. spec.seen found ≡ spec.leaf_place (spec.sought_of sought.entry) place.now kind (table_view table.now)) }
{
    let here = key_place(alloc, place, kind.name())?;
    match member(table, kind.name()) {
        Some(value) => leaf_value_place(alloc, here.as_str(), kind, value, sought),
        None => Ok(None),
    }
}

fn leaf_value_place(
    alloc: Global,
    place: &str,
    kind: PolicyType,
    value: &Value,
    sought: Sought<'_>,
) -> Result<Option<FaultPlace>, AllocError>
    ensures { IfOk result (λ found. spec.seen found ≡ spec.leaf_value_place (spec.sought_of sought.entry) place.now kind (view value.now)) }
{
    match value {
        Value::Table(settings) => leaf_settings_place(alloc, place, kind, settings, sought),
        _ => Ok(None),
    }
}

/// Of such settings at a place.
#[tactic(auto, unfolding(crate::specs::Walk::leaf_settings_place))]
fn leaf_settings_place(
    alloc: Global,
    place: &str,
    kind: PolicyType,
    settings: &Table,
    sought: Sought<'_>,
) -> Result<Option<FaultPlace>, AllocError>
    ensures { IfOk result (λ found. spec.seen found ≡ spec.leaf_settings_place (spec.sought_of sought.entry) place.now kind (table_view settings.now)) }
{
    match sought {
        Sought::Fault(PolicyFault::CrossedBounds) if are_crossed(kind, settings) => {
            Ok(Some(place_of(alloc, place)?))
        }
        Sought::Fault(PolicyFault::NoValues) => match empty_values(kind, settings) {
            Some(key) => {
                let values = key_place(alloc, place, key)?;
                Ok(Some(place_of(alloc, values.as_str())?))
            }
            None => Ok(None),
        },
        Sought::Condition(key, text) if kind == PolicyType::OttlCondition => {
            let texts = key_place(alloc, place, key)?;
            text_place(alloc, texts.as_str(), member(settings, key), text)
        }
        _ => Ok(None),
    }
}

/// A place, without a name.
pub(crate) fn place_of(alloc: Global, place: &str) -> Result<FaultPlace, AllocError>
    ensures { IfOk result (λ found. spec.seen_place found ≡ spec.unnamed place.now) }
{
    Ok(FaultPlace {
        keys: String::from_str(alloc, place)?,
        name: None,
    })
}
