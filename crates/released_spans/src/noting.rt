//! The name of the policy that decided, as an attribute of the scope that a span was sent under.
ghost use Rattle.std.specs.Prelude.{◌≡◌, map, length, IfOk, OnOk};
ghost use Rattle.released_spans.specs.Noting.{policy_attribute, with_policy, scope_with_policy, noted, noted_records};

use otlp_types::{AnyValue, Arrival, KeyValue, List, Record, Scope, Shared, Text, TryClone};
use std::alloc::{AllocError, Global};

/// The key of the attribute that names the policy.
const POLICY_KEY: &str = "tailsampling.policy";

/// Notes in the scope of each span the name of its policy, where it has one and there is such a name. `Err` only where
/// memory was refused: some spans may be noted then.
pub fn note_policies(
    alloc: Global,
    names: &[Text],
    policies: &[Option<u16>],
    spans: &mut [Arrival],
) -> Result<(), AllocError>
    requires { length policies.now ≡ length spans.old }
    ensures { OnOk result (map (λ a. a.rec) spans.new ≡ noted_records names.now policies.now (map (λ a. a.rec) spans.old)) }
{
    for place in 0..spans.len() {
        note(alloc, names, policies[place], &mut spans[place].rec)?;
    }
    Ok(())
}

/// Notes the name of a policy in the record's scope, where there is one.
fn note(
    alloc: Global,
    names: &[Text],
    policy: Option<u16>,
    rec: &mut Record,
) -> Result<(), AllocError>
    ensures { OnOk result (rec.new ≡ noted names.now policy rec.old) }
{
    let Some(place) = policy else {
        return Ok(());
    };
    let Some(name) = names.get(place as usize) else {
        return Ok(());
    };
    let scope = scope_with_policy(alloc, rec.scope.get(), name)?;
    rec.scope = Shared::new(alloc, scope)?;
    Ok(())
}

/// The scope with the attribute that names this policy.
fn scope_with_policy(alloc: Global, scope: &Scope, name: &Text) -> Result<Scope, AllocError>
    ensures { IfOk result (λ made. made ≡ scope_with_policy name.now scope.now) }
{
    let attributes = with_policy(alloc, scope.attributes.as_slice(), name)?;
    Ok(Scope {
        name: scope.name.try_clone(alloc)?,
        version: scope.version.try_clone(alloc)?,
        attributes: List::from_vec(attributes),
        dropped_attributes_count: scope.dropped_attributes_count,
    })
}

/// The attributes with the one that names this policy: in the place of the first of its key, or else last.
fn with_policy(
    alloc: Global,
    attributes: &[KeyValue],
    name: &Text,
) -> Result<Vec<KeyValue>, AllocError>
    ensures { IfOk result (λ made. made.items ≡ with_policy name.now attributes.now) }
{
    let mut made = Vec::new(alloc);
    let mut is_named = false;
    for attribute in attributes {
        if !is_named && attribute.key.as_str() == POLICY_KEY {
            made.push(policy_attribute(alloc, name)?)?;
            is_named = true;
        } else {
            made.push(attribute.try_clone(alloc)?)?;
        }
    }
    if !is_named {
        made.push(policy_attribute(alloc, name)?)?;
    }
    Ok(made)
}

/// The attribute that names this policy.
fn policy_attribute(alloc: Global, name: &Text) -> Result<KeyValue, AllocError>
    ensures { IfOk result (λ made. made ≡ policy_attribute name.now) }
{
    Ok(KeyValue {
        key: Text::from_str(alloc, POLICY_KEY)?,
        value: AnyValue::Str(name.try_clone(alloc)?),
    })
}
