//! Records become a request again: neighbours of one resource, and of one scope, stand together.
ghost use Rattle.std.specs.Prelude.{◌≡◌, ◌<◌, ℕ, Some, length, map, slice_get, option_map, IfOk, ◌≤◌};
ghost use Rattle.std.specs.List.{AllByRecursion};
ghost use Rattle.otlp_flatten.specs.Flat.{records_of, resource_records, scope_records};
ghost use Rattle.otlp_flatten.specs.Grouped.{IsGrouped, IsResourceGroup, resource_key, scope_key};
ghost use Rattle.otlp_flatten.specs.Runs.{resource_of, scope_of};

use crate::runs::{HasRecord, ResourcePart, ScopePart, run};
use otlp_types::{List, Request, ResourceSpans, ScopeSpans, TryClone};
use std::alloc::{AllocError, Global};

/// Records grouped as a request: neighbours of equal resource and resource schema URL share a `ResourceSpans`, and
/// inside it neighbours of equal scope and scope schema URL share a `ScopeSpans`. `Err` only where memory was refused.
///
/// Each span is moved, and an empty one stands in its place after that; a resource or scope is copied once a group.
pub fn group<T: HasRecord>(alloc: Global, spans: &mut [T]) -> Result<Request, AllocError>
    ensures flat { IfOk result (λ request. records_of request ≡ map T.record_in spans.old) }
    ensures grouped { IfOk result IsGrouped }
{
    let mut groups = List::new(alloc);
    let mut rest = spans;
    while !rest.is_empty() {
        let count = run::<ResourcePart, T>(rest);
        let (front, behind) = rest.split_at_mut(count);
        groups.push(resource_group(alloc, front)?)?;
        rest = behind;
    }
    Ok(Request {
        resource_spans: groups,
    })
}

/// The group of spans of one resource.
fn resource_group<T: HasRecord>(alloc: Global, spans: &mut [T]) -> Result<ResourceSpans, AllocError>
    requires some { 0 < length spans.old }
    requires same { (k : ℕ) → k < length spans.old → option_map (λ x. resource_of (T.record_in x)) (slice_get spans.old k)
        ≡ option_map (λ x. resource_of (T.record_in x)) (slice_get spans.old 0) }
    ensures grouped { IfOk result IsResourceGroup }
    ensures flat { IfOk result (λ group. resource_records group ≡ map T.record_in spans.old) }
    ensures key { IfOk result (λ group. Some (resource_key group)
        ≡ option_map (λ x. resource_of (T.record_in x)) (slice_get spans.old 0)) }
{
    let first = spans[0].rec();
    let mut group = ResourceSpans {
        resource: first.resource.get().try_clone(alloc)?,
        scope_spans: List::new(alloc),
        schema_url: first.resource_schema_url.get().try_clone(alloc)?,
    };
    let mut rest = spans;
    while !rest.is_empty() {
        let count = run::<ScopePart, T>(rest);
        let (front, behind) = rest.split_at_mut(count);
        group.scope_spans.push(scope_group(alloc, front)?)?;
        rest = behind;
    }
    Ok(group)
}

/// The group of spans of one scope.
fn scope_group<T: HasRecord>(alloc: Global, items: &mut [T]) -> Result<ScopeSpans, AllocError>
    requires some { 0 < length items.old }
    ensures spans { IfOk result (λ group. group.spans ≡ map (λ x. (T.record_in x).span) items.old) }
    ensures key { IfOk result (λ group. Some (scope_key group)
        ≡ option_map (λ x. scope_of (T.record_in x)) (slice_get items.old 0)) }
{
    let first = items[0].rec();
    let scope = first.scope.get().try_clone(alloc)?;
    let schema_url = first.scope_schema_url.get().try_clone(alloc)?;
    let mut spans = List::from_vec(Vec::with_capacity(alloc, items.len())?);
    for item in items.iter_mut() {
        spans.push(item.take_span(alloc))?;
    }
    Ok(ScopeSpans {
        scope,
        spans,
        schema_url,
    })
}
