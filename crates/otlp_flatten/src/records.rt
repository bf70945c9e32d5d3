//! A request becomes records, in document order.
ghost use Rattle.std.specs.Prelude.{◌≡◌, ◌++◌, ◌-◌, ◌^◌, IfOk, OnOk, length, map, flat_map, min};
ghost use Rattle.std.specs.List.{sum_by};
ghost use Rattle.otlp_flatten.specs.Flat.{record_with, scope_records, resource_records, records_of};

use otlp_types::{
    Boxed, List, Record, Request, Resource, ResourceSpans, Scope, ScopeSpans, Shared, Span, Text,
};
use std::alloc::{AllocError, Global};

/// The spans of a request in document order: resource, scope, span (`trace.proto` v1). `Err` only where memory was
/// refused.
///
/// Room for all of them is taken once, at the start. Each span is moved into memory of its own; spans of one resource,
/// or of one scope, share it.
pub fn flatten(alloc: Global, request: Request) -> Result<Vec<Record>, AllocError>
    ensures { IfOk result (λ records. records.items ≡ records_of request) }
{
    let mut records = Vec::with_capacity(alloc, span_count(&request))?;
    for group in request.resource_spans.into_vec() {
        push_resource(alloc, &mut records, group)?;
    }
    Ok(records)
}

/// How many spans a request has.
fn span_count(request: &Request) -> usize
    ensures { result ≡ min
        (sum_by (λ group. sum_by (λ part. length part.spans) group.scope_spans) request.now.resource_spans)
        (2 ^ 64 - 1) }
{
    let mut count = 0usize;
    for group in request.resource_spans.as_slice() {
        count = count.saturating_add(scope_span_count(group.scope_spans.as_slice()));
    }
    count
}

/// How many spans the groups of one resource have.
fn scope_span_count(groups: &[ScopeSpans]) -> usize
    ensures { result ≡ min (sum_by (λ group. length group.spans) groups.now) (2 ^ 64 - 1) }
{
    let mut count = 0usize;
    for group in groups {
        count = count.saturating_add(group.spans.len());
    }
    count
}

/// A resource or a scope with its schema URL, both shared by the spans under it.
#[derive(Drop)]
struct Parent<T> {
    value: Shared<T>,
    schema_url: Shared<Text>,
}

impl<T: Drop> Parent<T> {
    fn new(alloc: Global, value: T, schema_url: Text) -> Result<Parent<T>, AllocError>
        ensures value { IfOk result (λ it. it.value ≡ value) }
        ensures schema_url { IfOk result (λ it. it.schema_url ≡ schema_url) }
    {
        Ok(Parent {
            value: Shared::new(alloc, value)?,
            schema_url: Shared::new(alloc, schema_url)?,
        })
    }

    fn share(&self) -> Result<Parent<T>, AllocError>
        ensures { IfOk result (λ it. it ≡ self.now) }
    {
        Ok(Parent {
            value: self.value.share()?,
            schema_url: self.schema_url.share()?,
        })
    }
}

fn push_resource(
    alloc: Global,
    records: &mut Vec<Record>,
    group: ResourceSpans,
) -> Result<(), AllocError>
    ensures { OnOk result (records.new.items ≡ records.old.items ++ resource_records group) }
{
    let resource = Parent::new(alloc, group.resource, group.schema_url)?;
    push_scopes(alloc, records, &resource, group.scope_spans)
}

fn push_scopes(
    alloc: Global,
    records: &mut Vec<Record>,
    resource: &Parent<Resource>,
    groups: List<ScopeSpans>,
) -> Result<(), AllocError>
    ensures { OnOk result (records.new.items
        ≡ records.old.items ++ flat_map (scope_records resource.now.value resource.now.schema_url) groups) }
{
    for group in groups.into_vec() {
        push_scope(alloc, records, resource, group)?;
    }
    Ok(())
}

fn push_scope(
    alloc: Global,
    records: &mut Vec<Record>,
    resource: &Parent<Resource>,
    group: ScopeSpans,
) -> Result<(), AllocError>
    ensures { OnOk result (records.new.items
        ≡ records.old.items ++ scope_records resource.now.value resource.now.schema_url group) }
{
    let scope = Parent::new(alloc, group.scope, group.schema_url)?;
    push_spans(alloc, records, resource, &scope, group.spans)
}

fn push_spans(
    alloc: Global,
    records: &mut Vec<Record>,
    resource: &Parent<Resource>,
    scope: &Parent<Scope>,
    spans: List<Span>,
) -> Result<(), AllocError>
    ensures { OnOk result (records.new.items ≡ records.old.items
        ++ map (record_with resource.now.value resource.now.schema_url scope.now.value scope.now.schema_url) spans) }
{
    for span in spans.into_vec() {
        let record = record_with(alloc, resource, scope, span)?;
        records.push(record)?;
    }
    Ok(())
}

fn record_with(
    alloc: Global,
    resource: &Parent<Resource>,
    scope: &Parent<Scope>,
    span: Span,
) -> Result<Record, AllocError>
    ensures { IfOk result (λ r. r ≡ record_with resource.now.value resource.now.schema_url
        scope.now.value scope.now.schema_url span) }
{
    let span = Boxed::new(alloc, span)?;
    let resource = resource.share()?;
    let scope = scope.share()?;
    Ok(Record {
        resource: resource.value,
        resource_schema_url: resource.schema_url,
        scope: scope.value,
        scope_schema_url: scope.schema_url,
        span,
    })
}
