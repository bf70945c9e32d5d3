//! Requests: resources, scopes and their spans (OTLP 1.x, `trace.proto` v1).
ghost use Rattle.std.specs.Prelude.{◌≡◌, IfOk};
ghost use Rattle.otlp_types.specs.Empty.{no_resource, no_scope};

use crate::list::{List, Text, TryClone, both};
use crate::span::Span;
use crate::value::KeyValue;
use std::alloc::{AllocError, Global};

/// What sends spans (`resource.proto` v1, `Resource`).
#[derive(Drop)]
pub struct Resource {
    pub attributes: List<KeyValue>,
    pub dropped_attributes_count: u32,
}

/// The library that made spans (`common.proto` v1, `InstrumentationScope`).
#[derive(Drop)]
pub struct Scope {
    pub name: Text,
    pub version: Text,
    pub attributes: List<KeyValue>,
    pub dropped_attributes_count: u32,
}

/// The spans of one scope (`trace.proto` v1, `ScopeSpans`).
#[derive(Drop)]
pub struct ScopeSpans {
    pub scope: Scope,
    pub spans: List<Span>,
    pub schema_url: Text,
}

/// The spans of one resource (`trace.proto` v1, `ResourceSpans`).
#[derive(Drop)]
pub struct ResourceSpans {
    pub resource: Resource,
    pub scope_spans: List<ScopeSpans>,
    pub schema_url: Text,
}

/// A request to take traces (OTLP 1.x, `ExportTraceServiceRequest`).
#[derive(Drop)]
pub struct Request {
    pub resource_spans: List<ResourceSpans>,
}

impl Resource {
    /// A resource of which nothing is told. It takes no memory.
    pub fn empty(alloc: Global) -> Resource
        ensures { result ≡ no_resource }
    {
        Resource {
            attributes: List::new(alloc),
            dropped_attributes_count: 0,
        }
    }
}

impl Scope {
    /// A scope of which nothing is told. It takes no memory.
    pub fn empty(alloc: Global) -> Scope
        ensures { result ≡ no_scope }
    {
        Scope {
            name: Text::new(alloc),
            version: Text::new(alloc),
            attributes: List::new(alloc),
            dropped_attributes_count: 0,
        }
    }
}

impl TryClone for Resource {
    fn try_clone(&self, alloc: Global) -> Result<Resource, AllocError> {
        Ok(Resource {
            attributes: self.attributes.try_clone(alloc)?,
            dropped_attributes_count: self.dropped_attributes_count,
        })
    }
}

impl TryClone for Scope {
    fn try_clone(&self, alloc: Global) -> Result<Scope, AllocError> {
        let (name, version) = both(alloc, &self.name, &self.version)?;
        Ok(Scope {
            name,
            version,
            attributes: self.attributes.try_clone(alloc)?,
            dropped_attributes_count: self.dropped_attributes_count,
        })
    }
}
