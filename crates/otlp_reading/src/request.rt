//! Requests.
ghost use Rattle.std.specs.Prelude.{◌≡◌, Some};
ghost use Rattle.serde_json.specs.View.{members_view};
ghost use Rattle.otlp_reading.specs.Gives.{Gives};
ghost use Rattle.otlp_reading.specs.Reading.{resource, scope, grouped, scope_spans, resource_spans, request};

use crate::decode_error::DecodeError;
use crate::kinds;
use crate::message::{Message, inner, list_of};
use crate::span::attributes;
use otlp_types::{List, Request, Resource, ResourceSpans, Scope, ScopeSpans, Text};
use serde_json::{Map, Value};
use std::alloc::Global;

impl Message for Resource {
    ghost meaning = { resource };

    fn read(
        alloc: Global,
        keeps_doubles: bool,
        members: &Map<String, Value>,
    ) -> Result<Resource, DecodeError> {
        let (attributes, dropped_attributes_count) = attributes(alloc, keeps_doubles, members)?;
        Ok(Resource {
            attributes,
            dropped_attributes_count,
        })
    }
}

impl Message for Scope {
    ghost meaning = { scope };

    fn read(
        alloc: Global,
        keeps_doubles: bool,
        members: &Map<String, Value>,
    ) -> Result<Scope, DecodeError> {
        let name = kinds::text(alloc, members, "name")?;
        let version = kinds::text(alloc, members, "version")?;
        let (attributes, dropped_attributes_count) = attributes(alloc, keeps_doubles, members)?;
        Ok(Scope {
            name,
            version,
            attributes,
            dropped_attributes_count,
        })
    }
}

/// A message that all of a group share, the messages of the group, and the URL of their schema.
fn grouped<S: Message + Drop, T: Message + Drop>(
    alloc: Global,
    keeps_doubles: bool,
    members: &Map<String, Value>,
    shared: &str,
    list: &str,
) -> Result<(S, List<T>, Text), DecodeError>
    ensures { Gives result
        (grouped (S.meaning keeps_doubles) (T.meaning keeps_doubles) shared.now list.now (members_view members.now.entries)) }
{
    let shared = inner(alloc, keeps_doubles, members, shared)?;
    let all = list_of(alloc, keeps_doubles, members, list)?;
    let schema_url = kinds::text(alloc, members, "schemaUrl")?;
    Ok((shared, all, schema_url))
}

impl Message for ScopeSpans {
    ghost meaning = { scope_spans };

    fn read(
        alloc: Global,
        keeps_doubles: bool,
        members: &Map<String, Value>,
    ) -> Result<ScopeSpans, DecodeError> {
        let (scope, spans, schema_url) = grouped(alloc, keeps_doubles, members, "scope", "spans")?;
        Ok(ScopeSpans {
            scope,
            spans,
            schema_url,
        })
    }
}

impl Message for ResourceSpans {
    ghost meaning = { resource_spans };

    fn read(
        alloc: Global,
        keeps_doubles: bool,
        members: &Map<String, Value>,
    ) -> Result<ResourceSpans, DecodeError> {
        let (resource, scope_spans, schema_url) = grouped(
            alloc,
            keeps_doubles,
            members,
            "resource",
            "scopeSpans",
        )?;
        Ok(ResourceSpans {
            resource,
            scope_spans,
            schema_url,
        })
    }
}

impl Message for Request {
    ghost meaning = { request };

    fn read(
        alloc: Global,
        keeps_doubles: bool,
        members: &Map<String, Value>,
    ) -> Result<Request, DecodeError> {
        let resource_spans = list_of(alloc, keeps_doubles, members, "resourceSpans")?;
        Ok(Request { resource_spans })
    }
}
