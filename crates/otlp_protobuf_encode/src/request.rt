//! Requests, written.
ghost use Rattle.std.specs.Prelude.{◌≡◌, None, IfErr, OnOk};
ghost use Rattle.protobuf_writer.specs.Writing.{Adds};
ghost use Rattle.protobuf_writer.specs.Defaults.{message_field};
ghost use Rattle.otlp_protobuf_encode.specs.Writing.{resource_fields, scope_fields, scope_spans_fields, resource_spans_fields, request_fields};
ghost use Rattle.otlp_protobuf_encode.specs.Faults.{resource_fault, scope_fault, scope_spans_fault, resource_spans_fault, request_fault, Tells};
ghost use Rattle.otlp_protobuf_encode.specs.ReadsBack.{ResourceReadsBack, ScopeReadsBack, ScopeSpansReadBack, ResourceSpansReadBack, RequestReadsBack};

use crate::encode_error::EncodeError;
use crate::kinds::{write_count, write_string};
use crate::writing::{Written, list, message};
use otlp_types::{Request, Resource, ResourceSpans, Scope, ScopeSpans};
use std::alloc::Global;

impl Written for Resource {
    ghost fields = { resource_fields };

    ghost fault = { resource_fault };

    ghost reads_back = { ResourceReadsBack };

    fn write(&self, alloc: Global, out: &mut Vec<u8>) -> Result<(), EncodeError> {
        list(alloc, out, 1, &self.attributes)?;
        write_count(out, 2, self.dropped_attributes_count)?;
        Ok(())
    }
}

/// The field `resource`, unless it has no field.
fn write_resource(alloc: Global, out: &mut Vec<u8>, resource: &Resource) -> Result<(), EncodeError>
    ensures bytes { OnOk result (Adds out.old.items out.new.items (message_field 1 (resource_fields resource.now))) }
    ensures back { OnOk result (ResourceReadsBack resource.now) }
    ensures writable { OnOk result (resource_fault resource.now ≡ None) }
    ensures fault { IfErr result (Tells (resource_fault resource.now)) }
{
    if resource.attributes.as_slice().is_empty() && resource.dropped_attributes_count == 0 {
        return Ok(());
    }
    message(alloc, out, 1, resource)?;
    Ok(())
}

impl Written for Scope {
    ghost fields = { scope_fields };

    ghost fault = { scope_fault };

    ghost reads_back = { ScopeReadsBack };

    fn write(&self, alloc: Global, out: &mut Vec<u8>) -> Result<(), EncodeError> {
        write_string(out, 1, &self.name)?;
        write_string(out, 2, &self.version)?;
        list(alloc, out, 3, &self.attributes)?;
        write_count(out, 4, self.dropped_attributes_count)?;
        Ok(())
    }
}

/// The field `scope`, unless it has no field.
fn write_scope(alloc: Global, out: &mut Vec<u8>, scope: &Scope) -> Result<(), EncodeError>
    ensures bytes { OnOk result (Adds out.old.items out.new.items (message_field 1 (scope_fields scope.now))) }
    ensures back { OnOk result (ScopeReadsBack scope.now) }
    ensures writable { OnOk result (scope_fault scope.now ≡ None) }
    ensures fault { IfErr result (Tells (scope_fault scope.now)) }
{
    if scope.name.as_str().is_empty()
        && scope.version.as_str().is_empty()
        && scope.attributes.as_slice().is_empty()
        && scope.dropped_attributes_count == 0
    {
        return Ok(());
    }
    message(alloc, out, 1, scope)?;
    Ok(())
}

impl Written for ScopeSpans {
    ghost fields = { scope_spans_fields };

    ghost fault = { scope_spans_fault };

    ghost reads_back = { ScopeSpansReadBack };

    fn write(&self, alloc: Global, out: &mut Vec<u8>) -> Result<(), EncodeError> {
        write_scope(alloc, out, &self.scope)?;
        list(alloc, out, 2, &self.spans)?;
        write_string(out, 3, &self.schema_url)?;
        Ok(())
    }
}

impl Written for ResourceSpans {
    ghost fields = { resource_spans_fields };

    ghost fault = { resource_spans_fault };

    ghost reads_back = { ResourceSpansReadBack };

    fn write(&self, alloc: Global, out: &mut Vec<u8>) -> Result<(), EncodeError> {
        write_resource(alloc, out, &self.resource)?;
        list(alloc, out, 2, &self.scope_spans)?;
        write_string(out, 3, &self.schema_url)?;
        Ok(())
    }
}

impl Written for Request {
    ghost fields = { request_fields };

    ghost fault = { request_fault };

    ghost reads_back = { RequestReadsBack };

    fn write(&self, alloc: Global, out: &mut Vec<u8>) -> Result<(), EncodeError> {
        list(alloc, out, 1, &self.resource_spans)?;
        Ok(())
    }
}
