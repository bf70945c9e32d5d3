//! Requests, read from tokens.
ghost use Rattle.std.specs.Prelude.{◌≡◌, IfOk, IfErr, IfSome};
ghost use Rattle.otlp_reading.specs.Reading.{scope, scope_spans, resource_spans, request};
ghost use Rattle.otlp_reading.specs.Decoding.{IsRequest};
ghost use Rattle.otlp_stream.specs.SoFar.{ScopeSoFar, ScopeSpansSoFar, ResourceSpansSoFar, RequestSoFar};

use crate::attributes::AttributesPart;
use crate::spans::SpanParts;
use crate::stream::{Building, list_of, message, message_of};
use crate::take::{Declined, put, skip, text};
use json::Reader;
use otlp_reading::DecodeError;
use otlp_types::{List, Request, Resource, ResourceSpans, Scope, ScopeSpans, Text};
use std::alloc::Global;

/// `Scope`, as far as it is read.
#[derive(Drop)]
pub struct ScopeParts {
    name: Text,
    version: Text,
    rest: AttributesPart,
}

impl Building for ScopeParts {
    type Message = Scope;

    ghost meaning = { scope };

    ghost so_far = { ScopeSoFar };

    fn start(alloc: Global) -> ScopeParts {
        ScopeParts {
            name: Text::new(alloc),
            version: Text::new(alloc),
            rest: AttributesPart::start(alloc),
        }
    }

    #[inline(always)]
    fn field(
        &mut self,
        alloc: Global,
        keeps_doubles: bool,
        reader: &mut Reader<'_>,
        depth: usize,
        name: &str,
    ) -> Result<(), Declined> {
        match name {
            "name" => put(&mut self.name, text(alloc, reader)),
            "version" => put(&mut self.version, text(alloc, reader)),
            _ => self.rest.field(alloc, keeps_doubles, reader, depth, name),
        }
    }

    fn build(self) -> Scope {
        let rest = self.rest.build();
        Scope {
            name: self.name,
            version: self.version,
            attributes: rest.attributes,
            dropped_attributes_count: rest.dropped_attributes_count,
        }
    }
}

impl Building for ScopeSpans {
    type Message = ScopeSpans;

    ghost meaning = { scope_spans };

    ghost so_far = { ScopeSpansSoFar };

    fn start(alloc: Global) -> ScopeSpans {
        ScopeSpans {
            scope: Scope::empty(alloc),
            spans: List::new(alloc),
            schema_url: Text::new(alloc),
        }
    }

    #[inline(always)]
    fn field(
        &mut self,
        alloc: Global,
        keeps_doubles: bool,
        reader: &mut Reader<'_>,
        depth: usize,
        name: &str,
    ) -> Result<(), Declined> {
        match name {
            "scope" => put(
                &mut self.scope,
                message::<ScopeParts>(alloc, keeps_doubles, reader, depth),
            ),
            "spans" => put(
                &mut self.spans,
                list_of::<SpanParts>(alloc, keeps_doubles, reader, depth),
            ),
            "schemaUrl" => put(&mut self.schema_url, text(alloc, reader)),
            _ => skip(reader, depth),
        }
    }

    fn build(self) -> ScopeSpans {
        self
    }
}

impl Building for ResourceSpans {
    type Message = ResourceSpans;

    ghost meaning = { resource_spans };

    ghost so_far = { ResourceSpansSoFar };

    fn start(alloc: Global) -> ResourceSpans {
        ResourceSpans {
            resource: Resource::empty(alloc),
            scope_spans: List::new(alloc),
            schema_url: Text::new(alloc),
        }
    }

    #[inline(always)]
    fn field(
        &mut self,
        alloc: Global,
        keeps_doubles: bool,
        reader: &mut Reader<'_>,
        depth: usize,
        name: &str,
    ) -> Result<(), Declined> {
        match name {
            "resource" => put(
                &mut self.resource,
                message::<AttributesPart>(alloc, keeps_doubles, reader, depth),
            ),
            "scopeSpans" => put(
                &mut self.scope_spans,
                list_of::<ScopeSpans>(alloc, keeps_doubles, reader, depth),
            ),
            "schemaUrl" => put(&mut self.schema_url, text(alloc, reader)),
            _ => skip(reader, depth),
        }
    }

    fn build(self) -> ResourceSpans {
        self
    }
}

impl Building for Request {
    type Message = Request;

    ghost meaning = { request };

    ghost so_far = { RequestSoFar };

    fn start(alloc: Global) -> Request {
        Request {
            resource_spans: List::new(alloc),
        }
    }

    #[inline(always)]
    fn field(
        &mut self,
        alloc: Global,
        keeps_doubles: bool,
        reader: &mut Reader<'_>,
        depth: usize,
        name: &str,
    ) -> Result<(), Declined> {
        match name {
            "resourceSpans" => put(
                &mut self.resource_spans,
                list_of::<ResourceSpans>(alloc, keeps_doubles, reader, depth),
            ),
            _ => skip(reader, depth),
        }
    }

    fn build(self) -> Request {
        self
    }
}

/// The request that the bytes write, where they are plain. `Err` only where memory was refused.
pub fn plain_request(
    alloc: Global,
    keeps_doubles: bool,
    bytes: &[u8],
) -> Result<Option<Request>, DecodeError>
    ensures plain { IfOk result (λ found. IfSome found (IsRequest keeps_doubles bytes.now)) }
    ensures memory { IfErr result (λ e. e ≡ DecodeError.NoMemory) }
{
    match message_of::<Request>(alloc, keeps_doubles, bytes) {
        Ok(request) => Ok(Some(request)),
        Err(Declined::Declined) => Ok(None),
        Err(Declined::NoMemory) => Err(DecodeError::NoMemory),
    }
}
