//! A span as a block beside the same span as a tree.
use block_json::{block_size, put_span};
use otlp_json::encode;
use otlp_types::{List, Request, Resource, ResourceSpans, Scope, ScopeSpans, Span, Text};
use span_block::{PackError, SpanBlock};
use std::alloc::{AllocError, Global};

/// What stands before a span in the text of a request that holds it alone, and what behind it.
const BEFORE: &[u8] = b"{\"resourceSpans\":[{\"scopeSpans\":[{\"spans\":[";

const BEHIND: &[u8] = b"]}]}]}";

/// What differs.
#[derive(Clone, Copy)]
pub enum Difference {
    None,
    Text,
    Size,
    Unpacked,
}

impl Difference {
    /// What it is told as.
    pub fn name(self) -> &'static str {
        match self {
            Difference::None => "nothing differs",
            Difference::Text => "the text differs",
            Difference::Size => "the size differs",
            Difference::Unpacked => "the span that is unpacked differs",
        }
    }
}

/// The text that `otlp_json` writes of a request that holds the span alone.
pub fn text_alone(alloc: Global, span: Span) -> Result<Vec<u8>, AllocError> {
    let scope_spans = ScopeSpans {
        scope: Scope::empty(alloc),
        spans: List::from_vec(vec![in alloc; span]?),
        schema_url: Text::new(alloc),
    };
    let resource_spans = ResourceSpans {
        resource: Resource::empty(alloc),
        scope_spans: List::from_vec(vec![in alloc; scope_spans]?),
        schema_url: Text::new(alloc),
    };
    let request = Request {
        resource_spans: List::from_vec(vec![in alloc; resource_spans]?),
    };
    encode(alloc, &request)
}

/// What differs of a span, or `None` where it has no block. `Err` where memory was refused.
pub fn compare(alloc: Global, span: Span) -> Result<Option<Difference>, AllocError> {
    let block = match SpanBlock::pack(alloc, &span) {
        Ok(block) => block,
        Err(PackError::NoBlock) => return Ok(None),
        Err(PackError::NoMemory) => return Err(AllocError),
    };
    let mut text = Vec::new(alloc);
    text.extend_from_slice(BEFORE)?;
    put_span(alloc, &mut text, &block)?;
    let length = (text.len() as u64).saturating_sub(BEFORE.len() as u64);
    text.extend_from_slice(BEHIND)?;
    let expected = text_alone(alloc, span)?;
    if text.as_slice() != expected.as_slice() {
        return Ok(Some(Difference::Text));
    }
    if block_size(&block) != length {
        return Ok(Some(Difference::Size));
    }
    if text_alone(alloc, block.unpack(alloc)?)?.as_slice() != expected.as_slice() {
        return Ok(Some(Difference::Unpacked));
    }
    Ok(Some(Difference::None))
}
