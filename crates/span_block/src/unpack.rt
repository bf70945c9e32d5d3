//! Blocks as trees again.
ghost use Rattle.std.specs.Prelude.{◌≡◌, Some, IfOk};
ghost use Rattle.protobuf_writer.specs.Writing.{message_bytes};
ghost use Rattle.otlp_types.specs.declared.span.Span.{Span};
ghost use Rattle.otlp_protobuf_encode.specs.Writing.{request_fields};
ghost use Rattle.span_block.specs.Block.{block_of};
ghost use Rattle.span_block.specs.Alone.{alone};

use crate::block::SpanBlock;
use otlp_protobuf::decode;
use otlp_types::{Request, Span};
use protobuf_writer::{begin_message, end_message, write_bytes};
use std::alloc::{AllocError, Global};

impl SpanBlock {
    /// The span as a tree. `Err` only where memory was refused.
    pub fn unpack(&self, alloc: Global) -> Result<Span, AllocError>
        ensures { IfOk result (λ span. span ≡ self.now) }
    {
        let request = request_alone(alloc, self.message())?;
        match decode(alloc, true, request.as_slice()) {
            Ok(request) => only_span(request),
            Err(_) => Err(AllocError),
        }
    }
}

/// The bytes of a request that holds the span of these bytes alone.
fn request_alone(alloc: Global, block: &[u8]) -> Result<Vec<u8>, AllocError>
    ensures { (span : Span) → block.now ≡ block_of span
        → IfOk result (λ bytes. bytes.items ≡ message_bytes (request_fields (alone span))) }
{
    let mut out = Vec::new(alloc);
    let resource_spans = begin_message(&mut out, 1)?;
    let scope_spans = begin_message(&mut out, 2)?;
    write_bytes(&mut out, 2, block)?;
    end_message(&mut out, scope_spans)?;
    end_message(&mut out, resource_spans)?;
    Ok(out)
}

/// The span of a request that holds it alone.
fn only_span(request: Request) -> Result<Span, AllocError>
    ensures { (span : Span) → request ≡ alone span → IfOk result (λ found. found ≡ span) }
{
    let Some(of_resource) = request.resource_spans.into_vec().pop() else {
        return Err(AllocError);
    };
    let Some(of_scope) = of_resource.scope_spans.into_vec().pop() else {
        return Err(AllocError);
    };
    of_scope.spans.into_vec().pop().ok_or(AllocError)
}
