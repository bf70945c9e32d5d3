//! The messages of a request, and what stands in them.
ghost use Rattle.std.specs.Prelude.{◌≡◌};
ghost use Rattle.request_show.specs.Messages as spec;

/// A message of OTLP 1.x (`trace_service.proto`, `trace.proto`, `resource.proto` and `common.proto` v1).
#[derive(Clone, Copy, PartialEq, Eq)]
pub enum MessageKind {
    /// `ExportTraceServiceRequest`.
    Request,
    ResourceSpans,
    Resource,
    ScopeSpans,
    /// `InstrumentationScope`.
    Scope,
    Span,
    Event,
    Link,
    Status,
    KeyValue,
    AnyValue,
    ArrayValue,
    KeyValueList,
}

/// The message that stands in a field of this number.
pub fn inside(kind: MessageKind, number: u32) -> Option<MessageKind>
    ensures { result ≡ spec.inside kind number }
{
    match kind {
        MessageKind::Request if number == 1 => Some(MessageKind::ResourceSpans),
        MessageKind::ResourceSpans => inside_resource_spans(number),
        MessageKind::ScopeSpans => inside_scope_spans(number),
        MessageKind::Span => inside_span(number),
        MessageKind::Resource | MessageKind::KeyValueList if number == 1 => {
            Some(MessageKind::KeyValue)
        }
        MessageKind::Scope | MessageKind::Event if number == 3 => Some(MessageKind::KeyValue),
        MessageKind::Link if number == 4 => Some(MessageKind::KeyValue),
        MessageKind::KeyValue if number == 2 => Some(MessageKind::AnyValue),
        MessageKind::ArrayValue if number == 1 => Some(MessageKind::AnyValue),
        MessageKind::AnyValue => inside_any_value(number),
        _ => None,
    }
}

fn inside_resource_spans(number: u32) -> Option<MessageKind>
    ensures { result ≡ spec.inside_resource_spans number }
{
    match number {
        1 => Some(MessageKind::Resource),
        2 => Some(MessageKind::ScopeSpans),
        _ => None,
    }
}

fn inside_scope_spans(number: u32) -> Option<MessageKind>
    ensures { result ≡ spec.inside_scope_spans number }
{
    match number {
        1 => Some(MessageKind::Scope),
        2 => Some(MessageKind::Span),
        _ => None,
    }
}

fn inside_span(number: u32) -> Option<MessageKind>
    ensures { result ≡ spec.inside_span number }
{
    match number {
        9 => Some(MessageKind::KeyValue),
        11 => Some(MessageKind::Event),
        13 => Some(MessageKind::Link),
        15 => Some(MessageKind::Status),
        _ => None,
    }
}

fn inside_any_value(number: u32) -> Option<MessageKind>
    ensures { result ≡ spec.inside_any_value number }
{
    match number {
        5 => Some(MessageKind::ArrayValue),
        6 => Some(MessageKind::KeyValueList),
        _ => None,
    }
}

/// Whether a text stands in a field of this number.
pub fn is_text(kind: MessageKind, number: u32) -> bool
    ensures { result ≡ spec.is_text kind number }
{
    match kind {
        MessageKind::ResourceSpans | MessageKind::ScopeSpans | MessageKind::Link => number == 3,
        MessageKind::Scope => number == 1 || number == 2,
        MessageKind::Span => number == 3 || number == 5,
        MessageKind::Event | MessageKind::Status => number == 2,
        MessageKind::KeyValue | MessageKind::AnyValue => number == 1,
        MessageKind::Request
        | MessageKind::Resource
        | MessageKind::ArrayValue
        | MessageKind::KeyValueList => false,
    }
}
