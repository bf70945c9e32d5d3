//! Paths, functions, enumerations and operators by name.
ghost use Rattle.std.specs.Prelude.{◌≡◌, ◌≤◌};
ghost use Rattle.ottl_text.specs.Names as spec;
ghost use Rattle.ottl_text.specs.Tokens.{piece_of};

use crate::expression::{Binary, Case, Context, Root, Unary};
use crate::token::Token;
use ottl_lengths::{behind, front};

/// The number of a kind of spans or of a status code.
#[tactic(auto, unfolding(crate::specs::Names::enumeration_of))]
pub(crate) fn enumeration_of(word: &[u8]) -> Option<i64>
    ensures { result ≡ spec.enumeration_of word.now }
{
    if word == b"SPAN_KIND_UNSPECIFIED".as_slice() {
        Some(0)
    } else if word == b"SPAN_KIND_INTERNAL".as_slice() {
        Some(1)
    } else if word == b"SPAN_KIND_SERVER".as_slice() {
        Some(2)
    } else if word == b"SPAN_KIND_CLIENT".as_slice() {
        Some(3)
    } else if word == b"SPAN_KIND_PRODUCER".as_slice() {
        Some(4)
    } else if word == b"SPAN_KIND_CONSUMER".as_slice() {
        Some(5)
    } else if word == b"STATUS_CODE_UNSET".as_slice() {
        Some(0)
    } else if word == b"STATUS_CODE_OK".as_slice() {
        Some(1)
    } else if word == b"STATUS_CODE_ERROR".as_slice() {
        Some(2)
    } else {
        None
    }
}

/// A function of one value.
#[tactic(auto, unfolding(crate::specs::Names::unary_of))]
pub(crate) fn unary_of(word: &[u8]) -> Option<Unary>
    ensures { result ≡ spec.unary_of word.now }
{
    if word == b"IsString".as_slice() {
        Some(Unary::IsString)
    } else if word == b"IsInt".as_slice() {
        Some(Unary::IsInt)
    } else if word == b"IsDouble".as_slice() {
        Some(Unary::IsDouble)
    } else if word == b"IsBool".as_slice() {
        Some(Unary::IsBool)
    } else if word == b"IsMap".as_slice() {
        Some(Unary::IsMap)
    } else if word == b"IsList".as_slice() {
        Some(Unary::IsList)
    } else if word == b"Len".as_slice() {
        Some(Unary::Len)
    } else if word == b"Int".as_slice() {
        Some(Unary::Int)
    } else if word == b"Double".as_slice() {
        Some(Unary::Double)
    } else if word == b"String".as_slice() {
        Some(Unary::Text)
    } else if word == b"Duration".as_slice() {
        Some(Unary::Duration)
    } else {
        None
    }
}

/// A function of two values.
#[tactic(auto, unfolding(crate::specs::Names::binary_of))]
pub(crate) fn binary_of(word: &[u8]) -> Option<Binary>
    ensures { result ≡ spec.binary_of word.now }
{
    if word == b"HasPrefix".as_slice() {
        Some(Binary::HasPrefix)
    } else if word == b"HasSuffix".as_slice() {
        Some(Binary::HasSuffix)
    } else {
        None
    }
}

/// A case that `ConvertCase` takes.
#[tactic(auto, unfolding(crate::specs::Names::case_named))]
pub(crate) fn case_named(word: &[u8]) -> Option<Case>
    ensures { result ≡ spec.case_named word.now }
{
    if word == b"lower".as_slice() {
        Some(Case::Lower)
    } else if word == b"upper".as_slice() {
        Some(Case::Upper)
    } else {
        None
    }
}

/// A path.
#[tactic(auto, unfolding(crate::specs::Names::root_of))]
pub(crate) fn root_of(context: Context, word: &[u8]) -> Option<Root>
    ensures { result ≡ spec.root_of context word.now }
{
    match inner_root_of(context, word) {
        Some(root) => Some(root),
        None => outer_root_of(word),
    }
}

/// A path of what a condition is asked of, or for an event of its span.
fn inner_root_of(context: Context, word: &[u8]) -> Option<Root>
    ensures { result ≡ spec.inner_root_of context word.now }
{
    match context {
        Context::Span => span_root_of(without(b"span.", word)),
        Context::SpanEvent => match event_root_of(without(b"spanevent.", word)) {
            Some(root) => Some(root),
            None => root_behind_span(word),
        },
    }
}

/// A path without its context in front, where that stands there.
fn without<'a>(prefix: &[u8], word: &'a [u8]) -> &'a [u8]
    ensures { result.now ≡ spec.without prefix.now word.now }
{
    if front(word, prefix.len()) == prefix {
        behind(word, prefix.len())
    } else {
        word
    }
}

/// A path of the span, before which `span.` has to stand.
fn root_behind_span(word: &[u8]) -> Option<Root>
    ensures { result ≡ spec.root_behind_span word.now }
{
    if front(word, 5) == b"span.".as_slice() {
        span_root_of(behind(word, 5))
    } else {
        None
    }
}

/// A path of an event of a span.
#[tactic(auto, unfolding(crate::specs::Names::event_root_of))]
fn event_root_of(word: &[u8]) -> Option<Root>
    ensures { result ≡ spec.event_root_of word.now }
{
    if word == b"attributes".as_slice() {
        Some(Root::EventAttributes)
    } else if word == b"name".as_slice() {
        Some(Root::EventName)
    } else if word == b"time_unix_nano".as_slice() {
        Some(Root::EventTime)
    } else if word == b"time".as_slice() {
        Some(Root::EventMoment)
    } else if word == b"dropped_attributes_count".as_slice() {
        Some(Root::EventDroppedAttributes)
    } else {
        None
    }
}

/// A path of the span.
#[tactic(auto, unfolding(crate::specs::Names::span_root_of))]
fn span_root_of(word: &[u8]) -> Option<Root>
    ensures { result ≡ spec.span_root_of word.now }
{
    if word == b"attributes".as_slice() {
        Some(Root::Attributes)
    } else if word == b"name".as_slice() {
        Some(Root::Name)
    } else if word == b"kind".as_slice() {
        Some(Root::Kind)
    } else if word == b"kind.string".as_slice() {
        Some(Root::KindText)
    } else if word == b"status.code".as_slice() {
        Some(Root::StatusCode)
    } else if word == b"status.message".as_slice() {
        Some(Root::StatusMessage)
    } else if word == b"trace_state".as_slice() {
        Some(Root::TraceState)
    } else {
        number_root_of(word)
    }
}

/// A path of the span to an id, a time or a count.
#[tactic(auto, unfolding(crate::specs::Names::number_root_of))]
fn number_root_of(word: &[u8]) -> Option<Root>
    ensures { result ≡ spec.number_root_of word.now }
{
    if word == b"trace_id.string".as_slice() {
        Some(Root::TraceIdText)
    } else if word == b"span_id.string".as_slice() {
        Some(Root::SpanIdText)
    } else if word == b"parent_span_id.string".as_slice() {
        Some(Root::ParentSpanIdText)
    } else if word == b"start_time_unix_nano".as_slice() {
        Some(Root::StartTime)
    } else if word == b"end_time_unix_nano".as_slice() {
        Some(Root::EndTime)
    } else if word == b"start_time".as_slice() {
        Some(Root::StartMoment)
    } else if word == b"end_time".as_slice() {
        Some(Root::EndMoment)
    } else if word == b"dropped_attributes_count".as_slice() {
        Some(Root::DroppedAttributes)
    } else if word == b"dropped_events_count".as_slice() {
        Some(Root::DroppedEvents)
    } else if word == b"dropped_links_count".as_slice() {
        Some(Root::DroppedLinks)
    } else {
        None
    }
}

/// A path of what the span was sent under.
#[tactic(auto, unfolding(crate::specs::Names::outer_root_of))]
fn outer_root_of(word: &[u8]) -> Option<Root>
    ensures { result ≡ spec.outer_root_of word.now }
{
    if word == b"resource.attributes".as_slice() {
        Some(Root::ResourceAttributes)
    } else if word == b"resource.dropped_attributes_count".as_slice() {
        Some(Root::ResourceDroppedAttributes)
    } else if word == b"instrumentation_scope.name".as_slice() {
        Some(Root::ScopeName)
    } else if word == b"instrumentation_scope.version".as_slice() {
        Some(Root::ScopeVersion)
    } else if word == b"instrumentation_scope.attributes".as_slice() {
        Some(Root::ScopeAttributes)
    } else if word == b"instrumentation_scope.dropped_attributes_count".as_slice() {
        Some(Root::ScopeDroppedAttributes)
    } else {
        None
    }
}

impl Root {
    /// Whether it is a map, which takes keys.
    pub(crate) fn takes_keys(self) -> bool
        ensures { result ≡ spec.takes_keys self }
    {
        matches!(
            self,
            Root::Attributes
                | Root::ResourceAttributes
                | Root::ScopeAttributes
                | Root::EventAttributes
        )
    }
}

/// The operator that stands between two operands.
pub(crate) fn operator_of(token: Token<'_>) -> Option<Binary>
    ensures { result ≡ spec.operator_of (piece_of token.entry) }
{
    match token {
        Token::Operator(operator) => Some(operator),
        Token::Word(word) => {
            if word == b"or".as_slice() {
                Some(Binary::Or)
            } else if word == b"and".as_slice() {
                Some(Binary::And)
            } else {
                None
            }
        }
        _ => None,
    }
}

impl Binary {
    /// How tight it binds.
    pub(crate) fn precedence(self) -> u8
        ensures precedence { result ≡ spec.precedence self }
        ensures small { result ≤ 5 }
    {
        match self {
            Binary::Or => 1,
            Binary::And => 2,
            Binary::Add | Binary::Subtract => 4,
            Binary::Multiply | Binary::Divide => 5,
            _ => 3,
        }
    }
}
