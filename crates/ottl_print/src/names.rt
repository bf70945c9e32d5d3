//! What is written for operators, functions and paths.
ghost use Rattle.std.specs.Prelude.{◌≡◌, ◌≤◌};
ghost use Rattle.ottl_text.specs.Names.{precedence};
ghost use Rattle.ottl_print.specs.Names as spec;

use ottl_text::{Binary, Case, Root, Unary};

/// The name of a function of one value, and `not`.
pub(crate) fn unary_name(unary: Unary) -> &'static str
    ensures { result.now ≡ spec.unary_name unary }
{
    match unary {
        Unary::Not => "not",
        Unary::IsString => "IsString",
        Unary::IsInt => "IsInt",
        Unary::IsDouble => "IsDouble",
        Unary::IsBool => "IsBool",
        Unary::IsMap => "IsMap",
        Unary::IsList => "IsList",
        Unary::Len => "Len",
        Unary::Int => "Int",
        Unary::Double => "Double",
        Unary::Text => "String",
        Unary::Duration => "Duration",
        Unary::Like => "Concat",
    }
}

/// The name of an operator, or of a function of two values.
pub(crate) fn binary_name(binary: Binary) -> &'static str
    ensures { result.now ≡ spec.binary_name binary }
{
    match binary {
        Binary::Or => "or",
        Binary::And => "and",
        Binary::Equal => "==",
        Binary::NotEqual => "!=",
        Binary::Less => "<",
        Binary::AtMost => "<=",
        Binary::Greater => ">",
        Binary::AtLeast => ">=",
        Binary::Add => "+",
        Binary::Subtract => "-",
        Binary::Multiply => "*",
        Binary::Divide => "/",
        Binary::HasPrefix => "HasPrefix",
        Binary::HasSuffix => "HasSuffix",
    }
}

/// What `ConvertCase` makes of letters.
pub(crate) fn case_name(case: Case) -> &'static str
    ensures { result.now ≡ spec.case_name case }
{
    match case {
        Case::Lower => "lower",
        Case::Upper => "upper",
    }
}

/// Whether it stands between its operands.
pub(crate) fn is_operator(binary: Binary) -> bool
    ensures { result ≡ spec.is_operator binary }
{
    !matches!(binary, Binary::HasPrefix | Binary::HasSuffix)
}

/// How tight it binds.
pub(crate) fn precedence(binary: Binary) -> u8
    ensures same { result ≡ precedence binary }
    ensures small { result ≤ 5 }
{
    match binary {
        Binary::Or => 1,
        Binary::And => 2,
        Binary::Add | Binary::Subtract => 4,
        Binary::Multiply | Binary::Divide => 5,
        _ => 3,
    }
}

/// Whether a path is to no part of the span itself.
pub(crate) fn is_outside(root: Root) -> bool
    ensures { result ≡ spec.is_outside root }
{
    matches!(
        root,
        Root::ResourceAttributes
            | Root::ResourceDroppedAttributes
            | Root::ScopeName
            | Root::ScopeVersion
            | Root::ScopeAttributes
            | Root::ScopeDroppedAttributes
            | Root::EventName
            | Root::EventTime
            | Root::EventAttributes
            | Root::EventDroppedAttributes
            | Root::EventMoment
    )
}

/// A path by its name, where nothing has to stand before it.
pub(crate) fn plain_name(root: Root) -> &'static str
    ensures { result.now ≡ spec.plain_name root }
{
    match root {
        Root::Name => "name",
        Root::Kind => "kind",
        Root::KindText => "kind.string",
        Root::StatusCode => "status.code",
        Root::StatusMessage => "status.message",
        Root::TraceState => "trace_state",
        Root::TraceIdText => "trace_id.string",
        Root::SpanIdText => "span_id.string",
        Root::ParentSpanIdText => "parent_span_id.string",
        Root::StartTime => "start_time_unix_nano",
        Root::EndTime => "end_time_unix_nano",
        Root::Attributes => "attributes",
        Root::DroppedAttributes => "dropped_attributes_count",
        Root::DroppedEvents => "dropped_events_count",
        Root::DroppedLinks => "dropped_links_count",
        Root::ResourceAttributes => "resource.attributes",
        Root::ResourceDroppedAttributes => "resource.dropped_attributes_count",
        Root::ScopeName => "instrumentation_scope.name",
        Root::ScopeVersion => "instrumentation_scope.version",
        Root::ScopeAttributes => "instrumentation_scope.attributes",
        Root::ScopeDroppedAttributes => "instrumentation_scope.dropped_attributes_count",
        Root::EventName => "name",
        Root::EventTime => "time_unix_nano",
        Root::EventAttributes => "attributes",
        Root::EventDroppedAttributes => "dropped_attributes_count",
        Root::StartMoment => "start_time",
        Root::EndMoment => "end_time",
        Root::EventMoment => "time",
    }
}
