//! Expressions as trees.
use otlp_types::{List, Text};

/// A value that is written out.
#[derive(Drop)]
pub enum Literal {
    Nil,
    Bool(bool),
    Int(i64),
    Float(f64),
    Text(Text),
    /// The bytes that hex digits behind `0x` write.
    Bytes(List<u8>),
}

/// What a condition is asked of: its paths are those of this.
#[derive(Clone, Copy, PartialEq, Eq)]
pub enum Context {
    /// A span (OTTL, `contexts/ottlspan`).
    Span,
    /// An event of a span (OTTL, `contexts/ottlspanevent`).
    SpanEvent,
}

/// What an error of a condition does (OTTL, `error_mode`).
#[derive(Clone, Copy, PartialEq, Eq)]
pub enum ErrorMode {
    /// The next condition is asked, and the error is told.
    Ignore,
    /// The next condition is asked.
    Silent,
    /// It is the answer.
    Propagate,
}

/// Where a path begins (OTTL, `contexts/ottlspan` and `contexts/ottlspanevent`, "Paths").
#[derive(Clone, Copy, PartialEq, Eq)]
pub enum Root {
    Name,
    /// The kind's number.
    Kind,
    /// The kind by name, as `Server`.
    KindText,
    StatusCode,
    StatusMessage,
    TraceState,
    /// The lower-case hex digits.
    TraceIdText,
    SpanIdText,
    ParentSpanIdText,
    /// Nanoseconds since 1970.
    StartTime,
    /// Nanoseconds since 1970.
    EndTime,
    Attributes,
    DroppedAttributes,
    DroppedEvents,
    DroppedLinks,
    ResourceAttributes,
    ResourceDroppedAttributes,
    ScopeName,
    ScopeVersion,
    ScopeAttributes,
    ScopeDroppedAttributes,
    EventName,
    /// Nanoseconds since 1970.
    EventTime,
    EventAttributes,
    EventDroppedAttributes,
    /// A point in time.
    StartMoment,
    /// A point in time.
    EndMoment,
    /// A point in time.
    EventMoment,
}

/// What goes on into a map or a list.
#[derive(Drop)]
pub enum Key {
    Text(Text),
    Index(i64),
}

/// A part of a span, of an event of it, or of what it was sent under.
#[derive(Drop)]
pub struct Path {
    pub root: Root,
    pub keys: List<Key>,
}

/// What is made of one value.
#[derive(Clone, Copy, PartialEq, Eq)]
pub enum Unary {
    Not,
    IsString,
    IsInt,
    IsDouble,
    IsBool,
    IsMap,
    IsList,
    Len,
    Int,
    Double,
    /// `String`.
    Text,
    Duration,
    /// The text that a value has among those of `Concat`.
    Like,
}

/// The case of letters.
#[derive(Clone, Copy, PartialEq, Eq)]
pub enum Case {
    Lower,
    Upper,
}

/// What is made of two values.
#[derive(Clone, Copy, PartialEq, Eq)]
pub enum Binary {
    Or,
    And,
    Equal,
    NotEqual,
    Less,
    AtMost,
    Greater,
    AtLeast,
    Add,
    Subtract,
    Multiply,
    Divide,
    HasPrefix,
    HasSuffix,
}

/// An expression. A condition is one whose value is true or false.
#[derive(Drop)]
pub enum Expression {
    Literal(Literal),
    Path(Path),
    /// `IsRootSpan()`.
    IsRootSpan,
    Unary(Unary, Box<Expression>),
    Binary(Binary, Box<Expression>, Box<Expression>),
    /// `IsMatch(.., "..")`: the regular expression by its text.
    IsMatch(Box<Expression>, Text),
    /// `Substring(.., .., ..)`: a text, a place in it, and the number of bytes from there on.
    Substring(Box<Expression>, Box<Expression>, Box<Expression>),
    /// `ConvertCase(.., "lower")`.
    Cased(Case, Box<Expression>),
    /// Of `Concat([.., ..], "..")` the first text, the delimiter, and the others with delimiters between them.
    Concat(Box<Expression>, Text, Box<Expression>),
}
