//! An attribute, and its value as far as policies ask for it.
use otlp_types::Double;

/// What an attribute has, as far as policies ask for it. A text is its bytes.
#[derive(Clone, Copy)]
pub enum Scalar<'a> {
    Str(&'a [u8]),
    Bool(bool),
    Int(i64),
    Double(Double),
    /// No value, a list of values or of pairs, or bytes.
    Other,
}

/// An attribute, in the bytes of its block. The key is its bytes.
#[derive(Clone, Copy)]
pub struct Attribute<'a> {
    pub key: &'a [u8],
    pub value: Scalar<'a>,
}
