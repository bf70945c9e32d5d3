//! Why a body is no request.
use otlp_protobuf::ProtobufFault;

/// Why a body is no request.
#[derive(Clone, Copy, Debug, PartialEq, Eq)]
pub enum BadData {
    /// It is no JSON.
    Json,
    /// It is JSON of another shape.
    Shape,
    /// It is no protobuf of a request, by the first fault that is met in it.
    Protobuf(ProtobufFault),
}

/// Why no request was read.
#[derive(Clone, Copy, Debug, PartialEq, Eq)]
pub enum DecodeError {
    /// The body is none.
    Bad(BadData),
    /// Memory was refused.
    NoMemory,
}
