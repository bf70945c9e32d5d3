//! What a body is read as, by `otlp_json` and by `otlp_reading` alone.
use otlp_json::encode;
use otlp_reading::DecodeError;
use otlp_stream::plain_request;
use otlp_types::Request;
use std::alloc::{AllocError, Global};

/// What a body is read as.
#[derive(PartialEq, Eq, Drop)]
pub enum Answer {
    /// A request: its canonical text.
    Request(Vec<u8>),
    /// No JSON in UTF-8 that nests at most 127 deep.
    NotJson,
    /// JSON with a field of another shape than its kind.
    WrongShape,
}

/// What was read. `Err` where memory was refused.
fn answer_of(alloc: Global, read: Result<Request, DecodeError>) -> Result<Answer, AllocError> {
    match read {
        Ok(request) => Ok(Answer::Request(encode(alloc, &request)?)),
        Err(DecodeError::Json) => Ok(Answer::NotJson),
        Err(DecodeError::Shape) => Ok(Answer::WrongShape),
        Err(DecodeError::NoMemory) => Err(AllocError),
    }
}

/// Whether one pass takes a body. `Err` where memory was refused.
fn is_plain(alloc: Global, body: &[u8]) -> Result<bool, AllocError> {
    match plain_request(alloc, false, body) {
        Ok(found) => Ok(found.is_some()),
        Err(_) => Err(AllocError),
    }
}

/// Both readings of a body.
#[derive(Drop)]
pub struct Readings {
    /// Whether `plain_request` takes it.
    pub is_plain: bool,
    /// By `otlp_json::decode`.
    pub decoded: Answer,
    /// By `otlp_reading::decode`, over the tree that `serde_json` makes.
    pub by_tree: Answer,
}

/// Reads a body both ways. `Err` where memory was refused.
pub fn read(alloc: Global, body: &[u8]) -> Result<Readings, AllocError> {
    let is_plain = is_plain(alloc, body)?;
    let decoded = answer_of(alloc, otlp_json::decode(alloc, false, body))?;
    let by_tree = answer_of(alloc, otlp_reading::decode(alloc, false, body))?;
    Ok(Readings {
        is_plain,
        decoded,
        by_tree,
    })
}
