//! What came.
use otlp_encoding::Encoding;

/// A request that was taken.
#[derive(Drop)]
pub struct TakenRequest {
    /// The number of its connection.
    pub connection: u64,
    /// When its body had been read, in milliseconds.
    pub moment: u64,
    pub encoding: Encoding,
    /// Its body, unpacked.
    pub text: Vec<u8>,
}

/// What came.
#[derive(Drop)]
pub enum Came {
    /// A request was taken.
    Request(TakenRequest),
    /// A tick was due at this moment, in milliseconds.
    Tick(u64),
}
