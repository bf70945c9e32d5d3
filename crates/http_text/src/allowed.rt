//! What is allowed to clients, by the settings of a collector.

/// What is allowed to clients.
#[derive(Clone, Copy, PartialEq, Eq)]
pub struct Allowed {
    /// Bodies packed by gzip are taken.
    pub gzip: bool,
    /// Bodies in protobuf are taken, beside those in JSON.
    pub protobuf: bool,
    /// `POST /close` closes the collector; else there is no such target.
    pub close: bool,
    /// A body may have so many bytes, as it comes and unpacked.
    pub body_limit: u32,
}
