//! The encodings in which OTLP/HTTP carries requests and answers (OTLP 1.x, "OTLP/HTTP"), and their media types.
//!
//! ```
//! assert!(Encoding::Protobuf.media_type() == "application/x-protobuf");
//! ```
#![tactic(auto)]

mod encoding;

pub use encoding::Encoding;
