//! Answers to requests over OTLP/HTTP, in protobuf (OTLP 1.x, "OTLP/HTTP Response"): what the JSON answers say, for clients that sent protobuf.
//!
//! The answer to a request that was taken whole has no bytes.
#![tactic(auto)]

mod laws;
mod writing;

pub use laws::{pair_is_read, partial_success_is_read};
pub use writing::{partial_success, status};
