//! What `serve` costs beside the reading of the bodies alone, for `bench/http.sh` to count.
use crate::peers::Tail;
use crate::row::Setup;
use crate::trial::{WHOLE, served};
use http_text::Allowed;
use otlp_json::decode;
use std::alloc::{AllocError, Global};

/// Serves the bytes as one connection, and says how many spans were received.
pub fn serve_once(alloc: Global, input: &[u8]) -> Result<u64, AllocError> {
    let setup = Setup {
        capacity: 10_000,
        received: 0,
        tail: Tail::Ends,
        is_stopped: false,
        allowed: Allowed {
            gzip: true,
            protobuf: false,
            close: true,
            body_limit: 4_194_304,
        },
        is_long: true,
        writes: false,
        cuts: false,
    };
    let came = served(alloc, &setup, input, WHOLE)?;
    Ok(came.outcome.received)
}

/// Reads a body so many times, and says how many resources were read.
pub fn decode_many(alloc: Global, body: &[u8], times: u32) -> u64 {
    let mut resources: u64 = 0;
    for _ in 0..times {
        if let Ok(request) = decode(alloc, false, body) {
            resources = resources.saturating_add(request.resource_spans.len() as u64);
        }
    }
    resources
}
