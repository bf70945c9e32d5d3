//! What a request is answered.
ghost use Rattle.std.specs.Prelude.{◌≡◌};
ghost use Rattle.lane_seq.specs.Replies.{is_received};

use otlp_request::BadData;

/// The answer to a request (OTLP 1.x, OTLP/HTTP response).
#[derive(Clone, Copy, PartialEq, Eq)]
pub enum Reply {
    /// All spans were taken.
    Done {
        /// The number of spans.
        spans: u64,
    },
    /// Some spans were not taken.
    Partial {
        /// The number of spans, those that were not taken included.
        spans: u64,
        /// How many have an id that is missing or invalid.
        invalid: u64,
        /// How many found the queue to their shard full: with those of invalid ids at least one.
        full: u64,
    },
    /// The body is no request, and no span was received.
    BadData(BadData),
    /// Memory was wanting, or the connection's numbers would pass 2^64-1: no span was received.
    Busy,
}

impl Reply {
    /// Whether the request's spans were received, all of them or some.
    pub fn is_received(&self) -> bool
        ensures { result ≡ is_received self.now }
    {
        match self {
            Reply::Done { .. } | Reply::Partial { .. } => true,
            Reply::BadData(_) | Reply::Busy => false,
        }
    }
}
