//! How many requests were answered with each status.
use std::sync::atomic::{AtomicU64, Ordering};

/// How many requests were answered with each status (RFC 9110, section 15). All lanes add to it, and numbers only grow.
/// No contract rests on it.
#[derive(Drop)]
pub struct Answers {
    ok: AtomicU64,
    bad_request: AtomicU64,
    not_found: AtomicU64,
    method_not_allowed: AtomicU64,
    request_timeout: AtomicU64,
    content_too_large: AtomicU64,
    unsupported_media_type: AtomicU64,
    head_too_large: AtomicU64,
    unavailable: AtomicU64,
    others: AtomicU64,
}

impl Answers {
    /// Nothing was answered.
    pub fn new() -> Self {
        Answers {
            ok: AtomicU64::new(0),
            bad_request: AtomicU64::new(0),
            not_found: AtomicU64::new(0),
            method_not_allowed: AtomicU64::new(0),
            request_timeout: AtomicU64::new(0),
            content_too_large: AtomicU64::new(0),
            unsupported_media_type: AtomicU64::new(0),
            head_too_large: AtomicU64::new(0),
            unavailable: AtomicU64::new(0),
            others: AtomicU64::new(0),
        }
    }

    /// A request is answered with this status.
    pub fn add(&self, status: u16) {
        // These numbers are only told, and nothing is decided by them, so they need no order among each other.
        self.cell(status).fetch_add(1, Ordering::Relaxed);
    }

    /// How many answers had this status: 200, 400, 404, 405, 408, 413, 415, 431 or 503. Of another it is how many had
    /// none of these.
    pub fn answered(&self, status: u16) -> u64 {
        self.cell(status).load(Ordering::Relaxed)
    }

    fn cell(&self, status: u16) -> &AtomicU64 {
        match status {
            200 => &self.ok,
            400 => &self.bad_request,
            404 => &self.not_found,
            405 => &self.method_not_allowed,
            408 => &self.request_timeout,
            413 => &self.content_too_large,
            415 => &self.unsupported_media_type,
            431 => &self.head_too_large,
            503 => &self.unavailable,
            _ => &self.others,
        }
    }
}
