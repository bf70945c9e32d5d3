//! An exchange in which one growth of memory may be refused.
use crate::row::Row;
use crate::trial::{WHOLE, served};
use std::alloc::{AllocError, Global};

const BUSY: &[u8] =
    b"HTTP/1.1 503 Service Unavailable\r\nContent-Type: application/json\r\nContent-Length: 18\r\nRetry-After: 1\r\n\r\n{\"message\":\"busy\"}";

const BUSY_CLOSES: &[u8] =
    b"HTTP/1.1 503 Service Unavailable\r\nContent-Type: application/json\r\nContent-Length: 18\r\nRetry-After: 1\r\nConnection: close\r\n\r\n{\"message\":\"busy\"}";

/// How many spans the request has that this answers: one, or none where it is the interim line.
fn spans_of(answer: &[u8]) -> u64 {
    if answer.starts_with(b"HTTP/1.1 100 ") {
        0
    } else {
        1
    }
}

/// Whether the exchange comes to its answers, where at most one is `busy` in its place, or the connection ends there:
/// by that answer, if it closes, or unanswered by `NoMemory`. Each request has one span, and just those that were
/// answered otherwise are counted and queued, with the connection's next numbers; so is one whose answer found no
/// memory.
pub fn holds(alloc: Global, row: &Row) -> Result<bool, AllocError> {
    let came = served(alloc, &row.setup, &row.input, WHOLE)?;
    let mut rest = came.written.as_slice();
    let mut counted: u64 = 0;
    let mut end = row.end;
    let mut unanswered = 0;
    for answer in &row.answers {
        if let Some(behind) = rest.strip_prefix(answer.as_slice()) {
            rest = behind;
            counted = counted.saturating_add(spans_of(answer));
        } else if let Some(behind) = rest.strip_prefix(BUSY_CLOSES) {
            rest = behind;
            end = "Answered";
            break;
        } else if let Some(behind) = rest.strip_prefix(BUSY) {
            rest = behind;
        } else {
            end = "NoMemory";
            unanswered = spans_of(answer);
            break;
        }
    }
    let outcome = &came.outcome;
    let numbered = outcome.pushed == 0 || outcome.last.saturating_add(1) == outcome.pushed;
    let received = outcome.received;
    Ok(
        rest.is_empty()
            && came.end == end
            && (received == counted || received == counted.saturating_add(unanswered))
            && outcome.pushed == received
            && numbered,
    )
}
