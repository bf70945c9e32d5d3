//! Statuses, and bodies in JSON, which are put behind what there is.
ghost use Rattle.std.specs.Prelude.{◌≡◌, ◌+◌, ◌^◌, ◌<◌, ◌≤◌, ◌++◌, OnOk, OnErr, length, vec_capacity, vec_len};
ghost use Rattle.otlp_reply.specs.Bodies.{status_of, json_body, partial_success};

use itoa::Buffer;
use lane_seq::Reply;
use otlp_request::BadData;
use std::alloc::AllocError;

/// The length of the longest body of a reply in JSON, in bytes.
pub const MAX_BODY_LEN: usize = 143;

/// The HTTP status of a reply.
pub fn status(reply: &Reply) -> u16
    ensures { result ≡ status_of reply.now }
{
    match reply {
        Reply::Done { .. } => 200,
        Reply::Partial { .. } => 200,
        Reply::BadData(_) => 400,
        Reply::Busy => 503,
    }
}

/// Appends the body of a reply in JSON. It is refused, with the vector unchanged, only where the vector had to grow.
pub fn put_json_body(text: &mut Vec<u8>, reply: &Reply) -> Result<(), AllocError>
    ensures ok { OnOk result (text.new.items ≡ text.old.items ++ json_body reply.now) }
    ensures len { OnOk result (vec_len text.new ≡ vec_len text.old + length (json_body reply.now)) }
    ensures refused { OnErr result (vec_capacity text.old < vec_len text.old + length (json_body reply.now)) }
    ensures err { OnErr result (text.new.items ≡ text.old.items) }
    ensures capacity { vec_capacity text.old ≤ vec_capacity text.new }
    ensures short { length (json_body reply.now) ≤ MAX_BODY_LEN }
{
    match reply {
        Reply::Done { .. } => text.extend_from_slice(b"{}"),
        Reply::Partial { invalid, full, .. } => put_rejected(text, *invalid, *full),
        Reply::BadData(BadData::Json) => text.extend_from_slice(b"{\"message\":\"not JSON\"}"),
        Reply::BadData(BadData::Shape) => {
            text.extend_from_slice(b"{\"message\":\"wrong shape\"}")
        }
        Reply::BadData(BadData::Protobuf(_)) => {
            text.extend_from_slice(b"{\"message\":\"not protobuf\"}")
        }
        Reply::Busy => text.extend_from_slice(b"{\"message\":\"busy\"}"),
    }
}

/// The length of what a partial success says beside its three numbers, in bytes.
const PARTIAL_SUCCESS_LEN: usize = 83;

/// Appends what a partial success says, or nothing where the vector can't grow.
fn put_rejected(text: &mut Vec<u8>, invalid: u64, full: u64) -> Result<(), AllocError>
    ensures ok { OnOk result (text.new.items ≡ text.old.items ++ partial_success invalid full) }
    ensures len { OnOk result (vec_len text.new ≡ vec_len text.old + length (partial_success invalid full)) }
    ensures refused { OnErr result (vec_capacity text.old < vec_len text.old + length (partial_success invalid full)) }
    ensures err { OnErr result (text.new.items ≡ text.old.items) }
    ensures capacity { vec_capacity text.old ≤ vec_capacity text.new }
    ensures short { length (partial_success invalid full) ≤ MAX_BODY_LEN }
{
    let mut invalid_digits = Buffer::new();
    let mut full_digits = Buffer::new();
    let mut sum_digits = Buffer::new();
    let sum = u128::from(invalid) + u128::from(full);
    let invalid = invalid_digits.format(invalid).as_bytes();
    let full = full_digits.format(full).as_bytes();
    let sum = sum_digits.format(sum).as_bytes();
    text.reserve(PARTIAL_SUCCESS_LEN + invalid.len() + full.len() + sum.len())?;
    put(
        text,
        b"{\"partialSuccess\":{\"errorMessage\":\"invalid id: ",
    );
    put(text, invalid);
    put(text, b", queue full: ");
    put(text, full);
    put(text, b"\",\"rejectedSpans\":\"");
    put(text, sum);
    put(text, b"\"}}");
    Ok(())
}

/// Appends bytes to a vector that has room for them.
pub fn put(text: &mut Vec<u8>, bytes: &[u8])
    requires { vec_len text.old + length bytes.now ≤ vec_capacity text.old }
    ensures items { text.new.items ≡ text.old.items ++ bytes.now }
    ensures len { vec_len text.new ≡ vec_len text.old + length bytes.now }
    ensures capacity { vec_capacity text.old ≤ vec_capacity text.new }
{
    if text.extend_from_slice(bytes).is_err() {
        unreachable!();
    }
}
