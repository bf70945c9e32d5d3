//! Records: a payload behind its length and its sums.
ghost use Rattle.std.specs.Prelude.{◌≡◌, ◌+◌, ◌≤◌, ◌^◌, ◌<◌, ◌∷◌, [], ◌++◌, ◌↔◌, length, take, drop, IfSome, IfNone, OnOk, OnErr, IsTrue, option_copied, vec_len, vec_capacity};
ghost use Rattle.request_ledger.specs.Sums.{sums_of};
ghost use Rattle.request_ledger.specs.Format.{Fits, head_bytes, record_of, record_in, records_in, IsRefused};

use crate::sums::Sums;
use crate::writing::put;
use std::alloc::AllocError;

/// How many bytes stand before a record's payload.
pub const HEAD_LEN: usize = 12;

/// What stands before a payload of so many bytes that has these sums.
pub(crate) fn head_of(len: u32, sums: Sums) -> [u8; 12]
    ensures { result ≡ head_bytes len sums }
{
    let [a, b, c, d] = len.to_le_bytes();
    let [e, f, g, h] = sums.first.to_le_bytes();
    let [i, j, k, l] = sums.second.to_le_bytes();
    [a, b, c, d, e, f, g, h, i, j, k, l]
}

/// Appends the record of a payload. A payload of 2^32 bytes or more is refused as if there were no memory.
#[tactic(auto, unfolding(crate::specs::Sums::sums_of))]
pub fn put_record(out: &mut Vec<u8>, payload: &[u8]) -> Result<(), AllocError>
    ensures ok { OnOk result (out.new.items ≡ out.old.items ++ record_of payload.now) }
    ensures fits { OnOk result (Fits payload.now) }
    // nothing has changed, and it had to be so
    ensures err { OnErr result (out.new.items ≡ out.old.items) }
    ensures refused { OnErr result (IsRefused (vec_capacity out.old) (vec_len out.old) payload.now) }
{
    let Ok(len) = u32::try_from(payload.len()) else {
        return Err(AllocError);
    };
    let head = head_of(len, Sums::none().after(payload));
    out.reserve(HEAD_LEN + payload.len())?;
    put(out, &head);
    put(out, payload);
    Ok(())
}

/// The payload of the record that begins there, if a whole one does and its sums are its own. The next record begins
/// `HEAD_LEN + payload.len()` bytes further on.
pub fn record_at(bytes: &[u8], at: usize) -> Option<&[u8]>
    ensures exact { option_copied result ≡ record_in (drop at bytes.now) }
    ensures within { IfSome result (λ payload. at + (12 + length payload.now) ≤ length bytes.now) }
    // the records from there on
    ensures first { IfSome result (λ payload. records_in (drop at bytes.now) ≡ payload.now ∷ records_in (drop (at + (12 + length payload.now)) bytes.now)) }
    ensures last { IfNone result (records_in (drop at bytes.now) ≡ []) }
{
    if at > bytes.len() {
        return None;
    }
    record_in(&bytes[at..])
}

/// The payload of the record with which the bytes begin.
fn record_in(bytes: &[u8]) -> Option<&[u8]>
    ensures exact { option_copied result ≡ record_in bytes.now }
    ensures within { IfSome result (λ payload. 12 + length payload.now ≤ length bytes.now) }
    ensures first { IfSome result (λ payload. records_in bytes.now ≡ payload.now ∷ records_in (drop (12 + length payload.now) bytes.now)) }
    ensures last { IfNone result (records_in bytes.now ≡ []) }
{
    if bytes.len() < HEAD_LEN {
        return None;
    }
    let len = u32::from_le_bytes([bytes[0], bytes[1], bytes[2], bytes[3]]);
    let behind = &bytes[HEAD_LEN..];
    if len as usize > behind.len() {
        return None;
    }
    let payload = &behind[..len as usize];
    if !is_head(&bytes[..HEAD_LEN], len, payload) {
        return None;
    }
    Some(payload)
}

/// Whether this is the head of the record of a payload of that length.
#[tactic(auto, unfolding(crate::specs::Sums::sums_of))]
fn is_head(head: &[u8], len: u32, payload: &[u8]) -> bool
    ensures { IsTrue result ↔ (head.now ≡ head_bytes len (sums_of payload.now)) }
{
    head == head_of(len, Sums::none().after(payload)).as_slice()
}
