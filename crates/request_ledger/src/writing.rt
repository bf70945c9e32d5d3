//! Payloads of several parts, put as one record.
ghost use Rattle.std.specs.Prelude.{◌≡◌, ◌+◌, ◌≤◌, ◌∷◌, ◌++◌, length, OnOk, OnErr, vec_len, vec_capacity};
ghost use Rattle.request_ledger.specs.Format.{Fits, record_of, IsRefused};

use crate::records::{HEAD_LEN, head_of};
use crate::sums::Sums;
use std::alloc::AllocError;

/// Appends bytes to a vector that has room for them.
#[inline(always)]
pub(crate) fn put(out: &mut Vec<u8>, bytes: &[u8])
    requires { vec_len out.old + length bytes.now ≤ vec_capacity out.old }
    ensures items { out.new.items ≡ out.old.items ++ bytes.now }
    ensures len { vec_len out.new ≡ vec_len out.old + length bytes.now }
    ensures capacity { vec_capacity out.old ≤ vec_capacity out.new }
{
    if out.extend_from_slice(bytes).is_err() {
        unreachable!();
    }
}

/// Appends the record whose payload is a kind, three short fields, and a text.
#[tactic(auto, unfolding(crate::specs::Sums::sums_of))]
pub(crate) fn put_fields(
    out: &mut Vec<u8>,
    kind: u8,
    first: &[u8],
    second: &[u8],
    third: &[u8],
    text: &[u8],
) -> Result<(), AllocError>
    requires short { length first.now + length second.now + length third.now ≤ 64 }
    ensures ok { OnOk result (out.new.items ≡ out.old.items ++ record_of (kind ∷ first.now ++ second.now ++ third.now ++ text.now)) }
    ensures fits { OnOk result (Fits (kind ∷ first.now ++ second.now ++ third.now ++ text.now)) }
    ensures err { OnErr result (out.new.items ≡ out.old.items) }
    ensures refused { OnErr result (IsRefused (vec_capacity out.old) (vec_len out.old) (kind ∷ first.now ++ second.now ++ third.now ++ text.now)) }
{
    let Ok(len) = u32::try_from(1 + first.len() + second.len() + third.len() + text.len()) else {
        return Err(AllocError);
    };
    let kind = [kind];
    let sums = Sums::none()
        .after(&kind)
        .after(first)
        .after(second)
        .after(third)
        .after(text);
    out.reserve(HEAD_LEN + len as usize)?;
    put(out, &head_of(len, sums));
    put(out, &kind);
    put(out, first);
    put(out, second);
    put(out, third);
    put(out, text);
    Ok(())
}
