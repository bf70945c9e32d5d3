//! Requests in the ledger.
ghost use Rattle.std.specs.Prelude.{◌≡◌, ◌++◌, ◌≤◌, length, Some, OnOk, OnErr, option_map, vec_len, vec_capacity};
ghost use Rattle.request_ledger.specs.Format.{Fits, record_of, IsRefused};
ghost use Rattle.request_ledger.specs.Entries.{LedgerRequest, seen_request, request_of, request_bytes, request_in, told_request, encoding_of, kind_of, IsRequest};

use crate::numbers::{number_at, short_number_at};
use crate::writing::put_fields;
use otlp_encoding::Encoding;
use span_ids::{ConnKey, Moment};
use std::alloc::AllocError;

/// A request as it was received.
#[derive(Clone, Copy)]
pub struct RequestEntry<'t> {
    /// When it came, in milliseconds.
    pub moment: Moment,
    /// The connection on which it came.
    pub connection: ConnKey,
    /// How its text is encoded.
    pub encoding: Encoding,
    /// Its body, as it was before it was read.
    pub text: &'t [u8],
}

/// Appends the record of a request. One whose payload has 2^32 bytes or more is refused as if there were no memory.
pub fn put_request(
    out: &mut Vec<u8>,
    moment: Moment,
    connection: ConnKey,
    encoding: Encoding,
    text: &[u8],
) -> Result<(), AllocError>
    ensures ok { OnOk result (out.new.items ≡ out.old.items ++ record_of (request_bytes (request_of moment connection encoding text.now))) }
    ensures fits { OnOk result (Fits (request_bytes (request_of moment connection encoding text.now))) }
    // nothing has changed, and it had to be so
    ensures err { OnErr result (out.new.items ≡ out.old.items) }
    ensures refused { OnErr result (IsRefused (vec_capacity out.old) (vec_len out.old) (request_bytes (request_of moment connection encoding text.now))) }
{
    let came = moment.to_le_bytes();
    let lane = connection.lane.to_le_bytes();
    let ordinal = connection.ordinal.to_le_bytes();
    put_fields(out, kind_of(encoding), &came, &lane, &ordinal, text)
}

/// The request that a payload is. A payload that `put_request` wrote is just that request.
pub fn request_in(payload: &[u8]) -> Option<RequestEntry<'_>>
    ensures exact { option_map seen_request result ≡ request_in payload.now }
    ensures back { (r : LedgerRequest) → IsRequest r → payload.now ≡ request_bytes r → option_map seen_request result ≡ Some r }
{
    if payload.len() < 19 {
        return None;
    }
    let encoding = encoding_of(payload[0])?;
    Some(told_request(payload, encoding))
}

/// The request that a payload tells, but for its encoding.
fn told_request(payload: &[u8], encoding: Encoding) -> RequestEntry<'_>
    requires { 19 ≤ length payload.now }
    ensures { seen_request result ≡ told_request payload.now encoding }
{
    RequestEntry {
        moment: number_at(payload, 1),
        connection: ConnKey {
            lane: short_number_at(payload, 9),
            ordinal: number_at(payload, 11),
        },
        encoding,
        text: &payload[19..],
    }
}

fn kind_of(encoding: Encoding) -> u8
    ensures { result ≡ kind_of encoding }
{
    match encoding {
        Encoding::Json => 1,
        Encoding::Protobuf => 2,
    }
}

fn encoding_of(kind: u8) -> Option<Encoding>
    ensures { result ≡ encoding_of kind }
{
    match kind {
        1 => Some(Encoding::Json),
        2 => Some(Encoding::Protobuf),
        _ => None,
    }
}
