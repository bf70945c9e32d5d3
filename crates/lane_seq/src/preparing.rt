//! A request becomes arrivals with the next numbers of its connection.
ghost use Rattle.std.specs.Prelude.{◌≡◌, ◌+◌, ◌^◌, ◌<◌, ◌≤◌, Some, length, filter, IfOk, IfErr};
ghost use Rattle.std.specs.Result.{IsErrOf};
ghost use Rattle.otlp_request.specs.Reads.{Reads, IsRefusedFor};
ghost use Rattle.otlp_flatten.specs.Flat.{records_of};
ghost use Rattle.otlp_types.specs.declared.request.Request.{Request};
ghost use Rattle.lane_seq.specs.Numbers.{arrivals_from, is_invalid};
ghost use Rattle.lane_seq.specs.Replies.{IsRefusal};

use crate::reply::Reply;
use otlp_encoding::Encoding;
use otlp_flatten::flatten;
use otlp_request::{BadData, DecodeError, decode};
use otlp_types::{Arrival, Record};
use span_ids::{ArrivalKey, ConnKey, Moment};
use std::alloc::{AllocError, Global};

/// A connection of a lane.
#[derive(Clone, Copy, PartialEq, Eq)]
pub struct Conn {
    /// Its lane and ordinal.
    pub key: ConnKey,
    /// The number of the next span on it.
    pub next: u64,
}

/// A request that was read.
#[derive(Drop)]
pub struct Prepared {
    /// Its spans in document order, those with invalid ids included.
    pub arrivals: Vec<Arrival>,
}

/// Reads a request that came on a connection in an encoding at a moment, and numbers its spans. It makes every growth that taking
/// the request needs, and changes nothing.
///
/// The reply of a refusal is `BadData` where the body is no request, or `Busy` where memory was refused or the
/// connection's numbers would pass 2^64-1.
pub fn prepare(
    alloc: Global,
    keeps_doubles: bool,
    conn: &Conn,
    encoding: Encoding,
    body: &[u8],
    moment: Moment,
) -> Result<Prepared, Reply>
    ensures read { IfOk result (λ prepared. (request : Request) × Reads encoding keeps_doubles body.now request
        × (prepared.arrivals.items ≡ arrivals_from conn.now.key conn.now.next moment (records_of request))) }
    ensures numbers { IfOk result (λ prepared. conn.now.next + length prepared.arrivals.items < 2 ^ 64) }
    ensures bad { (cause : BadData) → IsErrOf result (Reply.BadData cause) → IsRefusedFor encoding keeps_doubles body.now cause }
    ensures refusal { IfErr result IsRefusal }
{
    let request = match decode(alloc, encoding, keeps_doubles, body) {
        Ok(request) => request,
        Err(DecodeError::Bad(cause)) => return Err(Reply::BadData(cause)),
        Err(DecodeError::NoMemory) => return Err(Reply::Busy),
    };
    let Ok(records) = flatten(alloc, request) else {
        return Err(Reply::Busy);
    };
    match number_records(alloc, conn, records, moment) {
        Ok(prepared) => Ok(prepared),
        Err(Lack::Numbers | Lack::Memory) => Err(Reply::Busy),
    }
}

/// What is wanting where records get no numbers.
#[derive(Clone, Copy, PartialEq, Eq, Drop)]
enum Lack {
    /// The connection's numbers would pass 2^64-1.
    Numbers,
    /// Memory was refused.
    Memory,
}

/// Numbers records. Numbers are wanting exactly where they would pass 2^64-1.
fn number_records(
    alloc: Global,
    conn: &Conn,
    records: Vec<Record>,
    moment: Moment,
) -> Result<Prepared, Lack>
    ensures arrivals { IfOk result (λ prepared. prepared.arrivals.items
        ≡ arrivals_from conn.now.key conn.now.next moment records.items) }
    ensures numbers { IfOk result (λ prepared. conn.now.next + length prepared.arrivals.items < 2 ^ 64) }
    ensures passed { IsErrOf result Lack.Numbers → 2 ^ 64 ≤ conn.now.next + length records.items }
    ensures memory { IsErrOf result Lack.Memory → conn.now.next + length records.items < 2 ^ 64 }
{
    if conn.next.checked_add(records.len() as u64).is_none() {
        return Err(Lack::Numbers);
    }
    match arrivals_from(alloc, conn.key, conn.next, records, moment) {
        Ok(arrivals) => Ok(Prepared { arrivals }),
        Err(_) => Err(Lack::Memory),
    }
}

/// The arrivals of records, with numbers from `first` on.
fn arrivals_from(
    alloc: Global,
    key: ConnKey,
    first: u64,
    records: Vec<Record>,
    moment: Moment,
) -> Result<Vec<Arrival>, AllocError>
    requires { first + length records.items < 2 ^ 64 }
    ensures arrivals { IfOk result (λ arrivals. arrivals.items ≡ arrivals_from key first moment records.items) }
    ensures len { IfOk result (λ arrivals. length arrivals.items ≡ length records.items) }
{
    let mut arrivals = Vec::with_capacity(alloc, records.len())?;
    let mut number = first;
    for rec in records {
        let key = ArrivalKey { conn: key, number };
        arrivals.push(Arrival { key, moment, rec })?;
        number += 1;
    }
    Ok(arrivals)
}

/// How many arrivals have an id that is missing or invalid.
pub fn count_invalid(arrivals: &[Arrival]) -> usize
    ensures count { result ≡ length (filter is_invalid arrivals.now) }
    ensures within { result ≤ length arrivals.now }
{
    let mut count = 0;
    for arrival in arrivals {
        if arrival.rec.span.get().ids.is_none() {
            count += 1;
        }
    }
    count
}
