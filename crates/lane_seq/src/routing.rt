//! The shard of a trace.
ghost use Rattle.std.specs.Prelude.{◌≡◌, ◌<◌};
ghost use Rattle.span_ids.specs.Route.{shard_of};

use span_ids::TraceId;

/// The shard of a trace, of so many: the last 8 bytes of its id read big-endian, modulo the number of shards. It takes
/// no memory.
pub fn route(trace: TraceId, shards: usize) -> usize
    requires { 0 < shards }
    ensures shard { result ≡ shard_of trace shards }
    ensures within { result < shards }
{
    let bytes = trace.bytes();
    let Some(last) = bytes.last_chunk::<8>() else {
        unreachable!();
    };
    u64::from_be_bytes(*last) as usize % shards
}
