//! A request of a script, from its lane to the queues of the shards.
ghost use Rattle.std.specs.Prelude.{◌≡◌, ◌<◌, length};
ghost use Rattle.lane_seq.specs.Replies.{is_received};
ghost use Rattle.script_session.specs.Submitting.{Submits};

use crate::connections::Connections;
use lane_queue::ListPort;
use lane_seq::{Lane, Reply};
use otlp_encoding::Encoding;
use otlp_types::Item;
use span_ids::Moment;
use std::alloc::Global;

/// Reads a request on the lane of its connection, which keeps doubles or discards them: its spans get their numbers and
/// go to the queues of their shards, one for each. The reply tells what became of it. The queues come back.
pub(crate) fn submit(
    alloc: Global,
    keeps_doubles: bool,
    connections: &mut Connections,
    queues: Vec<ListPort<Item>>,
    number: u64,
    moment: Moment,
    body: &[u8],
) -> (Reply, Vec<ListPort<Item>>)
    requires some { 0 < length queues.items }
    ensures submits { Submits keeps_doubles connections.old number moment body.now queues.items result.0 result.1.items connections.new }
    ensures length { length result.1.items ≡ length queues.items }
    ensures lanes { length connections.new.connected ≡ length connections.old.connected }
{
    let Ok(conn) = connections.connect(number) else {
        return (Reply::Busy, queues);
    };
    let mut after = conn;
    // One set of queues for all lanes: between two lines each queue is empty (D-234).
    let mut lane = Lane::new(conn.key.lane, queues).keeping_doubles(keeps_doubles);
    let reply = lane.submit(alloc, &mut after, Encoding::Json, body, moment);
    if is_received(&reply) {
        connections.put(number, after);
    }
    (reply, lane.end().ports)
}

/// Whether the spans of the request were received.
pub fn is_received(reply: &Reply) -> bool
    ensures { result ≡ is_received reply.now }
{
    reply.is_received()
}
