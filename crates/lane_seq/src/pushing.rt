//! Each arrival with valid ids goes to the queue of its trace's shard.
ghost use Rattle.std.specs.Prelude.{◌≡◌, ◌⊎◌, ◌+◌, ◌^◌, ◌<◌, ◌≤◌, true, false, length, filter, option_map};
ghost use Rattle.lane_seq.specs.Numbers.{is_invalid};
ghost use Rattle.lane_seq.specs.Replies.{IsReplyTo};
ghost use Rattle.lane_seq.specs.Pushes.{PushesOne, PushesAll, count_to, FitsAt, LacksAt, FitEach, LacksSome};
ghost use Rattle.otlp_types.specs.declared.arrival.Item.TheVariants.{Span};

use crate::reply::Reply;
use crate::routing::route;
use lane_queue::Port;
use otlp_types::{Arrival, Item};
use span_ids::TraceId;

/// Pushes the span of each arrival that has valid ids, in order, to the port of its route. It answers how many pushes
/// were refused.
pub fn push_all<P: Port<Item>>(ports: &mut [P], arrivals: Vec<Arrival>) -> u64
    requires some { 0 < length ports.old }
    requires fits { length arrivals.items < 2 ^ 64 }
    ensures pushed { PushesAll P.takes P.refuses arrivals.items ports.old result ports.new }
    ensures few { length (filter is_invalid arrivals.items) + result ≤ length arrivals.items }
    ensures waiting { P.waits ≡ true → result ≡ 0 }
{
    let mut full = 0;
    for arrival in arrivals {
        full += push_one(ports, arrival);
    }
    full
}

/// Pushes the span of an arrival, if it has valid ids, and answers how many pushes were refused.
fn push_one<P: Port<Item>>(ports: &mut [P], arrival: Arrival) -> u64
    requires { 0 < length ports.old }
    ensures pushed { PushesOne P.takes P.refuses arrival.rec.span.ids (Span arrival) ports.old result ports.new }
    ensures few { result ≤ 1 }
    ensures waiting { P.waits ≡ true → result ≡ 0 }
{
    match trace_of(&arrival) {
        Some(trace) => {
            let shard = route(trace, ports.len());
            push_to(&mut ports[shard], arrival)
        }
        None => 0,
    }
}

/// Pushes the span of an arrival to a port, and answers how many pushes were refused.
fn push_to<P: Port<Item>>(port: &mut P, arrival: Arrival) -> u64
    ensures pushed { ((result ≡ 0) × P.takes port.old (Span arrival) port.new) ⊎ ((result ≡ 1) × P.refuses port.old port.new) }
    ensures waiting { P.waits ≡ true → result ≡ 0 }
{
    match port.try_push(Item::Span(arrival)) {
        Ok(()) => 0,
        Err(_) => 1,
    }
}

/// The trace of an arrival that has valid ids.
fn trace_of(arrival: &Arrival) -> Option<TraceId>
    ensures { result ≡ option_map (λ ids. ids.trace) arrival.now.rec.span.ids }
{
    match &arrival.rec.span.get().ids {
        Some(ids) => Some(ids.trace),
        None => None,
    }
}

/// Whether a request with these spans is to be sent again: that is asked for, and some port lacks room for them.
pub fn is_sent_again<P: Port<Item>>(asks_again: bool, ports: &[P], arrivals: &[Arrival]) -> bool
    ensures again { result ≡ true → (asks_again ≡ true) × LacksSome P.lacks ports.now arrivals.now }
    ensures taken { result ≡ false → asks_again ≡ true → FitEach P.fits ports.now arrivals.now }
{
    asks_again && lacks_room(ports, arrivals)
}

/// Whether some port lacks room for the spans that go to it, as far as its end knows.
fn lacks_room<P: Port<Item>>(ports: &[P], arrivals: &[Arrival]) -> bool
    ensures lacks { result ≡ true → LacksSome P.lacks ports.now arrivals.now }
    ensures fits { result ≡ false → FitEach P.fits ports.now arrivals.now }
{
    for shard in 0..ports.len() {
        if lacks_room_at(ports, arrivals, shard) {
            return true;
        }
    }
    false
}

/// Whether the port of a shard lacks room for the spans that go to it.
fn lacks_room_at<P: Port<Item>>(ports: &[P], arrivals: &[Arrival], shard: usize) -> bool
    requires { shard < length ports.now }
    ensures lacks { result ≡ true → LacksAt P.lacks ports.now arrivals.now shard }
    ensures fits { result ≡ false → FitsAt P.fits ports.now arrivals.now shard }
{
    let port = &ports[shard];
    !port.has_room(arrivals.len()) && !port.has_room(count_to(arrivals, shard, ports.len()))
}

/// How many of these spans go to this shard, of so many.
fn count_to(arrivals: &[Arrival], shard: usize, shards: usize) -> usize
    requires { 0 < shards }
    ensures { result ≡ count_to shard shards arrivals.now }
{
    let mut count: usize = 0;
    for arrival in arrivals {
        if let Some(trace) = trace_of(arrival) {
            if route(trace, shards) == shard {
                count = count.saturating_add(1);
            }
        }
    }
    count
}

/// The reply to a request of so many spans, of which so many have invalid ids and so many found their queue full.
pub fn reply_to(spans: u64, invalid: u64, full: u64) -> Reply
    ensures { IsReplyTo spans invalid full result }
{
    if invalid == 0 && full == 0 {
        return Reply::Done { spans };
    }
    Reply::Partial {
        spans,
        invalid,
        full,
    }
}
