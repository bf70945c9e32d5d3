//! A lane: the one place at which the spans of its connections are numbered, routed and pushed.
ghost use Rattle.std.specs.Prelude.{◌≡◌, ℕ, ◌+◌, ◌-◌, ◌^◌, ◌<◌, ◌≤◌, false, true, Some, length, IsTrue};
ghost use Rattle.otlp_request.specs.Reads.{Reads, IsRefusedFor};
ghost use Rattle.otlp_flatten.specs.Flat.{records_of};
ghost use Rattle.otlp_types.specs.declared.request.Request.{Request};
ghost use Rattle.lane_seq.specs.Numbers.{arrivals_from};
ghost use Rattle.lane_seq.specs.Replies.{IsRefusal, OnReceived, full_in};
ghost use Rattle.lane_seq.specs.Pushes.{LaneState, Receives, LacksSome};

use crate::preparing::{Conn, Prepared, count_invalid, prepare};
use crate::pushing::{is_sent_again, push_all, reply_to};
use crate::reply::Reply;
use lane_queue::Port;
use otlp_encoding::Encoding;
use otlp_request::BadData;
use otlp_types::Item;
use span_ids::{ConnKey, Moment};
use std::alloc::Global;
use std::marker::Model;

/// A lane, with one port to the queue of each shard. It serves one connection after the other.
#[derive(Drop)]
pub struct Lane<P> {
    number: u16,
    connected: u64,
    ports: Vec<P>,
    asks_again: bool,
    keeps_doubles: bool,
}

impl<P> Model for Lane<P> {
    ghost use Rattle.std.specs.Prelude.{◌<◌, length};
    ghost use Rattle.lane_seq.specs.Pushes.{LaneState};

    ghost Value = { LaneState P };

    ghost view = { λ l. record {
      number = l.number;
      connected = l.connected;
      ports = l.ports.items;
      keeps_doubles = l.keeps_doubles;
    } };

    ghost invariant = { λ l. 0 < length l.ports.items };
}

/// What is left of a lane that has ended.
#[derive(Drop)]
pub struct LaneEnd<P> {
    /// Its number, by which the shards know it as a sender.
    pub number: u16,
    /// Its ports by shard, for its `End`.
    pub ports: Vec<P>,
}

impl<P> Lane<P> {
    /// The lane of this number, with a port for each shard in their order, of which no connection has come yet. It
    /// discards doubles.
    pub fn new(number: u16, ports: Vec<P>) -> Self
        requires { 0 < length ports.items }
        ensures { result ≡ record {
          number = number;
          connected = 0;
          ports = ports.items;
          keeps_doubles = false;
        } }
    {
        Lane {
            number,
            connected: 0,
            ports,
            asks_again: false,
            keeps_doubles: false,
        }
    }

    /// The lane, of which a request is answered [`Reply::Busy`] where a queue lacks room for its spans, if
    /// `asks_again`.
    pub fn asking_again(self, asks_again: bool) -> Self
        ensures { result ≡ self }
    {
        Lane { asks_again, ..self }
    }

    /// The lane, which keeps doubles, or discards each attribute that holds one, and counts it.
    pub fn keeping_doubles(self, keeps_doubles: bool) -> Self
        ensures { result ≡ record self { keeps_doubles = keeps_doubles } }
    {
        Lane {
            keeps_doubles,
            ..self
        }
    }

    /// How many connections have come.
    pub fn connected(&self) -> u64
        ensures { result ≡ self.now.connected }
    {
        self.connected
    }

    /// A new connection, of which no span has been received. Connections are numbered from 0. It takes no memory.
    pub fn connect(&mut self) -> Conn
        requires { self.old.connected < 2 ^ 64 - 1 }
        ensures conn { result ≡ record {
          key = record { lane = self.old.number; ordinal = self.old.connected };
          next = 0;
        } }
        ensures counted { self.new ≡ record self.old { connected = self.old.connected + 1 } }
    {
        let ordinal = self.connected;
        self.connected += 1;
        Conn {
            key: ConnKey {
                lane: self.number,
                ordinal,
            },
            next: 0,
        }
    }

    /// Ends the lane and gives its ports back. The caller pushes the lane's `End` on each.
    pub fn end(self) -> LaneEnd<P>
        ensures number { result.number ≡ self.number }
        ensures ports { result.ports.items ≡ self.ports }
    {
        let Lane {
            number,
            connected: _,
            ports,
            asks_again: _,
            keeps_doubles: _,
        } = self;
        LaneEnd { number, ports }
    }
}

impl<P: Port<Item>> Lane<P> {
    /// Takes a request that came on a connection in an encoding at a moment: its spans get the connection's next numbers, and each
    /// that has valid ids is pushed once, in document order, to the port of its route. After `BadData` and `Busy`
    /// nothing was pushed and no number was used. A lane that is [`Lane::asking_again`] answers `Busy` where a queue
    /// lacks room.
    #[tactic(auto, using(crate::proofs::Refusals::full_of_refusal))]
    pub fn submit(
        &mut self,
        alloc: Global,
        conn: &mut Conn,
        encoding: Encoding,
        body: &[u8],
        moment: Moment,
    ) -> Reply
        ensures received { OnReceived result ((request : Request) × Reads encoding self.old.keeps_doubles body.now request
            × Receives P.takes P.refuses (arrivals_from conn.old.key conn.old.next moment (records_of request))
            self.old.ports result self.new.ports
            × (conn.new ≡ record conn.old {
              next = conn.old.next
                  + length (arrivals_from conn.old.key conn.old.next moment (records_of request));
            })) }
        ensures lane { self.new ≡ record self.old { ports = self.new.ports } }
        ensures ports { length self.new.ports ≡ length self.old.ports }
        ensures bad { (cause : BadData) → result ≡ Reply.BadData cause → IsRefusedFor encoding self.old.keeps_doubles body.now cause }
        ensures refused { IsRefusal result → (self.new ≡ self.old) × (conn.new ≡ conn.old) }
        ensures waiting { P.waits ≡ true → full_in result ≡ 0 }
    {
        match prepare(alloc, self.keeps_doubles, conn, encoding, body, moment) {
            Ok(prepared) => self.receive_if_room(conn, prepared),
            Err(refusal) => refusal,
        }
    }

    /// Pushes what a request brought, and answers it, unless a queue lacks room for it and it is to be sent again.
    fn receive_if_room(&mut self, conn: &mut Conn, prepared: Prepared) -> Reply
        requires { conn.old.next + length prepared.arrivals.items < 2 ^ 64 }
        ensures pushed { OnReceived result (Receives P.takes P.refuses prepared.arrivals.items self.old.ports result self.new.ports
            × (conn.new ≡ record conn.old { next = conn.old.next + length prepared.arrivals.items })) }
        ensures lane { self.new ≡ record self.old { ports = self.new.ports } }
        ensures ports { length self.new.ports ≡ length self.old.ports }
        ensures refused { IsRefusal result → (result ≡ Reply.Busy) × (self.new ≡ self.old) × (conn.new ≡ conn.old) }
        ensures busy { result ≡ Reply.Busy → LacksSome P.lacks self.old.ports prepared.arrivals.items }
        ensures waiting { P.waits ≡ true → full_in result ≡ 0 }
    {
        if is_sent_again(self.asks_again, &self.ports, &prepared.arrivals) {
            return Reply::Busy;
        }
        self.receive(conn, prepared)
    }

    /// Pushes what a request brought, and answers it.
    #[tactic(auto, using(crate::proofs::Refusals::full_of_reply))]
    fn receive(&mut self, conn: &mut Conn, prepared: Prepared) -> Reply
        requires { conn.old.next + length prepared.arrivals.items < 2 ^ 64 }
        ensures pushed { Receives P.takes P.refuses prepared.arrivals.items self.old.ports result self.new.ports }
        ensures lane { self.new ≡ record self.old { ports = self.new.ports } }
        ensures ports { length self.new.ports ≡ length self.old.ports }
        ensures next { conn.new ≡ record conn.old { next = conn.old.next + length prepared.arrivals.items } }
        ensures waiting { P.waits ≡ true → full_in result ≡ 0 }
    {
        let arrivals = prepared.arrivals;
        let spans = arrivals.len() as u64;
        let invalid = count_invalid(&arrivals) as u64;
        conn.next += spans;
        let full = push_all(&mut self.ports, arrivals);
        reply_to(spans, invalid, full)
    }
}
