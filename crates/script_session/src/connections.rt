//! Which lane and which ordinal a connection of a script has.
ghost use Rattle.std.specs.Prelude.{◌≡◌, ◌<◌, [], None, nat_eq, IsSome, IfOk, OnOk, OnErr, replicate, length};
ghost use Rattle.std.specs.Map.{lookup};
ghost use Rattle.indexmap.specs.IndexMap.{insert_entry};
ghost use Rattle.script_run.specs.Connections.{connection_of, with_connection};

use indexmap::IndexMap;
use lane_seq::Conn;
use span_ids::ConnKey;
use std::alloc::{AllocError, Global};
use std::marker::Model;

/// The connections of a script, by the numbers that the script gives them, and how many each lane has had.
#[derive(Drop)]
pub struct Connections {
    map: IndexMap<u64, Conn>,
    connected: Vec<u64>,
}

impl Model for Connections {
    ghost use Rattle.std.specs.Prelude.{◌<◌, length};
    ghost use Rattle.script_run.specs.Connections.{Contacts};

    ghost Value = { Contacts };

    ghost view = { λ c. record { connections = c.map.entries; connected = c.connected.items } };

    ghost invariant = { λ c. (0 < length c.connected.items) × (length c.connected.items < 65536) };
}

impl Connections {
    /// No connection was used, of this number of lanes.
    pub fn new(alloc: Global, lanes: u16) -> Result<Connections, AllocError>
        requires { 0 < lanes }
        ensures { IfOk result (λ c. c ≡ record { connections = []; connected = replicate lanes 0 }) }
    {
        Ok(Connections {
            map: IndexMap::new(alloc),
            connected: vec![in alloc; 0; lanes as usize]?,
        })
    }

    /// How many lanes there are.
    pub fn lanes(&self) -> u16
        ensures lanes { result ≡ length self.now.connected }
        ensures some { 0 < result }
    {
        self.connected.len() as u16
    }

    /// The connection with this number, which is made where it is new: it is the next one of its lane. Only a new
    /// connection is refused, where memory was, or where its lane has had 2^64-1; nothing changes then.
    pub fn connect(&mut self, number: u64) -> Result<Conn, AllocError>
        ensures conn { IfOk result (λ conn. conn ≡ connection_of number self.old) }
        ensures connected { OnOk result (self.new ≡ with_connection number self.old) }
        ensures there { OnOk result (IsSome (lookup (nat_eq number) self.new.connections)) }
        ensures refused { OnErr result (lookup (nat_eq number) self.old.connections ≡ None) }
        ensures unchanged { OnErr result (self.new ≡ self.old) }
        ensures lanes { length self.new.connected ≡ length self.old.connected }
    {
        if let Some(conn) = self.map.get(&number) {
            return Ok(*conn);
        }
        let lane = (number % self.connected.len() as u64) as usize;
        let ordinal = self.connected[lane];
        // Answered as where memory was refused (D-233).
        let Some(next) = ordinal.checked_add(1) else {
            return Err(AllocError);
        };
        let conn = Conn {
            key: ConnKey {
                lane: lane as u16,
                ordinal,
            },
            next: 0,
        };
        if self.map.insert(number, conn).is_err() {
            return Err(AllocError);
        }
        self.connected[lane] = next;
        Ok(conn)
    }

    /// The connection with this number, which is there, is now this one.
    pub fn put(&mut self, number: u64, conn: Conn)
        requires { IsSome (lookup (nat_eq number) self.old.connections) }
        ensures { self.new ≡ record self.old { connections = insert_entry nat_eq self.old.connections number conn } }
    {
        if self.map.insert(number, conn).is_err() {
            unreachable!();
        }
    }
}
