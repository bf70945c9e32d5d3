//! What lanes and the ticker tell of what came, until it is written.
ghost use Rattle.std.specs.Prelude.{◌≡◌, ◌+◌, nat_le, IfOk};
ghost use Rattle.collector_board.specs.Entries.{IsEntryOf};

use crossbeam_queue::ArrayQueue;
use line_entries::{Came, TakenRequest};
use otlp_encoding::Encoding;
use std::alloc::{AllocError, Global};
use std::sync::Wait;
use std::sync::atomic::{AtomicU64, Ordering};

/// At most so many requests and ticks wait until they are written.
const MOST_WAITING: usize = 65_536;

/// At most so many bytes of requests wait until they are written.
const MOST_BYTES: u64 = 67_108_864;

/// What came and nobody has taken yet.
#[derive(Drop)]
pub struct RecordQueue {
    alloc: Global,
    /// How many lanes there are.
    lanes: u64,
    waiting: ArrayQueue<Came>,
    /// The bytes of the requests that wait.
    bytes: AtomicU64,
    lost: AtomicU64,
}

impl RecordQueue {
    /// Nothing came, to so many lanes.
    pub fn new(alloc: Global, lanes: u64) -> Result<Self, AllocError> {
        Ok(RecordQueue {
            alloc,
            lanes,
            waiting: ArrayQueue::new(alloc, MOST_WAITING)?,
            bytes: AtomicU64::new(0),
            lost: AtomicU64::new(0),
        })
    }

    /// How many lanes there are.
    pub fn lanes(&self) -> u64 {
        self.lanes
    }

    /// Puts a request behind what waits, and counts it as lost where there is no room or memory: a lane never waits for
    /// its requests to be written (D-398).
    pub fn put_request<R: Wait>(
        &self,
        rt: &R,
        connection: u64,
        moment: u64,
        encoding: Encoding,
        text: &[u8],
    ) {
        let bytes = text.len() as u64;
        let waited = self.bytes.fetch_add(bytes, Ordering::Relaxed);
        if !has_room(waited, bytes) || !self.puts(rt, connection, moment, encoding, text) {
            self.bytes.fetch_sub(bytes, Ordering::Relaxed);
            self.loses(1);
        }
    }

    /// Puts a request behind what waits, and says whether it stands there.
    fn puts<R: Wait>(
        &self,
        rt: &R,
        connection: u64,
        moment: u64,
        encoding: Encoding,
        text: &[u8],
    ) -> bool {
        match entry_of(self.alloc, connection, moment, encoding, text) {
            Ok(entry) => self.waiting.push(rt, entry).is_ok(),
            Err(_) => false,
        }
    }

    /// Puts a tick behind what waits, and counts it as lost where there is no room.
    pub fn put_tick<R: Wait>(&self, rt: &R, moment: u64) {
        if self.waiting.push(rt, Came::Tick(moment)).is_err() {
            self.loses(1);
        }
    }

    /// Takes what came first, if anything waits.
    pub fn take<R: Wait>(&self, rt: &R) -> Option<Came> {
        let came = self.waiting.pop(rt)?;
        if let Came::Request(request) = &came {
            let bytes = request.text.len() as u64;
            self.bytes.fetch_sub(bytes, Ordering::Relaxed);
        }
        Some(came)
    }

    /// Counts lines that are never written.
    pub fn loses(&self, lines: u64) {
        self.lost.fetch_add(lines, Ordering::Relaxed);
    }

    /// How many lines are never written.
    pub fn lost(&self) -> u64 {
        self.lost.load(Ordering::Relaxed)
    }
}

/// What is to wait of a request: its connection, its moment, and a copy of its text.
fn entry_of(
    alloc: Global,
    connection: u64,
    moment: u64,
    encoding: Encoding,
    text: &[u8],
) -> Result<Came, AllocError>
    ensures { IfOk result (IsEntryOf connection moment encoding text.now) }
{
    let mut own = Vec::new(alloc);
    own.extend_from_slice(text)?;
    Ok(Came::Request(TakenRequest {
        connection,
        moment,
        encoding,
        text: own,
    }))
}

/// Whether so many bytes may wait beside those that wait.
fn has_room(waited: u64, bytes: u64) -> bool
    ensures { result ≡ nat_le (waited + bytes) 67108864 }
{
    waited.saturating_add(bytes) <= MOST_BYTES
}
