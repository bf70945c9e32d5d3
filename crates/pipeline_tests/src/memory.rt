//! Connections, a sink, a stop mark and a clock in memory.
ghost use Rattle.std.specs.Prelude.{◌≡◌, IfOk, None, Some, ⊤};

use http_lane::{Clock as MomentClock, HasStopMark, Reads, RequestsTold};
use http_text::Allowed;
use lane_worker::{Acceptor, Ticks};
use otlp_encoding::Encoding;
use span_ids::{ConnKey, Moment};
use span_sink::{Sink, SinkFault};
use std::alloc::{AllocError, Global};
use std::io;
use std::io::{Cursor, ErrorKind, Read};
use std::sync::Wait;
use std::sync::atomic::{AtomicBool, Ordering};
use std::time::Clock;

/// What a connection holds: behind its bytes it ends, or a read fails.
#[derive(Drop)]
pub struct Held {
    bytes: Cursor<Vec<u8>>,
    fails: bool,
}

impl Held {
    /// These bytes and then the end.
    pub fn whole(bytes: Vec<u8>) -> Self {
        Held {
            bytes: Cursor::new(bytes),
            fails: false,
        }
    }

    /// These bytes and then a read that fails.
    pub fn broken(bytes: Vec<u8>) -> Self {
        Held {
            bytes: Cursor::new(bytes),
            fails: true,
        }
    }
}

impl Read for Held {
    ghost remaining = { λ _. None };

    fn read(&mut self, piece: &mut [u8]) -> io::Result<usize> {
        let count = self.bytes.read(piece)?;
        if count == 0 && self.fails {
            return Err(io::Error::from(ErrorKind::ConnectionReset));
        }
        Ok(count)
    }
}

/// Gives these connections, the last one first.
#[derive(Drop)]
pub struct MemoryAcceptor {
    pub alloc: Global,
    pub connections: Vec<Held>,
}

impl Acceptor for MemoryAcceptor {
    type Reader = Reads<Held>;

    type Writer = Vec<u8>;

    ghost gives = { λ old given new. Unit {0} };

    fn next<R: Wait + Clock>(&mut self, _rt: &R) -> Option<(Reads<Held>, Vec<u8>)> {
        let reader = self.connections.pop()?;
        let reads = Reads {
            reader,
            allowed: Allowed {
                gzip: false,
                protobuf: false,
                close: true,
                body_limit: 4_194_304,
            },
        };
        Some((reads, Vec::new(self.alloc)))
    }
}

/// No ticks.
#[derive(Drop)]
pub struct NoTicks;

impl Ticks for NoTicks {
    ghost gives = { λ old given new. Unit {0} };

    fn next<R: Wait + Clock>(&mut self, _rt: &R) -> Option<Moment> {
        None
    }
}

/// A stop mark.
#[derive(Drop)]
pub struct Mark {
    pub is_set: AtomicBool,
}

impl HasStopMark for Mark {
    fn is_set(&self) -> bool {
        self.is_set.load(Ordering::SeqCst)
    }

    fn set(&self) {
        self.is_set.store(true, Ordering::SeqCst);
    }
}

/// A clock that stands.
#[derive(Drop)]
pub struct Standing;

impl MomentClock for Standing {
    fn now(&self) -> u64 {
        1000
    }

    ghost kept = { λ _ _ _ _ _. ⊤ };

    ghost heard = { λ _ _ _. ⊤ };

    fn took(
        &self,
        told: &mut RequestsTold,
        _connection: ConnKey,
        _moment: u64,
        _encoding: Encoding,
        _text: &[u8],
    ) -> bool {
        told.add();
        true
    }
}

/// Room for the lines of a few small spans, in bytes.
const ROOM: usize = 4096;

/// Keeps what is written, unless it is broken: then each write fails.
#[derive(Drop)]
pub struct MemorySink {
    pub taken: Vec<u8>,
    failures: u64,
    is_broken: bool,
}

impl MemorySink {
    /// A sink that has taken nothing, with room for the lines of a few small spans.
    pub fn new(alloc: Global, is_broken: bool) -> Result<Self, AllocError>
        ensures { IfOk result (λ sink. sink.failures ≡ 0) }
    {
        Ok(MemorySink {
            taken: Vec::with_capacity(alloc, ROOM)?,
            failures: 0,
            is_broken,
        })
    }
}

impl Sink for MemorySink {
    ghost taken = { λ s. Some s.taken.items };

    ghost failures = { λ s. s.failures };

    fn write(&mut self, bytes: &[u8]) -> Result<usize, SinkFault> {
        if bytes.is_empty() {
            return Ok(0);
        }
        if self.is_broken || self.taken.extend_from_slice(bytes).is_err() {
            self.failures += 1;
            return Err(SinkFault::Failed);
        }
        Ok(bytes.len())
    }

    fn failures(&self) -> u64 {
        self.failures
    }
}
