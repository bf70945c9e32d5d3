//! What a connection is served with: a reader of pieces, a writer with room, a stop mark and a clock.
ghost use Rattle.std.specs.Prelude.{None, Some, ⊤};

use http_lane::{Clock, HasStopMark, RequestsTold};
use otlp_encoding::Encoding;
use span_ids::ConnKey;
use std::cell::Cell;
use std::io;
use std::io::{ErrorKind, Read, Write};

/// What a reader does when its bytes are gone.
#[derive(Clone, Copy, Drop)]
pub enum Tail {
    /// The input ends.
    Ends,
    /// Each read would block.
    Blocks,
    /// Each read times out.
    TimesOut,
    /// Each read is interrupted.
    Interrupted,
    /// The 61st read is interrupted, and each other would block.
    Mixes,
    /// Each read fails.
    Fails,
}

/// Gives its bytes: the first reads end at `cut`, and no read gives more than `step` bytes.
#[derive(Drop)]
pub struct Pieces<'b> {
    pub rest: &'b [u8],
    pub cut: usize,
    pub step: usize,
    pub tail: Tail,
    /// So many reads were made.
    pub reads: u64,
    /// So many of them gave no byte.
    pub idle: u64,
}

/// What the read fails with that is the one of this number behind the bytes; `None`: the input ends.
fn failure(tail: Tail, number: u64) -> Option<ErrorKind> {
    match tail {
        Tail::Ends => None,
        Tail::Mixes if number == 61 => Some(ErrorKind::Interrupted),
        Tail::Blocks | Tail::Mixes => Some(ErrorKind::WouldBlock),
        Tail::TimesOut => Some(ErrorKind::TimedOut),
        Tail::Interrupted => Some(ErrorKind::Interrupted),
        Tail::Fails => Some(ErrorKind::ConnectionReset),
    }
}

impl<'b> Read for Pieces<'b> {
    ghost remaining = { λ _. None };

    fn read(&mut self, piece: &mut [u8]) -> io::Result<usize> {
        self.reads = self.reads.saturating_add(1);
        let most = if self.cut > 0 { self.cut } else { usize::MAX };
        let count = self.rest.len().min(self.step).min(piece.len()).min(most);
        if count == 0 {
            self.idle = self.idle.saturating_add(1);
            return match failure(self.tail, self.idle) {
                Some(kind) => Err(io::Error::from(kind)),
                None => Ok(0),
            };
        }
        let (front, rest) = self.rest.split_at(count);
        piece[..count].copy_from_slice(front);
        self.rest = rest;
        self.cut = self.cut.saturating_sub(count);
        Ok(count)
    }
}

/// A writer into memory. It takes at most `portion` bytes a write and `room` bytes in all, and then fails.
#[derive(Drop)]
pub struct Page {
    pub bytes: Vec<u8>,
    pub portion: usize,
    pub room: usize,
    /// So many writes were made.
    pub writes: u64,
}

impl Write for Page {
    ghost contents = { λ page. Some page.bytes.items };

    fn write(&mut self, bytes: &[u8]) -> io::Result<usize> {
        self.writes = self.writes.saturating_add(1);
        let count = bytes.len().min(self.room).min(self.portion);
        if count == 0 {
            return Err(io::Error::from(ErrorKind::BrokenPipe));
        }
        self.bytes.extend_from_slice(&bytes[..count])?;
        self.room -= count;
        Ok(count)
    }

    fn flush(&mut self) -> io::Result<()> {
        Ok(())
    }
}

/// A stop mark.
#[derive(Drop)]
pub struct Mark {
    pub set: Cell<bool>,
}

impl HasStopMark for Mark {
    fn is_set(&self) -> bool {
        self.set.get()
    }

    fn set(&self) {
        self.set.set(true);
    }
}

/// A clock that says 1000 first, and each time 1 more.
#[derive(Drop)]
pub struct Ticks {
    pub asked: Cell<u64>,
}

impl Clock for Ticks {
    fn now(&self) -> u64 {
        let asked = self.asked.get();
        self.asked.set(asked.saturating_add(1));
        asked.saturating_add(1000)
    }

    ghost kept = { λ _ _ _ _ _. ⊤ };

    ghost heard = { λ _ _ _. ⊤ };

    fn took(
        &self,
        told: &mut RequestsTold,
        _connection: ConnKey,
        _moment: u64,
        _encoding: Encoding,
        _text: &[u8],
    ) -> bool {
        told.add();
        true
    }
}
