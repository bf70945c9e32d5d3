//! One connection at an address for those in charge: it is answered once, and its time is limited.
ghost use Rattle.std.specs.Prelude.{◌≡◌, None, nat_le};

use crate::admin_door::Peer;
use crate::charge::{Charge, InCharge};
use admin_http::{Access, serve};
use std::alloc::Global;
use std::io;
use std::io::{Read, Write};
use std::net::Shutdown;
use std::sync::Wait;
use std::sync::atomic::{AtomicBool, Ordering};
use std::time::{Clock, Instant};

/// The longest time that a connection may take in all, in milliseconds.
const VISIT_LIMIT: u64 = 10_000;

/// The most pieces of 4,096 bytes that are read behind an answer.
const LINGER_PIECES: u32 = 1024;

/// The most reads in a row that may bring nothing behind an answer.
const LINGER_WAITS: u32 = 5;

/// A connection that is answered by a thread of its own, and that others may end.
#[derive(Drop)]
pub struct Visit {
    peer: Peer,
    is_over: AtomicBool,
}

/// One end of a connection, until its time is over.
#[derive(Drop)]
struct VisitEnd<'v, R: Clock> {
    rt: &'v R,
    peer: &'v Peer,
    began: Instant,
}

impl Visit {
    /// Of this connection.
    pub fn new(peer: Peer) -> Self {
        Visit {
            peer,
            is_over: AtomicBool::new(false),
        }
    }

    /// Whether it was answered, or given up.
    pub fn is_over(&self) -> bool {
        self.is_over.load(Ordering::Relaxed)
    }

    /// Ends it from another thread: what it reads or writes ends at once.
    pub fn end(&self) {
        self.peer.shut(Shutdown::Both);
    }

    /// Answers it by a collector that has been at work since then, and ends it. One that can't be answered is ended; so is
    /// each where the clock can't be read.
    pub fn answer<R: Clock + Wait>(
        &self,
        rt: &R,
        alloc: Global,
        access: Access,
        charge: &Charge,
        since: Option<Instant>,
    ) {
        if let Ok(began) = Instant::now(rt) {
            let mut reader = VisitEnd {
                rt,
                peer: &self.peer,
                began,
            };
            let mut writer = VisitEnd {
                rt,
                peer: &self.peer,
                began,
            };
            let mut in_charge = InCharge::new(rt, charge, since);
            let _ = serve(alloc, access, &mut reader, &mut writer, &mut in_charge);
            self.peer.shut(Shutdown::Write);
            linger(&mut reader);
        }
        self.end();
        self.is_over.store(true, Ordering::Relaxed);
    }
}

impl<'v, R: Clock> VisitEnd<'v, R> {
    /// An error, where its time is over.
    fn goes_on(&self) -> io::Result<()> {
        let passed = u64::try_from(self.began.elapsed(self.rt)?.as_millis()).unwrap_or(u64::MAX);
        if is_too_long(passed) {
            return Err(io::ErrorKind::ConnectionAborted.into());
        }
        Ok(())
    }
}

/// Whether a connection after this number of milliseconds takes too long.
fn is_too_long(passed: u64) -> bool
    ensures { result ≡ nat_le VISIT_LIMIT passed }
{
    passed >= VISIT_LIMIT
}

impl<'v, R: Clock> Read for VisitEnd<'v, R> {
    ghost remaining = { λ _. None };

    fn read(&mut self, piece: &mut [u8]) -> io::Result<usize> {
        self.goes_on()?;
        self.peer.read(piece)
    }
}

impl<'v, R: Clock> Write for VisitEnd<'v, R> {
    ghost contents = { λ _. None };

    fn write(&mut self, bytes: &[u8]) -> io::Result<usize> {
        self.goes_on()?;
        self.peer.write(bytes)
    }

    fn flush(&mut self) -> io::Result<()> {
        Ok(())
    }
}

/// Reads what is still sent, for a while and at most `LINGER_PIECES` pieces, so that the answer isn't taken back.
fn linger<P: Read>(reader: &mut P) {
    let mut piece = [0; 4096];
    let mut quiet: u32 = 0;
    for _ in 0..LINGER_PIECES {
        match reader.read(&mut piece) {
            Ok(n) if n > 0 => quiet = 0,
            Err(error) if error.kind() == io::ErrorKind::WouldBlock => {
                quiet = quiet.saturating_add(1);
                if quiet > LINGER_WAITS {
                    return;
                }
            }
            _ => return,
        }
    }
}
