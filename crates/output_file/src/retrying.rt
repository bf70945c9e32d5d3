//! A writer that tries again.
ghost use Rattle.std.specs.Prelude.{◌≡◌, ◌<◌, true, false, None, length, IfErr, OnErr, OnOk, IfOk};
ghost use Rattle.std.specs.Io.KnownBytes.{Keeps, WriteAppends};
ghost use Rattle.std.specs.Io.{WritesAtMost};
ghost use Rattle.output_file.specs.Retrying.{RetryingState, tries_again, IsNotGivenUpEarly};

use crate::failure_told::FailureTold;
use crate::watch::OutputWatch;
use std::io::{ErrorKind, Write};
use std::marker::Model;
use std::sync::Wait;
use std::time::{Clock, Duration, Instant};
use std::{io, thread};

/// So long is waited before a write is tried again, in milliseconds.
const PAUSE: u64 = 1_000;

/// So long a write is tried again once the collector was told to stop, in milliseconds.
const STOPPING_LIMIT: u64 = 10_000;

/// Whether a write that failed is tried again, of a collector that has been stopping for so many milliseconds, or that
/// isn't.
pub fn tries_again(stopping: Option<u64>) -> bool
    ensures { result ≡ tries_again stopping }
{
    match stopping {
        Some(milliseconds) => milliseconds <= STOPPING_LIMIT,
        None => true,
    }
}

/// A writer over another one, whose writes may be tried again. Then a write that fails or takes nothing is tried once a
/// second until it takes something, or until the collector has been stopping for too long; an interrupted one at once.
/// Else it is the other writer.
#[derive(Drop)]
pub struct RetryingWriter<'r, W: Write, V, R> {
    rt: &'r R,
    writer: W,
    retries: bool,
    watch: &'r V,
    failure: FailureTold,
    stopping_since: Option<Instant>,
    stopping: Option<u64>,
}

impl<'r, W: Write, V, R> Model for RetryingWriter<'r, W, V, R> {
    ghost use Rattle.output_file.specs.Retrying.{RetryingState};

    ghost Value = { RetryingState };

    ghost view = { λ s. record { taken = W.contents s.writer; retries = s.retries; stopping = s.stopping } };
}

impl<'r, W: Write, V: OutputWatch, R: Wait + Clock> RetryingWriter<'r, W, V, R> {
    /// A writer over this one; `retries`: its writes are tried again.
    pub fn new(rt: &'r R, writer: W, retries: bool, watch: &'r V) -> Self
        ensures { result ≡ record { taken = W.contents writer; retries = retries; stopping = None } }
    {
        RetryingWriter {
            rt,
            writer,
            retries,
            watch,
            failure: FailureTold::new(),
            stopping_since: None,
            stopping: None,
        }
    }

    /// Gives the other writer back.
    pub fn end(self) -> W
        ensures { W.contents result ≡ self.entry.taken }
    {
        let RetryingWriter {
            rt: _,
            writer,
            retries: _,
            watch: _,
            failure: _,
            stopping_since: _,
            stopping: _,
        } = self;
        writer
    }

    /// Looks for how long the collector has been stopping, since that was seen first. Where no time can be read it has
    /// been for too long.
    fn look(&mut self)
        ensures taken { self.new.taken ≡ self.old.taken }
        ensures retries { self.new.retries ≡ self.old.retries }
    {
        if !self.watch.is_stopping() {
            return;
        }
        if self.stopping_since.is_none() {
            self.stopping_since = Instant::now(self.rt).ok();
        }
        self.stopping = Some(elapsed(self.rt, &self.stopping_since));
    }

    /// Tells of a write that failed, if nobody was told yet, and waits until it is tried again.
    fn wait_after(&mut self, error: &io::Error)
        ensures { self.new ≡ self.old }
    {
        if error.kind() == ErrorKind::Interrupted {
            return;
        }
        if self.failure.fails() {
            self.watch.failing(error);
        }
        thread::sleep(self.rt, Duration::from_millis(PAUSE));
    }

    /// Tells that a write has taken bytes, where that was told to fail.
    fn took(&mut self)
        ensures { self.new ≡ self.old }
    {
        if self.failure.takes() {
            self.watch.back();
        }
    }
}

impl<'r, W: Write, V: OutputWatch, R: Wait + Clock> Write for RetryingWriter<'r, W, V, R> {
    ghost contents = { λ s. s.taken };

    fn write(&mut self, bytes: &[u8]) -> io::Result<usize>
        ensures bound { WritesAtMost result bytes.now }
        ensures bytes { WriteAppends self.old.taken self.new.taken result bytes.now }
        ensures tried { self.old.retries ≡ true → 0 < length bytes.now → IsNotGivenUpEarly result self.new }
        ensures retries { self.new.retries ≡ self.old.retries }
    {
        if !self.retries || bytes.is_empty() {
            return self.writer.write(bytes);
        }
        for _ in self.rt.forever() {
            let error = match self.writer.write(bytes) {
                Ok(count) if 0 < count => {
                    self.took();
                    return Ok(count);
                }
                Ok(_) => io::Error::from(ErrorKind::WriteZero),
                Err(error) => error,
            };
            self.look();
            if !tries_again(self.stopping) {
                return Err(error);
            }
            self.wait_after(&error);
        }
        unreachable!()
    }

    fn flush(&mut self) -> io::Result<()> {
        self.writer.flush()
    }
}

/// How many milliseconds have passed, and the greatest number where no time can be read.
fn elapsed<R: Clock>(rt: &R, began: &Option<Instant>) -> u64 {
    let Some(began) = began else {
        return u64::MAX;
    };
    match began.elapsed(rt) {
        Ok(passed) => u64::try_from(passed.as_millis()).unwrap_or(u64::MAX),
        Err(_) => u64::MAX,
    }
}
