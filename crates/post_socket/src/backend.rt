//! The backend.
ghost use Rattle.std.specs.Prelude.{None};

use crate::bodies::protobuf_body;
use crate::closing::{
    SLICE, attempt_limit, closing_since, milliseconds_asked, next_sleep, time_left,
};
use crate::connecting::{SocketLimits, found_at, limits_of, may_be_used};
use crate::rejected::rejected_in;
use crate::watch::Watch;
use batch_post::{AttemptOutcome, Backend, BatchFate};
use http1::Header;
use otlp_encoding::Encoding;
use post_http::{BackendResponse, Patience, Posted, head_of, post};
use std::alloc::Global;
use std::io::ErrorKind;
use std::net::{Net, TcpStream, ToSocketAddrs};
use std::random::RandomSource;
use std::time::{Clock, Duration, Instant};
use std::{io, thread};

/// Where a backend is, and the longest waits for it, in milliseconds.
#[derive(Clone, Copy)]
pub struct BackendSettings<'t> {
    /// Its host and port.
    pub authority: &'t str,
    /// The path of requests.
    pub path: &'t str,
    /// The fields of requests in JSON, but for the length of the body.
    pub fields: &'t [Header<'t>],
    /// Those of requests in protobuf, where batches go so that can be written so.
    pub protobuf: Option<&'t [Header<'t>]>,
    /// How long an attempt may take.
    pub timeout: u64,
    /// How long batches are tried once the collector closes.
    pub close_wait: u64,
}

/// A backend at an address.
#[derive(Drop)]
pub struct SocketBackend<'t, V, R> {
    rt: &'t R,
    alloc: Global,
    settings: BackendSettings<'t>,
    watch: &'t V,
    began: Option<Instant>,
    closing_since: Option<u64>,
    stream: Option<TcpStream>,
}

/// The time of an attempt.
#[derive(Drop)]
struct Attempt<'a, R> {
    rt: &'a R,
    began: Option<Instant>,
    limit: u64,
}

impl<'a, R: Clock> Patience for Attempt<'a, R> {
    fn is_over(&self) -> bool {
        self.limit <= elapsed(self.rt, &self.began)
    }
}

/// How many milliseconds have passed, and 0 where the clock can't be read.
fn elapsed<R: Clock>(rt: &R, began: &Option<Instant>) -> u64 {
    let Some(began) = began else {
        return 0;
    };
    match began.elapsed(rt) {
        Ok(duration) => u64::try_from(duration.as_millis()).unwrap_or(u64::MAX),
        Err(_) => 0,
    }
}

impl<'t, V: Watch, R: Net<Stream = TcpStream> + Clock + RandomSource> SocketBackend<'t, V, R> {
    /// A backend to which nothing was sent. The address is looked up and connected to at the first attempt.
    pub fn new(rt: &'t R, alloc: Global, settings: BackendSettings<'t>, watch: &'t V) -> Self {
        SocketBackend {
            rt,
            alloc,
            settings,
            watch,
            began: Instant::now(rt).ok(),
            closing_since: None,
            stream: None,
        }
    }

    /// Notes when the collector began to close.
    fn look(&mut self) {
        let now = elapsed(self.rt, &self.began);
        self.closing_since = closing_since(self.closing_since, self.watch.is_closing(), now);
    }

    /// How many milliseconds are left, once the collector closes.
    fn time_left(&self) -> Option<u64> {
        let now = elapsed(self.rt, &self.began);
        time_left(self.closing_since, self.settings.close_wait, now)
    }

    /// How long an attempt may take now, which is at least a millisecond.
    fn limit(&self) -> u64 {
        attempt_limit(self.time_left(), self.settings.timeout)
    }

    /// The connection that is kept, where its peer neither closed it nor sent anything, or a new one.
    fn connection(&mut self, limit: u64) -> io::Result<TcpStream> {
        let kept = self.stream.take();
        let stream = match kept {
            Some(stream) if is_quiet(&stream) => stream,
            _ => connect(self.rt, self.settings.authority, limit)?,
        };
        set_limits(&stream, limits_of(limit))?;
        Ok(stream)
    }

    /// Tries to send a batch, and tells how many of its spans the backend rejected.
    fn send(&mut self, batch: &[u8]) -> AttemptOutcome {
        let (answer, encoding) = match self.in_protobuf(batch) {
            Some((fields, body)) => (self.exchange(fields, &body), Encoding::Protobuf),
            None => (self.exchange(self.settings.fields, batch), Encoding::Json),
        };
        let Some(answer) = answer else {
            return AttemptOutcome::NoAnswer;
        };
        // No other status is a delivery, so of none is it asked which spans were rejected (D-209).
        if answer.status == 200 {
            let rejected = rejected_in(self.alloc, encoding, &answer.body);
            self.watch.rejected(rejected);
        }
        AttemptOutcome::Answered(answer.status, milliseconds_asked(answer.retry_after))
    }

    /// The fields and the body of a batch in protobuf, where it is to go so and can.
    fn in_protobuf(&self, batch: &[u8]) -> Option<(&'t [Header<'t>], Vec<u8>)> {
        let fields = self.settings.protobuf?;
        // What can't be written as protobuf goes as JSON (D-117).
        let body = protobuf_body(self.alloc, batch).ok()?;
        Some((fields, body))
    }

    /// Posts a body on a connection, and keeps that where it can be used again.
    fn exchange(&mut self, fields: &[Header<'_>], batch: &[u8]) -> Option<BackendResponse> {
        let path = self.settings.path.as_bytes();
        let head = head_of(self.alloc, path, fields, batch.len()).ok()?;
        let limit = self.limit();
        let patience = Attempt {
            rt: self.rt,
            began: Instant::now(self.rt).ok(),
            limit,
        };
        let stream = self.connection(limit).ok()?;
        let (mut reader, mut writer) = (&stream, &stream);
        match post(
            self.alloc,
            &mut reader,
            &mut writer,
            &patience,
            &head,
            batch,
        ) {
            Posted::Answered(answer) => {
                if answer.keeps {
                    self.stream = Some(stream);
                }
                Some(answer)
            }
            _ => None,
        }
    }
}

/// A connection to the first address of a host that takes one, within `limit` milliseconds for all of them.
fn connect<R: Net<Stream = TcpStream> + Clock>(
    rt: &R,
    authority: &str,
    limit: u64,
) -> io::Result<TcpStream> {
    let began = Instant::now(rt).ok();
    let mut last = io::Error::from(ErrorKind::AddrNotAvailable);
    for at in authority.to_socket_addrs(rt)? {
        // At least 1, since a time-out of 0 is refused.
        let left = limit.saturating_sub(elapsed(rt, &began)).max(1);
        match TcpStream::connect_timeout(rt, &at, Duration::from_millis(left)) {
            Ok(stream) => {
                stream.set_nodelay(true)?;
                return Ok(stream);
            }
            Err(error) => last = error,
        }
    }
    Err(last)
}

/// Whether nothing came on a connection, not even its end.
fn is_quiet(stream: &TcpStream) -> bool {
    let mut byte = [0u8; 1];
    if stream.set_nonblocking(true).is_err() {
        return false;
    }
    let found = match stream.peek(&mut byte) {
        Ok(bytes) => found_at(Some(bytes), false),
        Err(error) => found_at(None, error.kind() == ErrorKind::WouldBlock),
    };
    may_be_used(found) && stream.set_nonblocking(false).is_ok()
}

/// From now on reads and writes wait no longer than this.
fn set_limits(stream: &TcpStream, limits: SocketLimits) -> io::Result<()> {
    stream.set_read_timeout(duration_of(limits.read))?;
    stream.set_write_timeout(duration_of(limits.write))
}

/// So many milliseconds.
fn duration_of(milliseconds: Option<u64>) -> Option<Duration> {
    Some(Duration::from_millis(milliseconds?))
}

impl<'t, V: Watch, R: Net<Stream = TcpStream> + Clock + RandomSource> Backend
    for SocketBackend<'t, V, R> {
    ghost log = { λ b. None };

    fn attempt(&mut self, batch: &[u8]) -> AttemptOutcome {
        self.look();
        if self.time_left() == Some(0) {
            return AttemptOutcome::NoAnswer;
        }
        let outcome = self.send(batch);
        self.watch.attempted(outcome);
        outcome
    }

    fn settle(&mut self, batch: &[u8], fate: BatchFate) {
        self.watch.settled(batch.len() as u64, fate);
    }

    fn wait(&mut self, milliseconds: u64) {
        let began = elapsed(self.rt, &self.began);
        // In slices, so that a close is seen meanwhile. Their number ends the wait where the clock stands still.
        for _ in 0..=milliseconds / SLICE {
            self.look();
            let waited = elapsed(self.rt, &self.began).saturating_sub(began);
            let Some(sleep) = next_sleep(milliseconds, waited, self.time_left()) else {
                return;
            };
            thread::sleep(self.rt, Duration::from_millis(sleep));
        }
    }

    fn now(&mut self) -> u64 {
        elapsed(self.rt, &self.began)
    }

    fn random(&mut self) -> u64 {
        let mut bytes = [0u8; 8];
        match self.rt.fill_bytes(&mut bytes) {
            Ok(()) => u64::from_le_bytes(bytes),
            Err(_) => 0,
        }
    }

    fn left(&mut self) -> Option<u64> {
        self.time_left()
    }
}
