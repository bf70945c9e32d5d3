//! What is ready: the listener, and connections at their places.
use mio::net::TcpStream;
use mio::unix::SourceFd;
use mio::{Events, Interest, Poll, Token};
use std::alloc::Global;
use std::io;
use std::io::ErrorKind;
use std::net::{Net, TcpListener};
use std::os::fd::AsRawFd;
use std::time::{Clock, Duration, Instant};

/// The listener's token; a connection's is its place among the links.
const LISTENER: Token = Token(usize::MAX);

/// The longest time that a lane waits before it looks at the mark to stop, in milliseconds.
pub const NAP: u64 = 100;

/// The most that one wait finds.
pub const EVENTS: usize = 256;

/// What is ready.
#[derive(Clone, Copy)]
pub enum Ready {
    /// The listener: a connection waits there.
    Listener,
    /// The connection at this place.
    Place(usize),
}

/// What the listener gave.
#[derive(Drop)]
pub enum Accepted {
    /// A connection.
    Connection(TcpStream),
    /// None waits.
    Nothing,
    /// One that had ended meanwhile or can't be set up.
    Broken,
    /// Too many files are open.
    NoFile,
}

/// Finds out what is ready, by epoll.
#[derive(Drop)]
pub struct Readiness<'l> {
    listener: &'l TcpListener,
    poll: Poll,
    events: Events,
    found: Vec<Token>,
    start: Option<Instant>,
}

impl<'l> Readiness<'l> {
    /// One that watches this listener.
    pub fn new<R: Net + Clock>(
        rt: &R,
        alloc: Global,
        listener: &'l TcpListener,
    ) -> io::Result<Self> {
        let poll = Poll::new(rt)?;
        // All lanes watch one listener, and the system chooses which of them takes a connection (D-170).
        let fd = listener.as_raw_fd();
        poll.registry()
            .register(&mut SourceFd(&fd), LISTENER, Interest::READABLE)?;
        Ok(Readiness {
            listener,
            poll,
            events: Events::with_capacity(alloc, EVENTS)?,
            found: Vec::with_capacity(alloc, EVENTS)?,
            start: Instant::now(rt).ok(),
        })
    }

    /// Takes a connection from the listener, without waiting for one.
    pub fn accept(&self) -> Accepted {
        match self.listener.accept() {
            Ok((stream, _)) => {
                // Without delay: an answer is whole, and nothing follows that its last bytes could wait for.
                if stream.set_nonblocking(true).is_ok() && stream.set_nodelay(true).is_ok() {
                    return Accepted::Connection(TcpStream::from_std(stream));
                }
                Accepted::Broken
            }
            Err(error) => match error.kind() {
                ErrorKind::WouldBlock => Accepted::Nothing,
                ErrorKind::Interrupted | ErrorKind::ConnectionAborted => Accepted::Broken,
                // Whatever else is wrong, it is tried again after a pause.
                _ => Accepted::NoFile,
            },
        }
    }

    /// From now on it is told when the connection at this place may be read or written. `false`: that can't be.
    pub fn watch(&self, stream: &mut TcpStream, place: usize) -> bool {
        // For both at once, so that nothing is registered anew when an answer has to wait.
        let both = Interest::READABLE | Interest::WRITABLE;
        self.poll
            .registry()
            .register(stream, Token(place), both)
            .is_ok()
    }

    /// Milliseconds since it was made. `None`: the clock doesn't tell.
    pub fn moment<R: Clock>(&self, rt: &R) -> Option<u64> {
        let since = self.start?.elapsed(rt).ok()?;
        Some(u64::try_from(since.as_millis()).unwrap_or(u64::MAX))
    }

    /// Waits until something is ready, for at most `limit` milliseconds.
    pub fn wait(&mut self, limit: u64) {
        let found = self
            .poll
            .poll(&mut self.events, Some(Duration::from_millis(limit)));
        if found.is_err() {
            return;
        }
        for event in self.events.iter() {
            // There is room for `EVENTS`, and one wait finds no more.
            let _ = self.found.push(event.token());
        }
    }

    /// One of those that were found ready.
    pub fn next(&mut self) -> Option<Ready> {
        match self.found.pop()? {
            LISTENER => Some(Ready::Listener),
            token => Some(Ready::Place(token.0)),
        }
    }
}
