//! Where connections and ticks come from.
ghost use Rattle.std.specs.Prelude.{ℕ, Option};

use http_lane::Source;
use span_ids::Moment;
use std::io::Write;
use std::sync::Wait;
use std::time::Clock;

/// Gives a lane its connections, one after the other.
pub trait Acceptor {
    /// What a connection's bytes are read from.
    type Reader: Source + Drop;

    /// What its answers are written to.
    type Writer: Write + Drop;

    /// What one call does: the acceptor before it, what it gave, and the acceptor after it.
    ghost gives: { Self → Option (Self.Reader × Self.Writer) → Self → Type 0 };

    /// The next connection, or `None` where there is none any more; then it isn't asked again. It may wait for one.
    fn next<R: Wait + Clock>(&mut self, rt: &R) -> Option<(Self::Reader, Self::Writer)>
        ensures { gives self.old result self.new };
}

/// Gives the moments of ticks, one after the other.
pub trait Ticks {
    /// What one call does: the ticks before it, the moment that it gave, and the ticks after it.
    ghost gives: { Self → Option ℕ → Self → Type 0 };

    /// The moment of the next tick, in milliseconds, or `None` where there is none any more; then it isn't asked again.
    /// It may wait until that is.
    fn next<R: Wait + Clock>(&mut self, rt: &R) -> Option<Moment>
        ensures { gives self.old result self.new };
}
