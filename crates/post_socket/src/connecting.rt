//! When a connection is used again, and for how long its reads and writes wait.
ghost use Rattle.std.specs.Prelude.{◌≡◌};
ghost use Rattle.post_socket.specs.Connecting.{limits_of, found_at, may_be_used};

/// What a look at a connection that is kept found.
#[derive(Clone, Copy, PartialEq, Eq)]
pub(crate) enum Peeked {
    /// Nothing came, and it is open.
    Nothing,
    /// Its peer ended it.
    End,
    /// Something came.
    Bytes,
    /// It couldn't be looked at.
    Fault,
}

/// What a look found that saw this number of bytes, or, without one, that would have had to wait for some, or failed.
pub(crate) fn found_at(bytes: Option<usize>, would_block: bool) -> Peeked
    ensures { result ≡ found_at bytes would_block }
{
    match bytes {
        Some(0) => Peeked::End,
        Some(_) => Peeked::Bytes,
        None if would_block => Peeked::Nothing,
        None => Peeked::Fault,
    }
}

/// Whether a request may be sent on a connection where this was found. What came unasked, an end too, would be read as its
/// answer (D-208).
pub(crate) fn may_be_used(found: Peeked) -> bool
    ensures { result ≡ may_be_used found }
{
    matches!(found, Peeked::Nothing)
}

/// The longest waits on a connection, in milliseconds; `None`: for ever.
#[derive(Clone, Copy, PartialEq, Eq)]
pub(crate) struct SocketLimits {
    pub read: Option<u64>,
    pub write: Option<u64>,
}

/// Those of an attempt that may take so long: neither its reads nor its writes wait longer.
pub(crate) fn limits_of(limit: u64) -> SocketLimits
    ensures { result ≡ limits_of limit }
{
    SocketLimits {
        read: Some(limit),
        write: Some(limit),
    }
}
