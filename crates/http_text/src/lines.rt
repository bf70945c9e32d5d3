//! The lines of a message (RFC 9112, section 2.2): empty lines in front of it, and how far its parts may reach.
ghost use Rattle.std.specs.Prelude.{◌≡◌, ◌+◌, ◌<◌, ◌≤◌, ◌^◌, length, take};
ghost use Rattle.http_text.specs.Lines.{empty_line_len, blank_len};

/// A head, a chunk line or a trailer has to end within so many bytes.
pub const PART_LIMIT: usize = 16384;

/// How many bytes the empty line at the front has, or 0.
fn empty_line_len(bytes: &[u8]) -> usize
    ensures value { result ≡ empty_line_len bytes.now }
    ensures within { result ≤ length bytes.now }
{
    match bytes {
        [b'\n', ..] => 1,
        [b'\r', b'\n', ..] => 2,
        _ => 0,
    }
}

/// How many bytes the empty lines at the front have.
pub fn blank_len(bytes: &[u8]) -> usize
    ensures value { result ≡ blank_len bytes.now }
    ensures within { result ≤ length bytes.now }
{
    let mut at = 0;
    loop {
        let len = empty_line_len(&bytes[at..]);
        if len == 0 {
            return at;
        }
        at += len;
    }
}

/// The bytes in which a part has to end.
pub fn front(stream: &[u8]) -> &[u8]
    ensures { result.now ≡ take PART_LIMIT stream.now }
{
    if stream.len() > PART_LIMIT {
        return &stream[..PART_LIMIT];
    }
    stream
}
