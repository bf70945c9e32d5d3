//! The chunk lines and the trailer of a chunked body (RFC 9112, section 7.1).
ghost use Rattle.std.specs.Prelude.{◌≡◌, ◌^◌, length, IfSome, IfNone, IsTrue};
ghost use Rattle.httparse.specs.Spans.{IsChunkLineAt};
ghost use Rattle.http_text.specs.Body.{GivesSize, GivesNoSize, IsTrailer};

use crate::request::FIELD_LIMIT;
use httparse::spans::{EMPTY_HEADER_SPAN, parse_headers};
use httparse::{Status, parse_chunk_size};

/// The size that the whole text gives, if it is a chunk's line.
pub fn read_size(line: &[u8]) -> Option<u64>
    ensures size { IfSome result (GivesSize line.now) }
    ensures none { IfNone result (GivesNoSize line.now) }
{
    match parse_chunk_size(line) {
        Ok(Status::Complete((len, size))) if len == line.len() => Some(size),
        _ => None,
    }
}

/// Whether the whole text is a trailer section.
pub fn is_trailer(text: &[u8]) -> bool
    ensures yes { IsTrue result → IsTrailer text.now }
    ensures no { IsTrailer text.now → IsTrue result }
{
    let mut headers = [EMPTY_HEADER_SPAN; FIELD_LIMIT];
    match parse_headers(text, &mut headers) {
        Ok(Status::Complete((len, _))) => len == text.len(),
        _ => false,
    }
}
