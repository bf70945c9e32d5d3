//! The line that answers a request.
ghost use Rattle.std.specs.Prelude.{◌≡◌, ◌+◌, ◌≤◌, ◌++◌, length, vec_capacity};
ghost use Rattle.script_run.specs.Requests.{reply_line};

use itoa::Buffer;
use lane_seq::Reply;
use otlp_reply::{put, put_json_body, status};

/// The length of the longest reply line, in bytes, its line feed included.
pub const MAX_REPLY_LINE: usize = 154;

/// Writes a reply as a line, in place of what the vector held.
pub fn write_reply_line(text: &mut Vec<u8>, reply: &Reply)
    requires { MAX_REPLY_LINE ≤ vec_capacity text.old }
    ensures line { text.new.items ≡ reply_line reply.now }
    ensures room { MAX_REPLY_LINE ≤ vec_capacity text.new }
{
    let mut digits = Buffer::new();
    let code = digits.format(status(reply)).as_bytes();
    text.clear();
    put(text, b"reply ");
    put(text, code);
    put(text, b" ");
    if put_json_body(text, reply).is_err() {
        unreachable!();
    }
    put(text, b"\n");
}
