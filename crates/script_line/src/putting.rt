//! Texts and numbers, appended.
ghost use Rattle.std.specs.Prelude.{◌≡◌, ◌<◌, ◌^◌, ◌++◌, decimal};
ghost use Rattle.script_line.specs.Appending.{Appends};
ghost use Rattle.script_line.specs.Line.{on_one_line};

use itoa::Buffer;
use memchr::memchr2;
use std::alloc::AllocError;

/// Appends a text.
pub fn put(line: &mut Vec<u8>, text: &[u8]) -> Result<(), AllocError>
    ensures { Appends result line.old.items line.new.items text.now }
{
    line.extend_from_slice(text)
}

/// Appends a text of this crate's own.
pub fn put_str(line: &mut Vec<u8>, text: &str) -> Result<(), AllocError>
    ensures { Appends result line.old.items line.new.items text.now }
{
    line.extend_from_slice(text.as_bytes())
}

/// Appends a number, behind a text.
pub fn put_number(line: &mut Vec<u8>, before: &str, number: u64) -> Result<(), AllocError>
    ensures text { Appends result line.old.items line.new.items (before.now ++ decimal number) }
    ensures range { number < 2 ^ 64 }
{
    put_str(line, before)?;
    let mut buffer = Buffer::new();
    put_str(line, buffer.format(number))
}

/// Appends a text, with a space in place of each line feed and carriage return.
pub fn put_on_one_line(line: &mut Vec<u8>, text: &[u8]) -> Result<(), AllocError>
    ensures { Appends result line.old.items line.new.items (on_one_line text.now) }
{
    let mut rest = text;
    while let Some(at) = memchr2(b'\n', b'\r', rest) {
        put(line, &rest[..at])?;
        put_str(line, " ")?;
        rest = &rest[at + 1..];
    }
    put(line, rest)
}
