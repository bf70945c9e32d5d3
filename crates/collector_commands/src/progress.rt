//! A reader that tells on a terminal how far it is.
ghost use Rattle.std.specs.Prelude.{◌≡◌};
ghost use Rattle.collector_commands.specs.Progress.{steps_of};

use std::io;
use std::io::{Read, Write};

/// After how many bytes the line is written anew where it isn't known how many there are: 64 MiB.
const STEP: u64 = 67_108_864;

/// A mebibyte.
const MEBIBYTE: u64 = 1_048_576;

/// How many letters wide the bar is.
const WIDTH: u64 = 40;

/// A reader that shows in a line on a terminal how much it has read, as a bar where it is known how much there is. It
/// reads what its reader reads; whether the line can be written changes nothing.
#[derive(Drop)]
pub struct Progress<R: Drop, E: Drop> {
    reader: R,
    /// Where the line goes, if it is shown.
    line: Option<E>,
    /// How many bytes there are to read, or 0 where that isn't known.
    size: u64,
    /// How many bytes were read.
    read: u64,
    /// How many steps the line tells.
    told: u64,
}

/// How many steps so many bytes are: of a hundred where it is known how many bytes there are, else of 64 MiB each.
fn steps_of(read: u64, size: u64) -> u64
    ensures { result ≡ steps_of read size }
{
    if size == 0 {
        return read / STEP;
    }
    // A file may grow while it is read.
    read.min(size).saturating_mul(100) / size
}

impl<R: Drop, E: Drop> Progress<R, E> {
    /// A reader of which nothing was read; `line` is where it is shown, if it is, and `size` how many bytes there are to
    /// read, or 0 where that isn't known.
    pub fn new(reader: R, line: Option<E>, size: u64) -> Self
        ensures { result.reader ≡ reader }
    {
        Progress {
            reader,
            line,
            size,
            read: 0,
            told: 0,
        }
    }
}

/// Writes the line: a bar and its share, or how much was read.
fn put_line<E: Write>(line: &mut E, read: u64, size: u64) -> io::Result<()> {
    if size == 0 {
        let mebibytes = read / MEBIBYTE;
        return write!(line, "\r{mebibytes} MiB read");
    }
    let percent = steps_of(read, size);
    let full = percent.saturating_mul(WIDTH) / 100;
    write!(line, "\r[")?;
    for place in 0..WIDTH {
        let letter = if place < full { '#' } else { '.' };
        write!(line, "{letter}")?;
    }
    write!(line, "] {percent} %")
}

/// Empties the line.
fn clear_line<E: Write>(line: &mut E) -> io::Result<()> {
    // Erase in line (ECMA-48, 8.3.41).
    write!(line, "\r\u{1b}[K")
}

impl<R: Read + Drop, E: Write + Drop> Progress<R, E> {
    /// So many bytes more were read, or none, as there are no more: writes the line anew where it tells something else.
    fn tell(&mut self, count: usize)
        ensures { self.new.reader ≡ self.old.reader }
    {
        self.read = self.read.saturating_add(count as u64);
        let steps = steps_of(self.read, self.size);
        let Some(line) = &mut self.line else {
            return;
        };
        if count == 0 {
            let _ = clear_line(line);
        } else if steps != self.told {
            let _ = put_line(line, self.read, self.size);
        }
        self.told = steps;
    }
}

impl<R: Read + Drop, E: Write + Drop> Read for Progress<R, E> {
    ghost remaining = { λ progress. R.remaining progress.reader };

    fn read(&mut self, bytes: &mut [u8]) -> io::Result<usize> {
        let count = self.reader.read(bytes)?;
        self.tell(count);
        Ok(count)
    }
}
