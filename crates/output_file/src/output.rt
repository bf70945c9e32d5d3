//! A writer over the files of an output, one after the other.
ghost use Rattle.std.specs.Prelude.{◌≡◌, ◌⊎◌, ℕ, ◌+◌, ◌^◌, ◌-◌, List, Option, Result, Bool, true, false, take, IfOk, OnOk, OnErr, min};
ghost use Rattle.std.specs.Io.KnownBytes.{Appends, Keeps, WriteAppends};
ghost use Rattle.std.specs.Io.{WritesAtMost};
ghost use Rattle.output_file.specs.Segments.{OutputState, taken_by, leaves, line_end_after, IsNewPlace, IsNewOutput};
ghost use Rattle.output_file.specs.Turning.{TurnsByRule, IsLeft, Writes};

use crate::place::OutputPlace;
use crate::reopen_mark::ReopenMark;
use crate::turning::{FileTurn, seen_after, turn_of};
use std::io::Write;
use std::marker::Model;
use std::{io, mem};

/// An output whose lines go to a file. It turns to a new file only behind a whole line: where a mark asks for that, and
/// where the file is long enough. Where nothing can be renamed or opened it goes on in the file that is open, and tries
/// again behind the next line.
#[derive(Drop)]
pub struct OutputFile<'m, P: OutputPlace> {
    place: P,
    file: P::File,
    size: u64,
    at_line_end: bool,
    longest: u64,
    mark: &'m ReopenMark,
    seen: u64,
}

impl<'m, P: OutputPlace> Model for OutputFile<'m, P> {
    ghost use Rattle.output_file.specs.Segments.{OutputState, AreSegments};

    ghost Value = { OutputState };

    ghost view = { λ s. record { left = P.left s.place; current = P.File.contents s.file; size = s.size; at_line_end = s.at_line_end; longest = s.longest } };

    ghost invariant = { λ s. AreSegments (P.left s.place) (P.File.contents s.file) s.at_line_end };
}

impl<'m, P: OutputPlace + Drop> OutputFile<'m, P> {
    /// The output whose file is opened at this place, where no file was left; a new file is begun where one has so many
    /// bytes (0: never), or where the mark asks for it. An error: the file can't be opened.
    pub fn new(mut place: P, longest: u64, mark: &'m ReopenMark) -> io::Result<Self>
        requires { IsNewPlace (P.left place) }
        ensures { IfOk result (IsNewOutput longest) }
    {
        let opened = place.open()?;
        Ok(OutputFile {
            place,
            file: opened.file,
            size: opened.size,
            at_line_end: true,
            longest,
            mark,
            seen: mark.count(),
        })
    }

    /// Gives the place back, where the last file is left too.
    pub fn end(self) -> P
        ensures { P.left result ≡ leaves self.entry.left self.entry.current }
    {
        let OutputFile {
            mut place,
            file,
            size: _,
            at_line_end: _,
            longest: _,
            mark: _,
            seen: _,
        } = self;
        place.leave(file);
        place
    }

    /// Turns to a new file, where that is to be.
    fn turn(&mut self)
        ensures turns { TurnsByRule self.old self.new }
        ensures keeps { Keeps (taken_by self.old) (taken_by self.new) }
    {
        let asked = self.mark.count();
        match turn_of(
            self.size,
            self.longest,
            self.at_line_end,
            asked != self.seen,
        ) {
            FileTurn::Stays => {}
            FileTurn::Reopens => {
                let is_opened = self.open_anew();
                self.seen = seen_after(self.seen, asked, is_opened);
            }
            FileTurn::Shifts => {
                if self.place.shift().is_ok() {
                    self.open_anew();
                }
            }
        }
    }

    /// Opens the path anew, and leaves the file that was open; or answers that it can't be opened.
    fn open_anew(&mut self) -> bool
        requires { self.old.at_line_end ≡ true }
        ensures leaves { result ≡ true → IsLeft self.old self.new }
        ensures stays { result ≡ false → self.new ≡ self.old }
        ensures keeps { Keeps (taken_by self.old) (taken_by self.new) }
    {
        let Ok(opened) = self.place.open() else {
            return false;
        };
        let left = mem::replace(&mut self.file, opened.file);
        self.place.leave(left);
        self.size = opened.size;
        true
    }
}

impl<'m, P: OutputPlace + Drop> Write for OutputFile<'m, P> {
    ghost contents = { λ s. taken_by s };

    fn write(&mut self, bytes: &[u8]) -> io::Result<usize>
        ensures bound { WritesAtMost result bytes.now }
        ensures bytes { WriteAppends (taken_by self.old) (taken_by self.new) result bytes.now }
        ensures writes { Writes self.old bytes.now result self.new }
    {
        self.turn();
        let count = self.file.write(bytes)?;
        let taken = &bytes[..count];
        self.size = self.size.saturating_add(count as u64);
        self.at_line_end = line_end_after(self.at_line_end, taken);
        Ok(count)
    }

    fn flush(&mut self) -> io::Result<()> {
        self.file.flush()
    }
}

/// Whether a file is at the end of a line once it took these bytes more.
pub fn line_end_after(before: bool, taken: &[u8]) -> bool
    ensures { result ≡ line_end_after before taken.now }
{
    match taken.last() {
        None => before,
        Some(byte) => *byte == b'\n',
    }
}
