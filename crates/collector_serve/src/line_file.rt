//! The file of lines that a thread of their own writes.
use crate::charge::Charge;
use crate::lines_of::LinesOf;
use output_file::{FileTurn, FilesPlace, OpenedFile, OutputPlace, turn_of};
use std::alloc::Global;
use std::io;
use std::io::Write;
use std::rt::Files;
use std::sync::Arc;

/// A writer over the files of such lines, one after the other. It turns to a new file as an `OutputFile` does, by the same
/// rule; it has what it needs of the system by value, so that a thread can have it.
#[derive(Drop)]
pub struct LineFile<R: Files> {
    rt: R,
    alloc: Global,
    path: String,
    /// So many files are kept that were left.
    keep: u32,
    /// A new file is begun once one has so many bytes, or never: 0.
    longest: u64,
    file: R::File,
    size: u64,
    at_line_end: bool,
    charge: Arc<Charge, Global>,
    lines: LinesOf,
    /// How often a new file had been asked for when one was opened last.
    seen: u64,
}

impl<R: Files + Copy> LineFile<R> {
    /// The file at this path. An error: it can't be opened.
    pub fn open(
        rt: &R,
        alloc: Global,
        path: String,
        keep: u32,
        longest: u64,
        charge: Arc<Charge, Global>,
        lines: LinesOf,
    ) -> io::Result<Self> {
        let seen = charge.reopen_of(lines).count();
        let opened = opened_at(rt, alloc, path.as_str(), keep)?;
        Ok(LineFile {
            rt: *rt,
            alloc,
            path,
            keep,
            longest,
            file: opened.file,
            size: opened.size,
            at_line_end: true,
            charge,
            lines,
            seen,
        })
    }

    /// Turns to a new file, where that is to be. Where nothing can be renamed or opened it goes on in the one that is open.
    fn turn(&mut self) {
        let asked = self.charge.reopen_of(self.lines).count();
        match turn_of(
            self.size,
            self.longest,
            self.at_line_end,
            asked != self.seen,
        ) {
            FileTurn::Stays => {}
            FileTurn::Reopens => {
                if self.opens_anew().is_ok() {
                    self.seen = asked;
                }
            }
            FileTurn::Shifts => {
                if self.shifts().is_ok() {
                    let _ = self.opens_anew();
                }
            }
        }
    }

    /// Opens the path anew.
    fn opens_anew(&mut self) -> io::Result<()> {
        let opened = opened_at(&self.rt, self.alloc, self.path.as_str(), self.keep)?;
        self.file = opened.file;
        self.size = opened.size;
        Ok(())
    }

    /// Makes the path free: the names of the files that were left move up.
    fn shifts(&self) -> io::Result<()> {
        let path = String::from_str(self.alloc, self.path.as_str())?;
        FilesPlace::new(&self.rt, self.alloc, path, self.keep).shift()
    }
}

/// The file at this path, made where there is none.
fn opened_at<R: Files>(
    rt: &R,
    alloc: Global,
    path: &str,
    keep: u32,
) -> io::Result<OpenedFile<R::File>> {
    let path = String::from_str(alloc, path)?;
    FilesPlace::new(rt, alloc, path, keep).open()
}

impl<R: Files + Copy> Write for LineFile<R> {
    fn write(&mut self, bytes: &[u8]) -> io::Result<usize> {
        self.turn();
        let count = self.file.write(bytes)?;
        self.size = self.size.saturating_add(count as u64);
        if 0 < count {
            self.at_line_end = bytes[count - 1] == b'\n';
        }
        Ok(count)
    }

    fn flush(&mut self) -> io::Result<()> {
        self.file.flush()
    }
}
