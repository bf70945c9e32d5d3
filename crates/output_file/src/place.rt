//! Where the files of an output are.
ghost use Rattle.std.specs.Prelude.{◌≡◌, List, ℕ, Option, IfOk};
ghost use Rattle.output_file.specs.Segments.{leaves, IsFresh};

use std::io;
use std::io::Write;

/// A file that was opened to append to it.
#[derive(Drop)]
pub struct OpenedFile<F: Drop> {
    /// The file.
    pub file: F,
    /// So many bytes were in it.
    pub size: u64,
}

/// What opens and renames the files of an output.
pub trait OutputPlace {
    /// What is open.
    type File: Write + Drop;

    /// What each file took that was left, in order, where that is known.
    ghost left: { Self → Option (List (List ℕ)) };

    /// Opens the output's path to append to it; the file is made where there is none. What is in it ends at the end of a
    /// line: where it doesn't, a line feed is written first. An error: the path can't be opened, read or written.
    fn open(&mut self) -> io::Result<OpenedFile<Self::File>>
        ensures left { left self.new ≡ left self.old }
        ensures fresh { IfOk result (λ opened. IsFresh (left self.old) (Self.File.contents opened.file)) };

    /// A file is left.
    fn leave(&mut self, file: Self::File)
        ensures { left self.new ≡ leaves (left self.old) (Self.File.contents file) };

    /// The names of the output's files move up by one, so that its path is free. An error: one can't be renamed.
    fn shift(&mut self) -> io::Result<()>
        ensures { left self.new ≡ left self.old };
}
