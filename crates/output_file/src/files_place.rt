//! The files of an output in the file system.
ghost use Rattle.std.specs.Prelude.{◌≡◌, None, IfOk, string_bytes};
ghost use Rattle.output_file.specs.Names.{name_text};
ghost use Rattle.output_file.specs.Turning.{opened_size};

use crate::names::{OutputNames, shift_names};
use crate::place::{OpenedFile, OutputPlace};
use std::alloc::{AllocError, Global};
use std::fs::{OpenFile, OpenOptions};
use std::io::{ErrorKind, Read, Seek, SeekFrom, Write};
use std::rt::Files;
use std::{fs, io};

/// The files of an output at a path: the path itself, and behind it `PATH.1`, `PATH.2` and so on.
#[derive(Drop)]
pub struct FilesPlace<'r, R> {
    rt: &'r R,
    alloc: Global,
    path: String,
    keep: u32,
}

impl<'r, R: Files> FilesPlace<'r, R> {
    /// The files at this path, of which so many are kept that were left, and one at least.
    pub fn new(rt: &'r R, alloc: Global, path: String, keep: u32) -> Self {
        FilesPlace {
            rt,
            alloc,
            path,
            keep,
        }
    }
}

impl<'r, R: Files> OutputPlace for FilesPlace<'r, R> {
    type File = R::File;

    ghost left = { λ p. None };

    fn open(&mut self) -> io::Result<OpenedFile<R::File>> {
        let mut file = OpenOptions::new()
            .read(true)
            .append(true)
            .create(true)
            .open(self.rt, self.path.as_str())?;
        let found = file.metadata()?.len();
        let is_torn = found > 0 && ends_inside_line(&mut file)?;
        if is_torn {
            file.write_all(b"\n")?;
        }
        let size = opened_size(found, is_torn);
        Ok(OpenedFile { file, size })
    }

    fn leave(&mut self, _file: R::File) {}

    fn shift(&mut self) -> io::Result<()> {
        let keep = self.keep.max(1);
        shift_names(self, keep)
    }
}

/// How many bytes are in a file that was opened, where so many were found, and a line feed was written behind them if the
/// last line was torn.
fn opened_size(found: u64, is_torn: bool) -> u64
    ensures { result ≡ opened_size found is_torn }
{
    if !is_torn {
        return found;
    }
    found.saturating_add(1)
}

/// Whether the last byte of a file that has some is no line feed.
fn ends_inside_line<F: Read + Seek>(file: &mut F) -> io::Result<bool> {
    file.seek(SeekFrom::End(-1))?;
    let mut last = [0; 1];
    let count = file.read(&mut last)?;
    Ok(0 < count && last[0] != b'\n')
}

impl<'r, R: Files> OutputNames for FilesPlace<'r, R> {
    ghost names = { λ p. None };

    fn is_taken(&self, number: u32) -> io::Result<bool> {
        let name = name_of(self.alloc, self.path.as_str(), number)?;
        match fs::metadata(self.rt, name.as_str()) {
            Ok(found) if found.is_file() => Ok(true),
            // Neither a device nor a folder is renamed.
            Ok(_) => Err(io::Error::from(ErrorKind::InvalidInput)),
            Err(error) if error.kind() == ErrorKind::NotFound => Ok(false),
            Err(error) => Err(error),
        }
    }

    fn move_up(&mut self, number: u32) -> io::Result<()> {
        let from = name_of(self.alloc, self.path.as_str(), number)?;
        let to = name_of(self.alloc, self.path.as_str(), number.saturating_add(1))?;
        fs::rename(self.rt, from.as_str(), to.as_str())
    }
}

/// The name of this number: the path, and behind it, but for the number 0, a full stop and the number.
pub fn name_of(alloc: Global, path: &str, number: u32) -> Result<String, AllocError>
    ensures { IfOk result (λ name. string_bytes name ≡ name_text path.now number) }
{
    let mut name = String::new(alloc);
    name.push_str(path)?;
    if 0 < number {
        name.push_str(format!(in alloc; ".{number}")?.as_str())?;
    }
    Ok(name)
}
