//! The folder of a ledger, and the names of its files.
use std::alloc::Global;
use std::fs::{File, OpenOptions};
use std::io::{ErrorKind, Read, Write};
use std::rt::Files;
use std::{fs, io};

/// At most so many pieces of a list of names are read.
const LONGEST_LIST: usize = 65_536;

/// So many bytes are written to see whether there is room.
const PROBE: usize = 16_384;

/// A file of a ledger: of which run it is, which segment, and of which lane its requests are; or none, of what ended.
#[derive(Clone, Copy, PartialEq, Eq)]
pub struct FileNumber {
    /// Runs are numbered from 1, in the order in which they began.
    pub run: u64,
    /// Segments are numbered over all runs, from 1.
    pub segment: u64,
    pub lane: Option<u16>,
}

impl FileNumber {
    /// The name of the file.
    pub fn name(&self, alloc: Global) -> io::Result<String> {
        let (run, segment) = (self.run, self.segment);
        let name = match self.lane {
            Some(lane) => format!(in alloc; "requests.{run}.{segment}.{lane}")?,
            None => format!(in alloc; "ends.{run}.{segment}")?,
        };
        Ok(name)
    }

    /// The file of this name, if it is one of a ledger.
    pub fn of_name(name: &str) -> Option<FileNumber> {
        if let Some(rest) = name.strip_prefix("ends.") {
            let (run, segment) = rest.split_once('.')?;
            return Some(FileNumber {
                run: run.parse().ok()?,
                segment: segment.parse().ok()?,
                lane: None,
            });
        }
        let rest = name.strip_prefix("requests.")?;
        let (run, rest) = rest.split_once('.')?;
        let (segment, lane) = rest.split_once('.')?;
        Some(FileNumber {
            run: run.parse().ok()?,
            segment: segment.parse().ok()?,
            lane: Some(lane.parse().ok()?),
        })
    }
}

/// The folder of a ledger, which no other process has meanwhile, unless it is only looked at.
#[derive(Drop)]
pub struct LedgerFolder<R: Files<File = File>> {
    rt: R,
    alloc: Global,
    path: String,
    /// Its lock is let go with it. None: it is only looked at.
    _lock: Option<File>,
}

impl<R: Files<File = File> + Copy> LedgerFolder<R> {
    /// The folder at this path, made where there is none. An error: it can't be made or written, or another process has it.
    pub fn open(rt: &R, alloc: Global, path: &str) -> io::Result<Self> {
        fs::create_dir_all(rt, path)?;
        let lock = OpenOptions::new()
            .write(true)
            .create(true)
            .open(rt, format!(in alloc; "{path}/lock")?.as_str())?;
        if lock.try_lock().is_err() {
            return Err(io::Error::from(ErrorKind::WouldBlock));
        }
        Ok(LedgerFolder {
            rt: *rt,
            alloc,
            path: String::from_str(alloc, path)?,
            _lock: Some(lock),
        })
    }

    /// The path of a file.
    fn path_of(&self, number: FileNumber) -> io::Result<String> {
        let name = number.name(self.alloc)?;
        let path = self.path.as_str();
        Ok(format!(in self.alloc; "{path}/{name}")?)
    }

    /// A new file, to which only is appended.
    pub fn create(&self, number: FileNumber) -> io::Result<File> {
        let path = self.path_of(number)?;
        OpenOptions::new()
            .append(true)
            .create_new(true)
            .open(&self.rt, path.as_str())
    }

    /// Syncs the folder itself: the names of the files that were made in it.
    pub fn sync(&self) -> io::Result<()> {
        fs::open(&self.rt, self.path.as_str())?.sync_all()
    }

    /// Whether something can be written. An error: it can't.
    pub fn has_room(&self) -> io::Result<()> {
        let path = self.path.as_str();
        let name = format!(in self.alloc; "{path}/probe")?;
        let mut file = fs::create(&self.rt, name.as_str())?;
        let written = file.write_all(&[0; PROBE]);
        fs::remove_file(&self.rt, name.as_str())?;
        written
    }

    /// The bytes of a file.
    pub fn read(&self, number: FileNumber) -> io::Result<Vec<u8>> {
        let path = self.path_of(number)?;
        let mut file = fs::open(&self.rt, path.as_str())?;
        let mut bytes = Vec::new(self.alloc);
        file.read_to_end(&mut bytes)?;
        Ok(bytes)
    }

    /// Removes a file; one that isn't there is no error.
    pub fn remove(&self, number: FileNumber) -> io::Result<()> {
        let path = self.path_of(number)?;
        match fs::remove_file(&self.rt, path.as_str()) {
            Err(error) if error.kind() == ErrorKind::NotFound => Ok(()),
            answer => answer,
        }
    }

    /// Its files, by run, segment and lane; what isn't of a ledger is passed over.
    pub fn files(&self) -> io::Result<Vec<FileNumber>> {
        let path = self.path.as_str();
        let mut folder = self
            .rt
            .open_dir(format!(in self.alloc; "{path}/")?.as_str())?;
        let mut names = Vec::new(self.alloc);
        let mut piece = [0; 4096];
        for _ in 0..LONGEST_LIST {
            let count = folder.read(&mut piece)?;
            if count == 0 {
                break;
            }
            names.extend_from_slice(piece.get(..count).unwrap_or(b""))?;
        }
        let mut files = Vec::new(self.alloc);
        for name in names.split(|byte| *byte == 0) {
            if let Some(number) = number_of(name) {
                files.push(number)?;
            }
        }
        files.sort_by_key(|number| (number.run, number.segment, number.lane))?;
        Ok(files)
    }

    /// The folder at this path, to look at what is in it: it isn't made or locked, and another process may change it
    /// meanwhile.
    pub fn look(rt: &R, alloc: Global, path: &str) -> io::Result<Self> {
        Ok(LedgerFolder {
            rt: *rt,
            alloc,
            path: String::from_str(alloc, path)?,
            _lock: None,
        })
    }
}

/// The file of the name with these bytes.
fn number_of(name: &[u8]) -> Option<FileNumber> {
    let name = str::from_utf8(name).ok()?;
    FileNumber::of_name(name)
}
