//! What became of spans, on its way into a file.
use request_ledger::{HEAD_LEN, LedgerNote, put_note, record_at};
use std::alloc::{AllocError, Global};
use std::fs::File;
use std::io;
use std::io::{ErrorKind, Write};

/// The file to which notes go, and those that aren't written yet.
#[derive(Drop)]
pub struct Notes {
    alloc: Global,
    file: Option<File>,
    waiting: Vec<u8>,
}

impl Notes {
    /// None waits, and no file is open.
    pub fn new(alloc: Global) -> Self {
        Notes {
            alloc,
            file: None,
            waiting: Vec::new(alloc),
        }
    }

    /// Goes on in this file. What waits is written there, also what may be in the one before.
    pub fn turn(&mut self, file: File) {
        self.file = Some(file);
    }

    /// Puts a note behind those that wait.
    pub fn put(&mut self, note: &LedgerNote) -> Result<(), AllocError> {
        put_note(&mut self.waiting, note)
    }

    /// Writes all that wait. An error: a part of them may be in the file, and they are to go to another one.
    pub fn write(&mut self) -> io::Result<()> {
        if self.waiting.is_empty() {
            return Ok(());
        }
        let Some(file) = &mut self.file else {
            return Err(io::Error::from(ErrorKind::NotFound));
        };
        let (done, error) = write_some(file, &self.waiting);
        // What stands whole in that file is never told again: spans would be counted as ended that are not.
        let whole = whole_records(&self.waiting, done);
        let mut left = Vec::new(self.alloc);
        left.extend_from_slice(self.waiting.get(whole..).unwrap_or(b""))?;
        self.waiting = left;
        if let Some(error) = error {
            self.file = None;
            return Err(error);
        }
        Ok(())
    }

    /// Whether a write failed, and no other file was opened since.
    pub fn is_broken(&self) -> bool {
        self.file.is_none()
    }

    /// Syncs what was written.
    pub fn sync(&self) -> io::Result<()> {
        match &self.file {
            Some(file) => file.sync_data(),
            None => Ok(()),
        }
    }
}

/// Writes bytes, and answers how many of them were taken, and which error came before all were.
fn write_some(file: &mut File, bytes: &[u8]) -> (usize, Option<io::Error>) {
    let mut done = 0;
    for _ in 0..u64::MAX {
        let rest = bytes.get(done..).unwrap_or(b"");
        if rest.is_empty() {
            break;
        }
        match file.write(rest) {
            Ok(0) => return (done, Some(io::Error::from(ErrorKind::WriteZero))),
            Ok(count) => done = done.saturating_add(count),
            Err(error) if error.kind() == ErrorKind::Interrupted => {}
            Err(error) => return (done, Some(error)),
        }
    }
    (done, None)
}

/// How many of the first bytes are whole records within so many bytes.
fn whole_records(bytes: &[u8], within: usize) -> usize {
    let mut whole = 0;
    for _ in 0..bytes.len() {
        let Some(payload) = record_at(bytes, whole) else {
            break;
        };
        let end = whole.saturating_add(HEAD_LEN).saturating_add(payload.len());
        if end > within {
            break;
        }
        whole = end;
    }
    whole
}
