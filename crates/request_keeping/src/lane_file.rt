//! The file to which the requests of one lane go.
ghost use Rattle.std.specs.Prelude.{◌≡◌, [], OnOk};
ghost use Rattle.std.specs.Io.KnownBytes.{Appends};
ghost use Rattle.request_ledger.specs.Format.{record_of};
ghost use Rattle.request_ledger.specs.Entries.{request_bytes, request_of};

use otlp_encoding::Encoding;
use request_ledger::put_request;
use span_ids::{ConnKey, Moment};
use std::alloc::Global;
use std::fs::File;
use std::io::{ErrorKind, Write};
use std::{io, mem};

/// The most bytes of a record for which room is kept.
const ROOM: usize = 1_048_576;

/// The file to which the requests of one lane go now.
#[derive(Drop)]
pub struct LaneFile {
    alloc: Global,
    /// None: the last write failed, or none was opened yet. Behind a record that may be torn nothing is written.
    file: Option<File>,
    buffer: Vec<u8>,
    /// The greatest moment of its requests, in milliseconds, or 0.
    last: u64,
    /// Answers wait for a sync.
    syncs: bool,
    /// How many requests were written since it was synced last.
    unsynced: u64,
    /// So many requests are in a file of which a sync failed; nobody was told so yet.
    lost: u64,
}

impl LaneFile {
    /// None is open. `syncs`: answers wait for a sync.
    pub fn none(alloc: Global, syncs: bool) -> Self {
        LaneFile {
            alloc,
            file: None,
            buffer: Vec::new(alloc),
            last: 0,
            syncs,
            unsynced: 0,
            lost: 0,
        }
    }

    /// Whether a write failed, and no other file was opened since.
    pub fn is_broken(&self) -> bool {
        self.file.is_none()
    }

    /// Goes on in another file, and answers the greatest moment of the requests in the one before, which is synced first
    /// where answers wait for that.
    pub fn turn(&mut self, file: File) -> u64 {
        self.sync();
        self.file = Some(file);
        mem::replace(&mut self.last, 0)
    }

    /// Writes a request behind the others, and answers how many bytes that took. An error: it isn't there whole, and nothing
    /// more goes to this file.
    pub fn write(
        &mut self,
        connection: ConnKey,
        moment: u64,
        encoding: Encoding,
        text: &[u8],
    ) -> io::Result<u64> {
        let written = self.append(connection, moment, encoding, text);
        if written.is_err() {
            self.sync();
            self.file = None;
        }
        written
    }

    /// Syncs what was written, and answers how many requests were written since the last sync of which that failed.
    pub fn commit(&mut self) -> u64 {
        self.sync();
        mem::replace(&mut self.lost, 0)
    }

    /// Syncs what was written since the last sync, where answers wait for that. Behind a sync that failed nothing more goes
    /// to this file.
    fn sync(&mut self) {
        if !self.syncs || self.unsynced == 0 {
            return;
        }
        let synced = match &self.file {
            Some(file) => file.sync_data().is_ok(),
            None => false,
        };
        if !synced {
            self.lost = self.lost.saturating_add(self.unsynced);
            self.file = None;
        }
        self.unsynced = 0;
    }

    fn append(
        &mut self,
        connection: ConnKey,
        moment: u64,
        encoding: Encoding,
        text: &[u8],
    ) -> io::Result<u64> {
        let Some(file) = &mut self.file else {
            return Err(io::Error::from(ErrorKind::NotFound));
        };
        self.buffer.clear();
        write_request(file, &mut self.buffer, moment, connection, encoding, text)?;
        self.unsynced = self.unsynced.saturating_add(1);
        self.last = self.last.max(moment);
        let bytes = self.buffer.len() as u64;
        if self.buffer.capacity() > ROOM {
            self.buffer = Vec::new(self.alloc);
        }
        Ok(bytes)
    }
}

/// Writes the record of a request, and nothing else. It is put together in a buffer, which has to be empty.
fn write_request<W: Write>(
    out: &mut W,
    buffer: &mut Vec<u8>,
    moment: Moment,
    connection: ConnKey,
    encoding: Encoding,
    text: &[u8],
) -> io::Result<()>
    requires { buffer.old.items ≡ [] }
    ensures { OnOk result (Appends (W.contents out.old) (W.contents out.new) (record_of (request_bytes (request_of moment connection encoding text.now)))) }
{
    put_request(buffer, moment, connection, encoding, text)?;
    // At once, so that a kill leaves all of it or a part that is found to be one.
    out.write_all(buffer)
}
