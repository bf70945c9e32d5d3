//! The requests that stand in the files of earlier runs, read by some threads.
use crate::folder::{FileNumber, LedgerFolder};
use crate::marking::SpanPlace;
use crate::pending_request::PendingRequest;
use otlp_encoding::Encoding;
use otlp_types::Record;
use request_ledger::{HEAD_LEN, RequestEntry, record_at, request_in};
use std::alloc::{AllocError, Global};
use std::collections::BTreeSet;
use std::fs::File;
use std::rt::Files;
use std::sync::{Arc, Wait};
use std::thread::{JoinHandle, Threads};
use std::{io, thread};

/// So many threads read, each its share of the files.
const READERS: usize = 4;

/// Where a request stands: its segment, its lane, and its place in their file.
pub type RequestPlace = (u64, u16, u64);

/// What stands in a file.
#[derive(Drop)]
pub struct FileRead {
    /// Its requests that no later run took again. None of their spans is marked as pending.
    pub requests: Vec<PendingRequest>,
    /// Their spans that have valid ids, by the place of the request in this list.
    pub spans: Vec<SpanPlace>,
    /// Its end can't be read.
    pub is_cut: bool,
}

/// What is to be read.
#[derive(Drop)]
struct Reading<R: Files<File = File>> {
    alloc: Global,
    folder: Arc<LedgerFolder<R>, Global>,
    files: Arc<Vec<FileNumber>, Global>,
    again: Arc<BTreeSet<RequestPlace>, Global>,
}

impl<R: Files<File = File> + Copy> Reading<R> {
    /// The same, for another thread.
    fn try_clone(&self) -> io::Result<Self> {
        Ok(Reading {
            alloc: self.alloc,
            folder: Arc::try_clone(&self.folder)?,
            files: Arc::try_clone(&self.files)?,
            again: Arc::try_clone(&self.again)?,
        })
    }

    /// Reads a share of the files, in their order.
    fn share(&self, share: usize) -> io::Result<Vec<FileRead>> {
        let mut read = Vec::new(self.alloc);
        for (place, number) in self.files.iter().enumerate() {
            if place % READERS == share {
                read.push(read_file(self.alloc, &self.folder, *number, &self.again)?)?;
            }
        }
        Ok(read)
    }
}

/// Reads these files by some threads: the shares in turn have what stands in the files in turn. An error: a file can't be read,
/// there is no memory, or no thread.
pub fn read_shares<R: Files<File = File> + Threads + Wait + Copy + Send + Sync + 'static>(
    rt: &R,
    alloc: Global,
    folder: &Arc<LedgerFolder<R>, Global>,
    files: Vec<FileNumber>,
    again: BTreeSet<RequestPlace>,
) -> io::Result<Vec<Vec<FileRead>>>
where
    R::Dir: Send + 'static,
{
    let reading = Reading {
        alloc,
        folder: Arc::try_clone(folder)?,
        files: Arc::new(alloc, files)?,
        again: Arc::new(alloc, again)?,
    };
    let mut threads = Vec::new(alloc);
    for share in 0..READERS {
        threads.push(share_thread(rt, &reading, share)?)?;
    }
    let mut shares = Vec::new(alloc);
    for thread in threads {
        shares.push(thread.join(rt)?)?;
    }
    Ok(shares)
}

/// A thread that reads this share.
fn share_thread<R: Files<File = File> + Threads + Wait + Copy + Send + Sync + 'static>(
    rt: &R,
    reading: &Reading<R>,
    share: usize,
) -> io::Result<JoinHandle<io::Result<Vec<FileRead>>>>
where
    R::Dir: Send + 'static,
{
    let own = reading.try_clone()?;
    let thread = thread::spawn(rt, move || own.share(share))?;
    Ok(thread)
}

/// Reads a file, but for the requests that a later run took again.
pub fn read_file<R: Files<File = File> + Copy>(
    alloc: Global,
    folder: &LedgerFolder<R>,
    number: FileNumber,
    again: &BTreeSet<RequestPlace>,
) -> io::Result<FileRead> {
    let bytes = folder.read(number)?;
    let mut read = FileRead {
        requests: Vec::new(alloc),
        spans: Vec::new(alloc),
        is_cut: false,
    };
    let lane = number.lane.unwrap_or(0);
    let mut at = 0;
    for _ in 0..bytes.len() {
        // Zeros, as a crash may leave them, are records of nothing, and no requests.
        let Some(payload) = record_at(&bytes, at) else {
            break;
        };
        let Some(entry) = request_in(payload) else {
            break;
        };
        let place = at as u64;
        at = at.saturating_add(HEAD_LEN).saturating_add(payload.len());
        if !again.contains(&(number.segment, lane, place)) {
            read_request(alloc, number, place, &entry, &mut read)?;
        }
    }
    read.is_cut = at < bytes.len();
    Ok(read)
}

/// Reads the request at this place.
fn read_request(
    alloc: Global,
    file: FileNumber,
    place: u64,
    entry: &RequestEntry<'_>,
    read: &mut FileRead,
) -> io::Result<()> {
    let Some(records) = records_of(alloc, entry.encoding, entry.text)? else {
        return Ok(());
    };
    let request = read.requests.len();
    put_spans(&records, entry.moment, request, &mut read.spans)?;
    let came = (entry.connection, entry.moment);
    read.requests.push(PendingRequest::new(alloc, file, place, records.len(), came)?)?;
    Ok(())
}

/// The spans of a request's text, in document order. None: it is no request.
pub fn records_of(
    alloc: Global,
    encoding: Encoding,
    text: &[u8],
) -> Result<Option<Vec<Record>>, AllocError> {
    match otlp_request::decode(alloc, encoding, true, text) {
        Ok(request) => Ok(Some(otlp_flatten::flatten(alloc, request)?)),
        Err(otlp_request::DecodeError::Bad(_)) => Ok(None),
        Err(otlp_request::DecodeError::NoMemory) => Err(AllocError),
    }
}

/// Puts the places of those spans of a request that have valid ids behind the others.
fn put_spans(
    records: &[Record],
    moment: u64,
    request: usize,
    spans: &mut Vec<SpanPlace>,
) -> Result<(), AllocError> {
    for (number, record) in records.iter().enumerate() {
        if let Some(ids) = record.span.get().ids {
            spans.push(SpanPlace {
                trace: ids.trace,
                moment,
                request,
                number,
                span: ids.span,
            })?;
        }
    }
    Ok(())
}
