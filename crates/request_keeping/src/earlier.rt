//! What an earlier run left: the requests that have spans without an end.
use crate::file_reading::{FileRead, RequestPlace, read_file, read_shares, records_of};
use crate::folder::{FileNumber, LedgerFolder};
use crate::marking::{SpanPlace, mark_pending};
use crate::pending_request::PendingRequest;
use otlp_encoding::Encoding;
use otlp_types::Record;
use request_ledger::{HEAD_LEN, LedgerEnd, LedgerNote, note_in, record_at, request_in};
use span_ids::TraceId;
use std::alloc::{AllocError, Global};
use std::collections::{BTreeSet, HashMap};
use std::fs::File;
use std::io;
use std::io::ErrorKind;
use std::rt::Files;
use std::sync::{Arc, Wait};
use std::thread::Threads;

/// The most spans of a request that is sent again in part.
const MOST_SPANS: usize = 256;

/// What became of the spans of one run.
#[derive(Drop)]
struct RunNotes {
    run: u64,
    ends: HashMap<TraceId, Vec<LedgerEnd>>,
}

/// The requests of one run, and their spans.
#[derive(Drop)]
struct RunRequests {
    run: u64,
    requests: Vec<PendingRequest>,
    spans: Vec<SpanPlace>,
}

/// What notes say.
#[derive(Drop)]
struct AllNotes {
    /// By their runs, in order.
    runs: Vec<RunNotes>,
    /// Which requests were taken again by a later run.
    again: BTreeSet<RequestPlace>,
}

/// What earlier runs left in a folder.
#[derive(Drop)]
pub struct Earlier {
    alloc: Global,
    /// In the order in which they are to be sent again: the latest run first, since it has what it took again of those
    /// before; in a run as they came.
    requests: Vec<PendingRequest>,
    files: Vec<FileNumber>,
    /// How many files have an end that can't be read.
    cut: u64,
    /// The traces of which spans have no end, in each run.
    traces: u64,
}

/// The bytes of the file that was read last, if one was.
#[derive(Drop)]
pub struct LoadedFile {
    file: Option<(FileNumber, Vec<u8>)>,
}

impl LoadedFile {
    /// None was read.
    pub fn none() -> Self {
        LoadedFile { file: None }
    }
}

impl Earlier {
    /// Reads these files of a folder. An error: one can't be read, or there is no memory.
    pub fn read<R: Files<File = File> + Copy>(
        alloc: Global,
        folder: &LedgerFolder<R>,
        files: Vec<FileNumber>,
    ) -> io::Result<Self> {
        let mut earlier = Earlier::new(alloc, files);
        let notes = earlier.read_notes(folder)?;
        let mut runs = Vec::new(alloc);
        for number in &earlier.files {
            if number.lane.is_some() {
                let read = read_file(alloc, folder, *number, &notes.again)?;
                earlier.cut = earlier.cut.saturating_add(u64::from(read.is_cut));
                add_file(alloc, &mut runs, number.run, read)?;
            }
        }
        earlier.mark_all(runs, &notes.runs)?;
        Ok(earlier)
    }

    /// The same, by some threads.
    pub fn read_by_threads<R: Files<File = File> + Threads + Wait + Copy + Send + Sync + 'static>(
        rt: &R,
        alloc: Global,
        folder: &Arc<LedgerFolder<R>, Global>,
        files: Vec<FileNumber>,
    ) -> io::Result<Self>
    where
        R::Dir: Send + 'static,
    {
        let mut earlier = Earlier::new(alloc, files);
        let AllNotes { runs: told, again } = earlier.read_notes(folder)?;
        let numbers = earlier.request_files()?;
        let mut shares = Vec::new(alloc);
        for share in read_shares(rt, alloc, folder, earlier.request_files()?, again)? {
            shares.push(share.into_iter())?;
        }
        let mut runs = Vec::new(alloc);
        for (place, number) in numbers.iter().enumerate() {
            let count = shares.len();
            let Some(read) = next_of(&mut shares, place % count.max(1)) else {
                continue;
            };
            earlier.cut = earlier.cut.saturating_add(u64::from(read.is_cut));
            add_file(alloc, &mut runs, number.run, read)?;
        }
        earlier.mark_all(runs, &told)?;
        Ok(earlier)
    }

    /// Nothing was read of these files.
    fn new(alloc: Global, files: Vec<FileNumber>) -> Self {
        Earlier {
            alloc,
            requests: Vec::new(alloc),
            files,
            cut: 0,
            traces: 0,
        }
    }

    /// The requests with spans that have no end, in the order in which they are to be sent again.
    pub fn requests(&self) -> &[PendingRequest] {
        &self.requests
    }

    /// The runs of which there are files, the latest first.
    pub fn runs(&self) -> Result<Vec<u64>, AllocError> {
        latest_first(self.alloc, &self.files)
    }

    /// Of how many traces there are spans that have no end; one that came in several runs counts in each.
    pub fn traces(&self) -> u64 {
        self.traces
    }

    /// How many files have an end that can't be read.
    pub fn cut(&self) -> u64 {
        self.cut
    }

    /// The files.
    pub fn files(&self) -> &[FileNumber] {
        &self.files
    }

    /// The files of requests, in order.
    fn request_files(&self) -> Result<Vec<FileNumber>, AllocError> {
        let mut files = Vec::new(self.alloc);
        for number in &self.files {
            if number.lane.is_some() {
                files.push(*number)?;
            }
        }
        Ok(files)
    }

    /// Reads all notes.
    fn read_notes<R: Files<File = File> + Copy>(
        &mut self,
        folder: &LedgerFolder<R>,
    ) -> io::Result<AllNotes> {
        let mut notes = AllNotes {
            runs: Vec::new(self.alloc),
            again: BTreeSet::new(self.alloc),
        };
        for number in &self.files {
            if number.lane.is_some() {
                continue;
            }
            if notes
                .runs
                .last()
                .is_none_or(|last: &RunNotes| last.run != number.run)
            {
                notes.runs.push(RunNotes {
                    run: number.run,
                    ends: HashMap::new(self.alloc),
                })?;
            }
            let bytes = folder.read(*number)?;
            if add_notes(self.alloc, &bytes, &mut notes)? < bytes.len() {
                self.cut = self.cut.saturating_add(1);
            }
        }
        Ok(notes)
    }

    /// Marks the spans of each run that are received again, by its notes, and keeps the requests that have some.
    fn mark_all(&mut self, runs: Vec<RunRequests>, told: &[RunNotes]) -> Result<(), AllocError> {
        let none = HashMap::new(self.alloc);
        for run in runs.into_iter().rev() {
            let RunRequests {
                run,
                mut requests,
                mut spans,
            } = run;
            let ends = match told.iter().find(|notes| notes.run == run) {
                Some(notes) => &notes.ends,
                None => &none,
            };
            let traces = mark_pending(self.alloc, &mut spans, ends, &mut requests)?;
            self.traces = self.traces.saturating_add(traces);
            for request in requests {
                if 0 < request.spans {
                    self.requests.push(request)?;
                }
            }
        }
        Ok(())
    }

    /// The bodies by which the pending spans of the request at this place of the list are sent again. Its file is read where
    /// another one was read last.
    pub fn bodies_of<R: Files<File = File> + Copy>(
        &self,
        folder: &LedgerFolder<R>,
        loaded: &mut LoadedFile,
        at: usize,
    ) -> io::Result<Vec<(Encoding, Vec<u8>)>> {
        let mut bodies = Vec::new(self.alloc);
        let Some(request) = self.requests.get(at) else {
            return Ok(bodies);
        };
        let is_loaded = match &loaded.file {
            Some((number, _)) => *number == request.file,
            None => false,
        };
        if !is_loaded {
            loaded.file = Some((request.file, folder.read(request.file)?));
        }
        let Some((_, bytes)) = &loaded.file else {
            return Ok(bodies);
        };
        let place = usize::try_from(request.place).unwrap_or(usize::MAX);
        let Some(entry) = record_at(bytes, place).and_then(|payload| request_in(payload)) else {
            return Err(io::Error::from(ErrorKind::InvalidData));
        };
        if request.spans == request.pending.len() as u64 {
            let mut text = Vec::new(self.alloc);
            text.extend_from_slice(entry.text)?;
            bodies.push((entry.encoding, text))?;
            return Ok(bodies);
        }
        let Some(records) = records_of(self.alloc, entry.encoding, entry.text)? else {
            return Err(io::Error::from(ErrorKind::InvalidData));
        };
        put_bodies(self.alloc, records, &request.pending, &mut bodies)?;
        Ok(bodies)
    }
}

/// The runs of which there are files, the latest first.
fn latest_first(alloc: Global, files: &[FileNumber]) -> Result<Vec<u64>, AllocError> {
    let mut runs = Vec::new(alloc);
    // Files stand by their runs.
    for number in files.iter().rev() {
        if runs.last().is_none_or(|last: &u64| *last != number.run) {
            runs.push(number.run)?;
        }
    }
    Ok(runs)
}

/// What the share at this place has next.
fn next_of(shares: &mut [std::vec::IntoIter<FileRead>], place: usize) -> Option<FileRead> {
    shares.get_mut(place)?.next()
}

/// Adds what stands in a file of a run to what stands in those before.
fn add_file(
    alloc: Global,
    runs: &mut Vec<RunRequests>,
    run: u64,
    read: FileRead,
) -> Result<(), AllocError> {
    if runs.last().is_none_or(|last: &RunRequests| last.run != run) {
        runs.push(RunRequests {
            run,
            requests: Vec::new(alloc),
            spans: Vec::new(alloc),
        })?;
    }
    let Some(last) = runs.last_mut() else {
        return Ok(());
    };
    let before = last.requests.len();
    for mut place in read.spans {
        place.request = place.request.saturating_add(before);
        last.spans.push(place)?;
    }
    for request in read.requests {
        last.requests.push(request)?;
    }
    Ok(())
}

/// Adds the notes in a file to those of its run, the last, and answers up to where it has whole records of notes.
fn add_notes(alloc: Global, bytes: &[u8], notes: &mut AllNotes) -> Result<usize, AllocError> {
    let mut at = 0;
    for _ in 0..bytes.len() {
        let Some(payload) = record_at(bytes, at) else {
            break;
        };
        let Some(note) = note_in(payload) else {
            break;
        };
        at = at.saturating_add(HEAD_LEN).saturating_add(payload.len());
        add_note(alloc, note, notes)?;
    }
    Ok(at)
}

/// Adds a note to those of its run, the last.
fn add_note(alloc: Global, note: LedgerNote, notes: &mut AllNotes) -> Result<(), AllocError> {
    match note {
        LedgerNote::Counted {
            trace,
            moment,
            spans,
        } => add_end(alloc, notes, trace, LedgerEnd::Counted { moment, spans }),
        LedgerNote::Handed { trace, span } => {
            add_end(alloc, notes, trace, LedgerEnd::Handed(span))
        }
        LedgerNote::Again {
            segment,
            lane,
            place,
        } => {
            notes.again.insert((segment, lane, place))?;
            Ok(())
        }
    }
}

/// Adds what a note says of a trace to the ends of its run, the last.
fn add_end(
    alloc: Global,
    notes: &mut AllNotes,
    trace: TraceId,
    end: LedgerEnd,
) -> Result<(), AllocError> {
    let Some(run) = notes.runs.last_mut() else {
        return Ok(());
    };
    let of_trace = run.ends.entry(trace)?.or_insert(Vec::new(alloc));
    match of_trace.push(end) {
        Ok(()) => Ok(()),
        Err(_) => Err(AllocError),
    }
}

/// Puts bodies with those of the spans that have no end.
fn put_bodies(
    alloc: Global,
    records: Vec<Record>,
    pending: &[bool],
    bodies: &mut Vec<(Encoding, Vec<u8>)>,
) -> Result<(), AllocError> {
    let mut some = Vec::new(alloc);
    let mut flags = pending.iter();
    for record in records {
        if flags.next().copied().unwrap_or(false) {
            some.push(record)?;
        }
        if some.len() >= MOST_SPANS {
            bodies.push(body_of(alloc, &mut some)?)?;
            some.clear();
        }
    }
    if !some.is_empty() {
        bodies.push(body_of(alloc, &mut some)?)?;
    }
    Ok(())
}

/// A body with these spans.
fn body_of(alloc: Global, records: &mut Vec<Record>) -> Result<(Encoding, Vec<u8>), AllocError> {
    let request = otlp_flatten::group(alloc, records.as_mut_slice())?;
    Ok((Encoding::Json, otlp_json::encode(alloc, &request)?))
}
