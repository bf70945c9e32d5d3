//! What is in the folder of a ledger. It is only looked at: it isn't locked, no file is changed, and a collector that runs
//! by it may change it meanwhile.
use collector_commands::{LedgerForm, config_of, read_file, say_pending};
use ledger_text::{FolderFault, LedgerLook, LedgerNumbers, fault_of, pending_connection};
use line_entries::TakenRequest;
use request_keeping::{Earlier, FileNumber, FileTotals, LedgerFolder, LoadedFile, PendingRequest};
use std::alloc::Global;
use std::fs::File;
use std::io;
use std::io::{ErrorKind, Write};
use std::rt::Files;

/// So often it is looked anew where a file went before it was read.
const TRIES: usize = 5;

/// What is in the folder at this path: its numbers, and to make a script the requests that are pending.
pub fn look_into<T: Files<File = File> + Copy>(
    rt: &T,
    alloc: Global,
    path: &str,
    form: LedgerForm,
) -> Result<LedgerLook, FolderFault> {
    // It would be the folder at the root.
    if path.is_empty() {
        return Err(fault_of(ErrorKind::NotFound));
    }
    for _ in 0..TRIES {
        let folder = opened(LedgerFolder::look(rt, alloc, path))?;
        let files = opened(folder.files())?;
        match look_at(alloc, &folder, files, form) {
            Ok(look) => return Ok(look),
            // A collector that runs by it removed a file meanwhile.
            Err(error) if error.kind() == ErrorKind::NotFound => {}
            Err(error) => return Err(fault_of(error.kind())),
        }
    }
    Err(FolderFault::Other)
}

fn opened<V>(answer: io::Result<V>) -> Result<V, FolderFault> {
    match answer {
        Ok(value) => Ok(value),
        Err(error) => Err(fault_of(error.kind())),
    }
}

/// What these files of a folder hold.
fn look_at<T: Files<File = File> + Copy>(
    alloc: Global,
    folder: &LedgerFolder<T>,
    files: Vec<FileNumber>,
    form: LedgerForm,
) -> io::Result<LedgerLook> {
    let totals = FileTotals::of(folder, &files)?;
    let segments = segments_of(&files);
    let earlier = Earlier::read(alloc, folder, files)?;
    let mut numbers = LedgerNumbers {
        runs: earlier.runs()?.len() as u64,
        segments,
        files: earlier.files().len() as u64,
        cut_files: earlier.cut(),
        bytes: totals.bytes,
        requests: totals.requests,
        pending_requests: earlier.requests().len() as u64,
        pending_spans: 0,
        pending_traces: earlier.traces(),
        oldest: None,
        newest: None,
    };
    for request in earlier.requests() {
        let (_, moment) = request.came();
        numbers.pending_spans = numbers.pending_spans.saturating_add(request.spans());
        numbers.oldest = Some(numbers.oldest.unwrap_or(moment).min(moment));
        numbers.newest = Some(numbers.newest.unwrap_or(moment).max(moment));
    }
    let requests = match form {
        LedgerForm::Numbers => Vec::new(alloc),
        LedgerForm::Script => pending(alloc, folder, &earlier)?,
    };
    Ok(LedgerLook { numbers, requests })
}

/// How many segments these files are of, which stand by their segments.
fn segments_of(files: &[FileNumber]) -> u64 {
    let mut last = None;
    let mut segments: u64 = 0;
    for number in files {
        if last != Some(number.segment) {
            last = Some(number.segment);
            segments = segments.saturating_add(1);
        }
    }
    segments
}

/// The requests that are pending, in the order in which they would be received again, with their pending spans alone.
fn pending<T: Files<File = File> + Copy>(
    alloc: Global,
    folder: &LedgerFolder<T>,
    earlier: &Earlier,
) -> io::Result<Vec<TakenRequest>> {
    let runs = earlier.runs()?;
    let lanes = lanes_of(earlier.files());
    let mut requests = Vec::new(alloc);
    let mut loaded = LoadedFile::none();
    for (at, request) in earlier.requests().iter().enumerate() {
        let Some(connection) = number_of(request, &runs, lanes) else {
            return Err(io::Error::from(ErrorKind::InvalidData));
        };
        let (_, moment) = request.came();
        for (encoding, text) in earlier.bodies_of(folder, &mut loaded, at)? {
            requests.push(TakenRequest {
                connection,
                moment,
                encoding,
                text,
            })?;
        }
    }
    Ok(requests)
}

/// How many lanes there were, at least.
fn lanes_of(files: &[FileNumber]) -> u64 {
    let mut lanes = 1;
    for number in files {
        lanes = (u64::from(number.lane.unwrap_or(0)) + 1).max(lanes);
    }
    lanes
}

/// The number in a script of a request's connection, by the runs that there are.
fn number_of(request: &PendingRequest, runs: &[u64], lanes: u64) -> Option<u64> {
    let (connection, _) = request.came();
    let run = runs.iter().position(|run| *run == request.run())?;
    pending_connection(connection, run as u64, runs.len() as u64, lanes)
}

/// Says what the next start by the configuration at this path would receive again, where it has a ledger.
pub fn say_ledger<T: Files<File = File> + Copy, E: Write + Drop>(
    rt: &T,
    alloc: Global,
    path: &str,
    errors: E,
) {
    let Ok(config) = config_of(alloc, read_file(rt, alloc, path)) else {
        return;
    };
    let folder = config.ledger.path.as_str();
    if folder.is_empty() {
        return;
    }
    let found = match look_into(rt, alloc, folder, LedgerForm::Numbers) {
        Ok(look) => Ok(look.numbers),
        Err(fault) => Err(fault),
    };
    say_pending(alloc, folder, found, errors);
}
