//! Where the lines of decisions go, and the record of what came.
use crate::logging::say_fault;
use collector_serve::{
    Charge, DecisionEntries, EventWriter, LineFile, LineLosses, LineWriter, LinesOf, RecordEntries,
};
use line_entries::{DecisionLines, RecordLines};
use line_writing::{EntrySource, LineMaker};
use pipeline::Machine;
use std::alloc::{AllocError, Global};
use std::fs::File;
use std::io;
use std::io::Write;
use std::rt::Files;
use std::sync::Arc;
use tsc_config::Config;

/// A mebibyte.
const MEBIBYTE: u64 = 1_048_576;

/// Starts what writes a line for each decided and each evicted trace and for late spans, where the configuration names a
/// file for them. An error, which is said: it can't be opened.
pub fn opened_decisions<T: Files<File = File> + Machine + Copy + Send + 'static, E: Write + Drop>(
    rt: &T,
    alloc: Global,
    config: &Config,
    charge: &Arc<Charge, Global>,
    events: &mut EventWriter<E>,
) -> io::Result<LineWriter>
where
    T::Dir: Send + 'static,
{
    let begun = decision_lines(alloc, config, charge);
    opened_lines(rt, alloc, config, charge, LinesOf::Decisions, begun, events)
}

/// Starts what writes a line for each request that is taken and each tick, where the configuration names a file for them.
/// An error, which is said: it can't be opened.
pub fn opened_record<T: Files<File = File> + Machine + Copy + Send + 'static, E: Write + Drop>(
    rt: &T,
    alloc: Global,
    config: &Config,
    charge: &Arc<Charge, Global>,
    events: &mut EventWriter<E>,
) -> io::Result<LineWriter>
where
    T::Dir: Send + 'static,
{
    let begun = record_lines(alloc, charge);
    opened_lines(rt, alloc, config, charge, LinesOf::Record, begun, events)
}

/// The file that the configuration names for such lines, or an empty path, and the bytes after which a new one is begun, or
/// 0.
fn file_of(config: &Config, lines: LinesOf) -> (&str, u64) {
    let (path, mebibytes) = match lines {
        LinesOf::Decisions => (config.decisions.as_str(), config.decisions_max_mib),
        LinesOf::Record => (config.request_record.as_str(), config.record_max_mib),
    };
    (path, mebibytes.saturating_mul(MEBIBYTE))
}

/// Whether the path for such lines is that of the output, or that for the lines of decisions (D-410).
fn has_file_of_others(config: &Config, lines: LinesOf) -> bool {
    let (path, _longest) = file_of(config, lines);
    let is_output = path == config.output.as_str();
    match lines {
        LinesOf::Decisions => is_output,
        LinesOf::Record => is_output || path == config.decisions.as_str(),
    }
}

/// Starts what writes such lines, where the configuration names a file for them. An error, which is said: it can't be opened.
// The thread opens files, so all that the runtime has of these must be free to go there, folders as well (D-387).
fn opened_lines<
    T: Files<File = File> + Machine + Copy + Send + 'static,
    N: Send + Drop + 'static,
    S: EntrySource<N> + LineLosses + Send + Drop + 'static,
    L: LineMaker<N> + Send + Drop + 'static,
    E: Write + Drop,
>(
    rt: &T,
    alloc: Global,
    config: &Config,
    charge: &Arc<Charge, Global>,
    lines: LinesOf,
    begun: io::Result<(S, L)>,
    events: &mut EventWriter<E>,
) -> io::Result<LineWriter>
where
    T::Dir: Send + 'static,
{
    let (path, _longest) = file_of(config, lines);
    if path.is_empty() {
        return Ok(LineWriter::none());
    }
    match writer_of(rt, alloc, config, charge, lines, begun) {
        Ok(writer) => Ok(writer),
        Err(error) => {
            say_fault(rt, alloc, events, "cannot_write", path, error);
            Err(error)
        }
    }
}

/// Starts what writes such lines to the file that the configuration names.
fn writer_of<
    T: Files<File = File> + Machine + Copy + Send + 'static,
    N: Send + Drop + 'static,
    S: EntrySource<N> + LineLosses + Send + Drop + 'static,
    L: LineMaker<N> + Send + Drop + 'static,
>(
    rt: &T,
    alloc: Global,
    config: &Config,
    charge: &Arc<Charge, Global>,
    lines: LinesOf,
    begun: io::Result<(S, L)>,
) -> io::Result<LineWriter>
where
    T::Dir: Send + 'static,
{
    if has_file_of_others(config, lines) {
        return Err(io::ErrorKind::InvalidInput.into());
    }
    let (path, longest) = file_of(config, lines);
    let path = String::from_str(alloc, path)?;
    // As many as of the output.
    let keep = u32::try_from(config.output_keep).unwrap_or(u32::MAX);
    let shared = Arc::try_clone(charge)?;
    let file = LineFile::open(rt, alloc, path, keep, longest, shared, lines)?;
    let (entries, maker) = begun?;
    LineWriter::start(rt, alloc, file, entries, maker, Arc::try_clone(charge)?)
}

/// Where decisions wait, and what makes their lines. An error: there is no memory for the names of the policies.
fn decision_lines(
    alloc: Global,
    config: &Config,
    charge: &Arc<Charge, Global>,
) -> io::Result<(DecisionEntries, DecisionLines)> {
    let lines = DecisionLines::new(names_of(alloc, config)?);
    Ok((DecisionEntries::new(Arc::try_clone(charge)?), lines))
}

/// Where what came waits, and what makes its lines.
fn record_lines(
    alloc: Global,
    charge: &Arc<Charge, Global>,
) -> io::Result<(RecordEntries, RecordLines)> {
    let lines = RecordLines::new(alloc);
    Ok((RecordEntries::new(Arc::try_clone(charge)?), lines))
}

/// The names of the policies, in order.
fn names_of(alloc: Global, config: &Config) -> Result<Vec<String>, AllocError> {
    let mut names = Vec::new(alloc);
    for policy in config.policies.as_slice() {
        names.push(String::from_str(alloc, policy.name.as_str())?)?;
    }
    Ok(names)
}
