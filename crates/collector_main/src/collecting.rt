//! `tsc serve`: where its lines go, and its run.
ghost use Rattle.std.specs.Prelude.{◌≡◌, List, ℕ, Option, true, false, IfOk, is_some};
ghost use Rattle.tsc_script.specs.Reads.{KnownReader};
ghost use Rattle.tsc_config.specs.Values.{InRange};
ghost use Rattle.collector_commands.specs.Configuration.{file_of};
ghost use Rattle.collector_main.specs.Serving.{Serves, RunsTo, FilesTo, writes_file};

use crate::keeping::Keeping;
use crate::logging::{say_end, say_fault, say_lost, say_no_memory, say_refused, say_start};
use crate::opening::{charge_of, copy_of, opened, watches};
use crate::running::serve_with;
use crate::writing_lines::{opened_decisions, opened_record};
use collector_board::WriteWatch;
use collector_commands::{FileFault, Outcome, Surroundings, config_of};
use collector_serve::{Charge, EventWriter, SteadyClock};
use output_file::{FilesPlace, OutputFile, ReopenMark, RetryingWriter};
use pipeline::Machine;
use std::alloc::Global;
use std::fs::File;
use std::io;
use std::io::{Read, Write};
use std::net::{Net, TcpListener, TcpStream};
use std::rt::Files;
use std::time::Clock;
use tsc_config::{Config, OutputFault};

/// A mebibyte.
const MEBIBYTE: u64 = 1_048_576;

/// Takes requests on a listener by the configuration in what was read from its file, which has this path.
pub fn serve_by<
    T: Files<File = File>
        + Net<Listener = TcpListener, Stream = TcpStream>
        + Machine
        + Copy
        + Send
        + 'static,
    I: Read + Send + Drop + 'static,
    E: Write + Send + Drop + 'static,
    W: Write + Drop,
>(
    rt: &T,
    alloc: Global,
    path: &str,
    file: Result<Vec<u8>, FileFault>,
    around: Surroundings<I, E>,
    writer: W,
) -> (W, Outcome)
where
    T::Dir: Send + 'static,
    ensures { (arguments : List (List ℕ)) → (unread : KnownReader) → Serves (record {
      arguments = arguments;
      file = file_of (λ v. v.items) file;
      unread = unread;
      unread_after = unread;
      taken = W.contents writer;
      taken_after = W.contents result.0;
    }) result.1 }
{
    // For `/config`: reading the configuration uses the bytes up.
    let copy = copy_of(alloc, &file);
    let config = match config_of(alloc, file) {
        Ok(config) => config,
        Err(outcome) => {
            say_refused(rt, alloc, around.errors, path, &outcome);
            return (writer, outcome);
        }
    };
    let mut events = EventWriter::new(around.errors, config.log);
    say_start(rt, alloc, &mut events, path, &config);
    // The settings in force are told whole, so without memory for their text it doesn't start (D-198).
    let Ok(charge) = charge_of(alloc, copy, &config) else {
        say_no_memory(rt, alloc, &mut events);
        return (writer, Outcome::NoMemory);
    };
    if watches(
        rt,
        alloc,
        &config,
        &charge,
        around.watch_errors,
        &mut events,
    )
    .is_err()
    {
        return (writer, Outcome::NoMemory);
    }
    let Ok(output) = opened_output(rt, alloc, &config, &charge.reopen, &mut events) else {
        return (writer, Outcome::CannotWrite);
    };
    let Ok(decisions) = opened_decisions(rt, alloc, &config, &charge, &mut events) else {
        return (writer, Outcome::CannotWrite);
    };
    let Ok(record) = opened_record(rt, alloc, &config, &charge, &mut events) else {
        return (writer, Outcome::CannotWrite);
    };
    let Ok(mut keeping) = Keeping::open(rt, alloc, &config, &charge, &mut events) else {
        return (writer, Outcome::CannotWrite);
    };
    let Ok((listener, door)) = opened(rt, alloc, &config, &charge, around.input, &mut events) else {
        return (writer, Outcome::CannotListen);
    };
    let Ok(()) = keeping.restore(rt, alloc, &config, &charge) else {
        return (writer, Outcome::CannotListen);
    };
    let ended = serve_to(rt, alloc, config, &listener, &charge, output, writer);
    keeping.ended(&charge, &ended.1);
    // Who connected meanwhile is answered, and then nobody listens any more (D-177).
    door.end(rt, &charge);
    drop(listener);
    decisions.end(rt);
    record.end(rt);
    keeping.end(rt, &charge);
    say_lost(rt, alloc, &mut events, &charge);
    // Once the run has ended, and before the report is printed (D-194).
    charge.removes_sockets(rt);
    say_end(rt, alloc, &mut events, &charge, &ended.1);
    ended
}

/// Takes requests on a listener by a configuration. Lines that are printed go to the output's file, where there is one,
/// and else to the writer; where the configuration says so, each write that fails is tried again.
fn serve_to<
    's,
    T: Files<File = File> + Net<Listener = TcpListener, Stream = TcpStream> + Machine,
    W: Write + Drop,
>(
    rt: &'s T,
    alloc: Global,
    config: Config,
    listener: &'s TcpListener,
    shared: &'s Charge,
    output: Option<OutputFile<'s, FilesPlace<'s, T>>>,
    writer: W,
) -> (W, Outcome)
    requires ranges { InRange config }
    requires output { is_some output ≡ writes_file config }
    ensures printed { writes_file config ≡ false → RunsTo config (W.contents writer) (W.contents result.0) result.1 }
    ensures filed { writes_file config ≡ true → FilesTo config (W.contents writer) (W.contents result.0) result.1 }
{
    let clock = SteadyClock::new(rt);
    let watch = WriteWatch::new(&shared.stop, &shared.board, &clock);
    let retries = config.output_fault == OutputFault::Retry;
    match output {
        Some(file) => {
            let file = RetryingWriter::new(rt, file, retries, &watch);
            let (_file, outcome) = serve_with(rt, alloc, config, listener, shared, file);
            (writer, outcome)
        }
        None => {
            let writer = RetryingWriter::new(rt, writer, retries, &watch);
            let (writer, outcome) = serve_with(rt, alloc, config, listener, shared, writer);
            (writer.end(), outcome)
        }
    }
}

/// The output's file, where the configuration names one and lines are printed. An error, which is said: it can't be
/// opened.
fn opened_output<'s, T: Files<File = File> + Clock, E: Write + Drop>(
    rt: &'s T,
    alloc: Global,
    config: &Config,
    mark: &'s ReopenMark,
    events: &mut EventWriter<E>,
) -> io::Result<Option<OutputFile<'s, FilesPlace<'s, T>>>>
    ensures { IfOk result (λ output. is_some output ≡ writes_file config.now) }
{
    match output_of(rt, alloc, config, mark) {
        Ok(output) => Ok(output),
        Err(error) => {
            let path = config.output.as_str();
            say_fault(rt, alloc, events, "cannot_write", path, error);
            Err(error)
        }
    }
}

/// The output's file, where the configuration names one and lines are printed. An error: it can't be opened.
fn output_of<'s, T: Files<File = File>>(
    rt: &'s T,
    alloc: Global,
    config: &Config,
    mark: &'s ReopenMark,
) -> io::Result<Option<OutputFile<'s, FilesPlace<'s, T>>>>
    ensures { IfOk result (λ output. is_some output ≡ writes_file config.now) }
{
    if !writes_file(config) {
        return Ok(None);
    }
    let mut path = String::new(alloc);
    path.push_str(config.output.as_str())?;
    let keep = u32::try_from(config.output_keep).unwrap_or(u32::MAX);
    let place = FilesPlace::new(rt, alloc, path, keep);
    let longest = config.output_max_mib.saturating_mul(MEBIBYTE);
    let file = OutputFile::new(place, longest, mark)?;
    Ok(Some(file))
}

/// Whether lines go to a file: the configuration names one, and lines are printed.
fn writes_file(config: &Config) -> bool
    ensures { result ≡ writes_file config.now }
{
    let prints = config.export.endpoint.as_str().is_empty() || config.export.lines;
    prints && !config.output.as_str().is_empty()
}
