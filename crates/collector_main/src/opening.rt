//! What a collector opens before it runs: its addresses, and what is shared with those in charge.
ghost use Rattle.std.specs.Prelude.{◌≡◌, ℕ, List, Ok, IsUtf8, IfOk, string_bytes};
ghost use Rattle.std.specs.Arc.{arc_value};
ghost use Rattle.tsc_config.specs.Reading.{reading};
ghost use Rattle.collector_commands.specs.Configuration.{file_of};

use crate::logging::{say_fault, say_listening, say_settings};
use admin_http::Access;
use collector_board::{Board, OutputStall, StopMark};
use collector_commands::FileFault;
use collector_serve::{
    Charge, ClosingDoor, EventWriter, History, MEMORY_ACCOUNT, close_at_end, end_admin, listen,
    start_admin, start_log_watch, start_memory_watch,
};
use config_text::settings_in_force;
use lane_driver::Loads;
use otlp_types::{Text, TryClone};
use output_file::ReopenMark;
use pipeline::Machine;
use request_keeping::RequestLedger;
use status_page::status_page;
use std::alloc::{AllocError, Global};
use std::fs::File;
use std::io::{Read, Write};
use std::net::{Net, TcpListener, TcpStream};
use std::rt::Files;
use std::sync::{Arc, Wait};
use std::{fs, io};
use tsc_config::{Config, LedgerSync, LogForm};

/// A copy of what was read from the configuration's file, for those in charge, and nothing where it wasn't read.
pub fn copy_of(alloc: Global, file: &Result<Vec<u8>, FileFault>) -> Result<String, AllocError>
    ensures { IfOk result (λ copy. (bytes : List ℕ) → file_of (λ v. v.items) file.now ≡ Ok bytes → IsUtf8 bytes → string_bytes copy ≡ bytes) }
{
    let mut copy = Vec::new(alloc);
    if let Ok(bytes) = file {
        copy.extend_from_slice(bytes)?;
    }
    match String::from_utf8(copy) {
        Ok(text) => Ok(text),
        Err(_) => Ok(String::new(alloc)),
    }
}

/// What is shared with those in charge of a collector, whose configuration's file has this text. They are told the
/// settings that are in force by it, as a text that is read as the same configuration.
pub fn charge_of(
    alloc: Global,
    text: Result<String, AllocError>,
    config: &Config,
) -> Result<Arc<Charge, Global>, AllocError>
    ensures { IfOk result (λ charge. IfOk text (λ read. reading (string_bytes (arc_value charge).configuration) ≡ reading (string_bytes read))) }
{
    let page = status_page();
    let mut board = Board::new(alloc, config.shards, &config.policies)?;
    if !config.decisions.as_str().is_empty() {
        board.keep_decisions(alloc)?;
    }
    if !config.request_record.as_str().is_empty() {
        board.keep_record(alloc, u64::from(config.lanes))?;
    }
    if !config.ledger.path.as_str().is_empty() {
        let syncs = config.ledger.sync == LedgerSync::Request;
        let lanes = config.lanes as usize;
        board.keep_ledger(RequestLedger::new(alloc, lanes, config.shards, syncs)?);
    }
    let charge = Charge {
        configuration: settings_in_force(alloc, text?.as_str())?,
        stop: StopMark::new(),
        over: StopMark::new(),
        board,
        loads: Arc::new(alloc, Loads::new(alloc, config.lanes as usize)?)?,
        admin: config.admin.try_clone(alloc)?,
        reopen: ReopenMark::new(),
        reopen_decisions: ReopenMark::new(),
        reopen_record: ReopenMark::new(),
        output: config.output.try_clone(alloc)?,
        metrics_address: config.metrics.try_clone(alloc)?,
        stall: OutputStall::new(),
        page: Text::from_str(alloc, page.text)?,
        page_fields: Text::from_str(alloc, page.fields)?,
        history: History::new(alloc)?,
    };
    Ok(Arc::new(alloc, charge)?)
}

/// Says which settings aren't default, and looks at a run: at what memory the process takes, where the configuration
/// limits that or somebody is told, and at what is to be said of the run, where something is.
pub fn watches<
    T: Files<File = File>
        + Net<Listener = TcpListener, Stream = TcpStream>
        + Machine
        + Copy
        + Send
        + 'static,
    E: Write + Send + Drop + 'static,
>(
    rt: &T,
    alloc: Global,
    config: &Config,
    charge: &Arc<Charge, Global>,
    errors: E,
    events: &mut EventWriter<E>,
) -> io::Result<()> {
    say_settings(rt, alloc, events, charge);
    if let Err(error) = watches_memory(rt, config, charge) {
        say_fault(
            rt,
            alloc,
            events,
            "cannot_watch_memory",
            MEMORY_ACCOUNT,
            error,
        );
        return Err(error);
    }
    // Without a log, too, where numbers are told: it counts the jumps of the clock.
    if config.log != LogForm::Off || is_told(config) {
        let watched = EventWriter::new(errors, config.log);
        start_log_watch(rt, alloc, watched, Arc::try_clone(charge)?)?;
    }
    Ok(())
}

/// Whether somebody may be told numbers.
fn is_told(config: &Config) -> bool {
    !config.admin.as_str().is_empty() || !config.metrics.as_str().is_empty()
}

/// Looks at what memory the process takes, for those who are told, and refuses requests while it is more than the
/// configuration says.
fn watches_memory<
    T: Files<File = File>
        + Net<Listener = TcpListener, Stream = TcpStream>
        + Machine
        + Copy
        + Send
        + 'static,
>(rt: &T, config: &Config, charge: &Arc<Charge, Global>) -> io::Result<()> {
    if config.memory_limit_mib == 0 && !is_told(config) {
        return Ok(());
    }
    let account = fs::open(rt, MEMORY_ACCOUNT)?;
    start_memory_watch(
        rt,
        config.memory_limit_mib,
        account,
        Arc::try_clone(charge)?,
    )
}

/// Answers at an address by what may be asked for there; nothing at none.
fn answers_at<
    T: Files + Net<Listener = TcpListener, Stream = TcpStream> + Machine + Copy + Send + 'static,
    E: Write + Drop,
>(
    rt: &T,
    alloc: Global,
    address: &str,
    access: Access,
    charge: &Arc<Charge, Global>,
    events: &mut EventWriter<E>,
) -> io::Result<()> {
    if address.is_empty() {
        return Ok(());
    }
    if let Err(error) = start_admin(rt, alloc, address, access, Arc::try_clone(charge)?) {
        say_fault(rt, alloc, events, "cannot_listen", address, error);
        return Err(error);
    }
    Ok(())
}

/// Listens at the address of requests, and, as the configuration says, at that for those in charge, at that of numbers
/// alone, and to the end of the input. Beside the listener it gives what answers clients who connect to it as the
/// collector closes.
pub fn opened<
    T: Files<File = File>
        + Net<Listener = TcpListener, Stream = TcpStream>
        + Machine
        + Copy
        + Send
        + 'static,
    I: Read + Send + Drop + 'static,
    E: Write + Drop,
>(
    rt: &T,
    alloc: Global,
    config: &Config,
    charge: &Arc<Charge, Global>,
    input: I,
    events: &mut EventWriter<E>,
) -> io::Result<(TcpListener, ClosingDoor)> {
    let address = config.listen.as_str();
    let listener = match listen(rt, alloc, address) {
        Ok(listener) => listener,
        Err(error) => {
            say_fault(rt, alloc, events, "cannot_listen", address, error);
            return Err(error);
        }
    };
    let admin = config.admin.as_str();
    answers_at(rt, alloc, admin, Access::Full, charge, events)?;
    let metrics = config.metrics.as_str();
    if let Err(error) = answers_at(rt, alloc, metrics, Access::Numbers, charge, events) {
        // The other address may have made its socket's file already.
        end_admin(rt, admin);
        return Err(error);
    }
    if config.close_at_end_of_input {
        close_at_end(rt, input, Arc::try_clone(charge)?)?;
    }
    let door = ClosingDoor::start(rt, alloc, &listener, Arc::try_clone(charge)?)?;
    say_listening(rt, alloc, events, address);
    Ok((listener, door))
}
