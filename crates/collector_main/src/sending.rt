//! The run of a collector whose lines are sent to a backend.
ghost use Rattle.std.specs.Prelude.{◌≡◌, false, vec_len};
ghost use Rattle.tsc_config.specs.Values.{InRange};
ghost use Rattle.pipeline.specs.Outcome.{SinkAnswers};
ghost use Rattle.pipeline.specs.Promise.{CoreRunTellsTo};
ghost use Rattle.collector_main.specs.Serving.{SendsTo, ExportsTo, KeepsTo};

use crate::running::served_to;
use batch_post::{Posts, PrintedPosts, Retry};
use collector_board::{ExportWatch, OutputStall, StoppingSink, WatchedDestination};
use collector_commands::Outcome;
use collector_serve::{Charge, SteadyClock, drivers, request_fields, serve_on, with_export_room};
use drop_ledger::Report;
use http1::Header;
use lane_turns::Driver;
use lane_worker::ByTurns;
use otlp_encoding::Encoding;
use otlp_types::TryClone;
use pipeline::{Machine, RunContext, ServeFault};
use post_http::endpoint_of;
use post_socket::{BackendSettings, SocketBackend};
use span_sink::{Destination, LineSink, WriteSink};
use std::alloc::Global;
use std::io::{ErrorKind, Write};
use std::net::{Net, TcpListener, TcpStream};
use tsc_config::{Config, ExportEncoding, OutputFault};

/// Takes requests on a listener by a configuration, and sends the lines to a backend; it prints them too, where the
/// configuration says so.
pub fn send_with<'s, T: Net<Listener = TcpListener, Stream = TcpStream> + Machine, W: Write + Drop>(
    rt: &T,
    alloc: Global,
    config: Config,
    listener: &'s TcpListener,
    shared: &'s Charge,
    writer: W,
) -> (W, Outcome)
    requires { InRange config }
    ensures { SendsTo config (W.contents writer) (W.contents result.0) result.1 }
{
    let (loads, stop) = (&shared.loads, &shared.stop);
    let drivers = match drivers(rt, alloc, &config, listener, loads, stop, shared) {
        Ok(drivers) => drivers,
        Err(error) if error.kind() == ErrorKind::OutOfMemory => return (writer, Outcome::NoMemory),
        Err(_) => return (writer, Outcome::CannotListen),
    };
    let Ok(address) = config.export.endpoint.try_clone(alloc) else {
        return (writer, Outcome::NoMemory);
    };
    let Ok(headers) = config.export.headers.try_clone(alloc) else {
        return (writer, Outcome::NoMemory);
    };
    // No address that was read is known to come here (D-189).
    let Some(endpoint) = endpoint_of(address.as_str()) else {
        return (writer, Outcome::CannotListen);
    };
    let (host, given) = (endpoint.authority, headers.as_slice());
    let Ok(fields) = request_fields(alloc, host, Encoding::Json, given) else {
        return (writer, Outcome::NoMemory);
    };
    let Ok(of_protobuf) = request_fields(alloc, host, Encoding::Protobuf, given) else {
        return (writer, Outcome::NoMemory);
    };
    let settings = BackendSettings {
        authority: endpoint.authority,
        path: endpoint.path,
        fields: &fields,
        protobuf: if_protobuf(config.export.encoding, of_protobuf.as_slice()),
        timeout: config.export.timeout,
        close_wait: config.export.close_wait,
    };
    if config.export.lines {
        keep_on(rt, alloc, config, drivers, settings, shared, writer)
    } else {
        let outcome = export_on(rt, alloc, config, drivers, settings, shared);
        (writer, outcome)
    }
}

/// The fields of requests in protobuf, where batches are sent so.
fn if_protobuf<'t>(encoding: ExportEncoding, fields: &'t [Header<'t>]) -> Option<&'t [Header<'t>]> {
    match encoding {
        ExportEncoding::Json => None,
        ExportEncoding::Protobuf => Some(fields),
    }
}

/// Takes requests by a configuration, and sends the lines to a backend with these settings.
fn export_on<
    's,
    't,
    D: Driver + Send + Drop,
    T: Net<Listener = TcpListener, Stream = TcpStream> + Machine,
>(
    rt: &T,
    alloc: Global,
    config: Config,
    drivers: Vec<ByTurns<D>>,
    settings: BackendSettings<'t>,
    shared: &'s Charge,
) -> Outcome
    requires ranges { InRange config }
    requires drivers { vec_len drivers ≡ config.lanes }
    ensures { ExportsTo config result }
{
    let watch = ExportWatch::new(&shared.stop, &shared.board);
    let backend = SocketBackend::new(rt, alloc, settings, &watch);
    let posts = Posts::new(rt, retry_by(&config), backend);
    let watched = WatchedDestination::new(rt, posts, &shared.stall);
    let (_, answer) = serve_through(rt, alloc, config, drivers, watched, shared);
    served_to(answer)
}

/// Takes requests by a configuration, prints the lines, and sends them to a backend with these settings.
fn keep_on<
    's,
    D: Driver + Send + Drop,
    T: Net<Listener = TcpListener, Stream = TcpStream> + Machine,
    W: Write + Drop,
>(
    rt: &'s T,
    alloc: Global,
    config: Config,
    drivers: Vec<ByTurns<D>>,
    settings: BackendSettings<'s>,
    shared: &'s Charge,
    writer: W,
) -> (W, Outcome)
    requires ranges { InRange config }
    requires drivers { vec_len drivers ≡ config.lanes }
    ensures { KeepsTo config (W.contents writer) (W.contents result.0) result.1 }
{
    let watch = ExportWatch::new(&shared.stop, &shared.board);
    let backend = SocketBackend::new(rt, alloc, settings, &watch);
    let posts = Posts::new(rt, retry_by(&config), backend);
    let stops = config.output_fault == OutputFault::Stop;
    // For how long a line is under way is told of printing and sending together.
    let unread = OutputStall::new();
    let written = WriteSink::new(writer);
    let sink = StoppingSink::new(
        rt,
        written,
        &shared.stop,
        stops,
        &shared.board,
        true,
        &unread,
    );
    let both = PrintedPosts::new(LineSink::new(sink), posts);
    let watched = WatchedDestination::new(rt, both, &shared.stall);
    let (watched, answer) = serve_through(rt, alloc, config, drivers, watched, shared);
    let both = watched.end();
    let lines = both.end();
    let sink = lines.end();
    let written = sink.end();
    (written.end(), served_to(answer))
}

/// Takes requests by a configuration that says how many batches wait for a backend, and hands the lines to a destination.
fn serve_through<'s, D: Driver + Send + Drop, T: Machine, Output: Destination + Drop>(
    rt: &T,
    alloc: Global,
    config: Config,
    drivers: Vec<ByTurns<D>>,
    destination: Output,
    shared: &'s Charge,
) -> (Output, Result<Report, ServeFault>)
    requires ranges { InRange config }
    requires drivers { vec_len drivers ≡ config.lanes }
    requires up { (Output.state destination).is_down ≡ false }
    ensures sink { SinkAnswers (Output.state destination).taken (Output.state destination).failures (Output.state result.0).taken (Output.state result.0).failures result.1 }
    ensures ran { CoreRunTellsTo Output.manner config (Output.state destination).taken (Output.state destination).failures (Output.state result.0).taken (Output.state result.0).failures result.1 }
{
    let clock = SteadyClock::new(rt).recording(&shared.board);
    // The queue before the backend is the exporter's (D-206).
    let config = with_export_room(config);
    let context = RunContext {
        rt,
        alloc,
        observer: &shared.board,
        brake: shared.board.brake(),
        stop: &shared.stop,
        clock: &clock,
        answers: &shared.loads.traffic.answers,
    };
    let (destination, answer, _) = serve_on(&context, config, drivers, destination);
    (destination, answer)
}

/// For how long a batch is tried.
fn retry_by(config: &Config) -> Retry
    ensures { result ≡ record { initial = config.now.export.retry_initial; longest = config.now.export.retry_max; patience = config.now.export.retry_for } }
{
    Retry {
        initial: config.export.retry_initial,
        longest: config.export.retry_max,
        patience: config.export.retry_for,
    }
}
