//! The run of a collector on its listener.
ghost use Rattle.std.specs.Prelude.{◌≡◌};
ghost use Rattle.tsc_config.specs.Values.{InRange};
ghost use Rattle.collector_main.specs.Serving.{RunsTo, PrintsTo};
ghost use Rattle.collector_main.specs.Serving.{served_to};
ghost use Rattle.collector_main.specs.Waiting.{waits};

use crate::sending::send_with;
use collector_board::StoppingSink;
use collector_commands::Outcome;
use collector_serve::{Charge, SteadyClock, drivers, serve_on};
use drop_ledger::Report;
use pipeline::{Machine, RunContext, ServeFault};
use span_sink::{LineSink, WriteSink};
use std::alloc::Global;
use std::io::{ErrorKind, Write};
use std::net::{Net, TcpListener, TcpStream};
use tsc_config::{Config, OutputFault};

/// Takes requests on a listener by a configuration, and prints the lines, or sends them to a backend, or both.
pub fn serve_with<
    's,
    T: Net<Listener = TcpListener, Stream = TcpStream> + Machine,
    W: Write + Drop,
>(
    rt: &T,
    alloc: Global,
    config: Config,
    listener: &'s TcpListener,
    shared: &'s Charge,
    writer: W,
) -> (W, Outcome)
    requires { InRange config }
    ensures { RunsTo config (W.contents writer) (W.contents result.0) result.1 }
{
    let config = waiting_where_kept(config);
    serve_as(rt, alloc, config, listener, shared, writer)
}

/// The configuration of a run whose lanes wait for room where requests are kept: what is pending at the start is more than a
/// queue may hold, and no span of it is to be counted under a full one.
fn waiting_where_kept(config: Config) -> Config
    requires { InRange config }
    ensures waits { result ≡ record config { waits_for_room = waits config } }
    ensures ranges { InRange result }
{
    let mut config = config;
    config.waits_for_room = config.waits_for_room || !config.ledger.path.as_str().is_empty();
    config
}

/// Takes requests on a listener by a configuration, and prints the lines, or sends them to a backend, or both.
fn serve_as<'s, T: Net<Listener = TcpListener, Stream = TcpStream> + Machine, W: Write + Drop>(
    rt: &T,
    alloc: Global,
    config: Config,
    listener: &'s TcpListener,
    shared: &'s Charge,
    writer: W,
) -> (W, Outcome)
    requires { InRange config }
    ensures { RunsTo config (W.contents writer) (W.contents result.0) result.1 }
{
    if config.export.endpoint.as_str().is_empty() {
        print_with(rt, alloc, config, listener, shared, writer)
    } else {
        send_with(rt, alloc, config, listener, shared, writer)
    }
}

/// Takes requests on a listener by a configuration, and prints the lines. What is shared with those in charge has the
/// mark to stop and the counts.
fn print_with<'s, T: Net + Machine, W: Write + Drop>(
    rt: &T,
    alloc: Global,
    config: Config,
    listener: &'s TcpListener,
    shared: &'s Charge,
    writer: W,
) -> (W, Outcome)
    requires { InRange config }
    ensures { PrintsTo config (W.contents writer) (W.contents result.0) result.1 }
{
    // Made before the run: a lane that can't watch its connections is an address that can't be listened at (D-175).
    let (loads, stop) = (&shared.loads, &shared.stop);
    let drivers = match drivers(rt, alloc, &config, listener, loads, stop, shared) {
        Ok(drivers) => drivers,
        Err(error) if error.kind() == ErrorKind::OutOfMemory => return (writer, Outcome::NoMemory),
        Err(_) => return (writer, Outcome::CannotListen),
    };
    let clock = SteadyClock::new(rt).recording(&shared.board);
    let stops = config.output_fault == OutputFault::Stop;
    let written = WriteSink::new(writer);
    let sink = StoppingSink::new(
        rt,
        written,
        &shared.stop,
        stops,
        &shared.board,
        false,
        &shared.stall,
    );
    let lines = LineSink::new(sink);
    let context = RunContext {
        rt,
        alloc,
        observer: &shared.board,
        brake: shared.board.brake(),
        stop: &shared.stop,
        clock: &clock,
        answers: &shared.loads.traffic.answers,
    };
    let (lines, answer, _) = serve_on(&context, config, drivers, lines);
    let sink = lines.end();
    let written = sink.end();
    (written.end(), served_to(answer))
}

/// How the program ends after a run.
pub fn served_to(answer: Result<Report, ServeFault>) -> Outcome
    ensures { result ≡ served_to answer }
{
    match answer {
        Ok(report) => Outcome::Done(report),
        Err(ServeFault::NoMemory) => Outcome::NoMemory,
        Err(ServeFault::CounterOverflow) => Outcome::CounterOverflow,
        Err(ServeFault::SinkDown(_)) => Outcome::SinkDown,
    }
}
