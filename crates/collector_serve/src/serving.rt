//! The collector on a listener.
ghost use Rattle.std.specs.Prelude.{◌≡◌, ◌<◌, false, All, IfOk, IfSome, is_none, vec_len};
ghost use Rattle.pipeline.specs.Outcome.{SinkAnswers, has_begun};
ghost use Rattle.pipeline.specs.Promise.{CoreRunTellsTo};
ghost use Rattle.run_weave.specs.Received.{receives_by_turns};
ghost use Rattle.tsc_config.specs.Values.{InRange};
ghost use Rattle.collector_serve.specs.Sharing.{share_of, allowed_by};
ghost use Rattle.collector_serve.specs.Driven.{ServedRunTells};

use crate::ticker::Ticker;
use collector_board::Board;
use drop_ledger::Report;
use http_lane::{Clock as Moments, HasStopMark};
use http_text::Allowed;
use lane_driver::{ConnectionShare, Loads, RoundKeeper, TurnDriver};
use lane_turns::Driver;
use lane_worker::ByTurns;
use pipeline::{Machine, RunContext, ServeFault, run_by_turns_to};
use span_sink::Destination;
use std::alloc::Global;
use std::io;
use std::io::ErrorKind;
use std::net::{Net, TcpListener, TcpStream, ToSocketAddrs};
use std::sync::{Arc, Wait};
use std::time::Clock;
use tsc_config::Config;

/// A mebibyte.
const MEBIBYTE: u64 = 1_048_576;

/// A listener at this address (`address:port`, or `:port` for every address of the machine) that doesn't block, with the
/// longest backlog that the system allows.
pub fn listen<R: Net<Listener = TcpListener, Stream = TcpStream>>(
    rt: &R,
    alloc: Global,
    address: &str,
) -> io::Result<TcpListener> {
    let Some(port) = port_alone(address) else {
        return listen_at(rt, address);
    };
    // At those of IPv6 those of IPv4 are taken too, where the system has both.
    let every = format!(in alloc; "[::]:{port}")?;
    match listen_at(rt, every.as_str()) {
        Ok(listener) => Ok(listener),
        Err(_) => {
            let every = format!(in alloc; "0.0.0.0:{port}")?;
            listen_at(rt, every.as_str())
        }
    }
}

/// The port of an address that has nothing else, as the Collector writes every address of the machine.
pub fn port_alone(address: &str) -> Option<&str> {
    address.strip_prefix(':')
}

/// A listener at this address.
fn listen_at<R: Net<Listener = TcpListener, Stream = TcpStream>>(
    rt: &R,
    address: &str,
) -> io::Result<TcpListener> {
    let mut last = io::Error::from(ErrorKind::AddrNotAvailable);
    for at in address.to_socket_addrs(rt)? {
        match mio::net::TcpListener::bind(rt, at) {
            Ok(listener) => return Ok(TcpListener::from(listener)),
            Err(error) => last = error,
        }
    }
    Err(last)
}

/// Runs the collector on what drives its lanes, until a request says `POST /close`, which sets the mark, or it is set
/// otherwise. It may be set already: then what is asked on a connection that waits is refused. It gives the
/// destination back, and the report of all spans: what the threads did is a run of the core, and each lane did what its
/// driver said, round by round. The context's board shows the counts meanwhile. `NoMemory`: there was none at the start,
/// or the system has no random source for the key by which trace
/// ids are hashed. Then no connection was taken, and the drivers come back as they were.
pub fn serve_on<
    's,
    Poller: Driver + Send + Drop,
    Output: Destination + Drop,
    Mark: HasStopMark + Sync,
    Time: Moments + Sync,
    Runtime: Machine,
>(
    context: &RunContext<'s, Board, Mark, Time, Runtime>,
    config: Config,
    drivers: Vec<ByTurns<Poller>>,
    destination: Output,
) -> (
    Output,
    Result<Report, ServeFault>,
    Option<Vec<ByTurns<Poller>>>,
)
    requires ranges { InRange config }
    requires drivers { vec_len drivers ≡ config.lanes }
    requires up { (Output.state destination).is_down ≡ false }
    ensures sink { SinkAnswers (Output.state destination).taken (Output.state destination).failures (Output.state result.0).taken (Output.state result.0).failures result.1 }
    ensures ran { CoreRunTellsTo Output.manner config (Output.state destination).taken (Output.state destination).failures (Output.state result.0).taken (Output.state result.0).failures result.1 }
    ensures driven { ServedRunTells Output.manner (receives_by_turns (λ (s : ByTurns Poller). s.allowed) (λ (s : ByTurns Poller). s.driver) Poller.asks Poller.hears) config drivers.items (Output.state destination).taken (Output.state destination).failures (Output.state result.0).taken (Output.state result.0).failures result.1 }
    ensures begun { is_none result.2 ≡ has_begun result.1 }
    ensures back { IfSome result.2 (λ back. back.items ≡ drivers.items) }
{
    let ticks = Ticker::new(config.tick, context.clock, context.stop).recording(context.observer);
    let (destination, answer, back) = run_by_turns_to(context, config, drivers, ticks, destination);
    let back = match back {
        Some((drivers, _)) => Some(drivers),
        None => None,
    };
    (destination, answer, back)
}

/// How many connections a lane may have.
fn share(connections: usize, lanes: usize) -> usize
    requires { 0 < lanes }
    ensures { result ≡ share_of connections lanes }
{
    // Rounded down, and at least one each, so that no lane asks another (D-178).
    if lanes <= connections {
        connections / lanes
    } else {
        1
    }
}

/// What is allowed to clients.
fn allowed_by(config: &Config) -> Allowed
    ensures { result ≡ allowed_by config.now }
{
    // One limit for what comes and for what it unpacks to (D-186).
    let bytes = config.max_request_mib.saturating_mul(MEBIBYTE);
    Allowed {
        gzip: config.accept_gzip,
        protobuf: config.accept_protobuf,
        // With an `admin` address `/close` is a path like any other here (D-190).
        close: config.admin.as_str().is_empty(),
        body_limit: u32::try_from(bytes).unwrap_or(u32::MAX),
    }
}

/// What drives each lane, and what is allowed to its clients. Each has its share of the connections that may be open at
/// once, and a keeper that is told of its rounds. `Err`: there is no memory, or too many files are
/// open for a lane to watch its connections.
pub fn drivers<'l, P: HasStopMark, K: RoundKeeper, R: Net + Clock>(
    rt: &R,
    alloc: Global,
    config: &Config,
    listener: &'l TcpListener,
    loads: &Arc<Loads, Global>,
    stop: &'l P,
    keeper: &'l K,
) -> io::Result<Vec<ByTurns<TurnDriver<'l, P, K>>>>
    requires { 0 < config.now.lanes }
    ensures lanes { IfOk result (λ drivers. vec_len drivers ≡ config.now.lanes) }
    ensures shares { IfOk result (λ drivers. All (λ it. it.driver.links.limit ≡ share_of config.now.max_connections config.now.lanes) drivers.items) }
    ensures allowed { IfOk result (λ drivers. All (λ it. it.allowed ≡ allowed_by config.now) drivers.items) }
{
    let lanes = config.lanes as usize;
    let limit = share(config.max_connections, lanes);
    let allowed = allowed_by(config);
    let mut drivers = Vec::with_capacity(alloc, lanes)?;
    for lane in 0..lanes {
        let loads = Arc::try_clone(loads)?;
        let share = ConnectionShare { limit, loads, lane };
        // Made before the lanes run, so that no run ends for want of files at its start (D-175).
        let driver = TurnDriver::new(rt, alloc, listener, stop, keeper, share)?;
        drivers.push(ByTurns { driver, allowed })?;
    }
    Ok(drivers)
}
