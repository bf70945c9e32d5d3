//! A run: all threads are started, or none does anything; the exporter works on the caller's.
ghost use Rattle.std.specs.Prelude.{◌≡◌, ◌-◌, ◌^◌, ◌<◌, ◌≤◌, [], false, is_none, length, map, replicate, true, vec_len, IfErr, IfOk, IfSome};
ghost use Rattle.std.specs.List.{list_any};
ghost use Rattle.lane_worker.specs.Serving.{connection};
ghost use Rattle.run_weave.specs.Received.{receives_one_by_one, receives_by_turns};
ghost use Rattle.pipeline.specs.Made.{CanRun};
ghost use Rattle.pipeline.specs.Outcome.{SinkAnswers, SinkWent, TellsCounts, TellsSink, has_begun};
ghost use Rattle.pipeline.specs.Promise.{HasWorked, WorkedTells, ServersTell, RunTells, RunTellsTo, recorded_names};
ghost use Rattle.config_shards.specs.Shards.{CanBegin};
ghost use Rattle.tsc_config.specs.declared.config.Config.{Config};

use crate::exporter_job::ExporterJob;
use crate::fault::ServeFault;
use crate::gathering::{ThreadCounts, gather_lanes, gather_shards};
use crate::joining::join_all;
use crate::lanes::acceptors_of;
use crate::lent::{RunContext, ThreadContext};
use crate::machine::Machine;
use crate::making::{Made, RunRooms, make};
use drop_ledger::{Report, total};
use http_lane::{Clock as MomentClock, HasStopMark};
use job_threads::{Team, run_team};
use lane_queue::Room;
use lane_turns::Driver;
use lane_worker::{Acceptor, ByTurns, LaneServer, OneByOne, Ticks};
use otlp_types::{Text, TryClone};
use policy_tree::Policy;
use shared_budget::asked_seats_may_be_compared;
use span_exporter::{Exporter, sink_takes_lines};
use span_sink::{Destination, LineSink, Sink, takes_handed_lines};
use std::alloc::{AllocError, Global};
use std::marker::Brand;
use std::time::Clock;
use thread_watch::{Barrier, Watcher};
use trace_hash::TraceHashing;
use tsc_config::Config;

/// Runs the pipeline until every acceptor and the ticks have ended, and gives the sink back: a thread for each lane,
/// each shard and the ticker, and the exporter on this one. Where nothing was begun the servers and the ticks come back
/// as they were.
///
/// There is one server for each lane, which serves its acceptor's connections one after the other. The context's
/// observer, brake, mark and clock are lent to all lanes, the observer and the brake to the shards too. The sink has the lines of the batches that were
/// handed over; the report has the counts of all threads.
pub fn run<
    's,
    Listener: Acceptor + Send + Drop,
    TickSource: Ticks + Send + Drop,
    Output: Sink + Drop,
    Observer: Barrier + Watcher + Sync,
    Mark: HasStopMark + Sync,
    Time: MomentClock + Sync,
    Runtime: Machine,
>(
    context: &RunContext<'s, Observer, Mark, Time, Runtime>,
    config: Config,
    servers: Vec<OneByOne<Listener>>,
    ticks: TickSource,
    sink: Output,
) -> (
    Output,
    Result<Report, ServeFault>,
    Option<(Vec<OneByOne<Listener>>, TickSource)>,
)
where
    Listener::Reader: Send,
    Listener::Writer: Send,
    requires ranges { CanBegin config }
    requires servers { vec_len servers ≡ config.lanes }
    requires failures { Output.failures sink < 2 ^ 64 - 1 }
    ensures sink { SinkAnswers (Output.taken sink) (Output.failures sink) (Output.taken result.0) (Output.failures result.0) result.1 }
    ensures ran { RunTells (receives_one_by_one (λ (s : OneByOne Listener). s.acceptor) Listener.gives (λ x. connection (Listener.Reader.given x.0) (Listener.Writer.contents x.1))) TickSource.gives config servers.items ticks (Output.taken sink) (Output.failures sink) (Output.taken result.0) (Output.failures result.0) result.1 }
    ensures begun { is_none result.2 ≡ has_begun result.1 }
    ensures back { IfSome result.2 (λ back. (back.0.items ≡ servers.items) × (back.1 ≡ ticks)) }
{
    let lines = LineSink::new(sink);
    // Only tests run acceptors: the program's lanes serve by turns (D-155).
    let (lines, answer, back) = run_servers(context, config, servers, ticks, lines);
    (lines.end(), answer, back)
}

/// The same where each lane serves many connections at once, turn by turn, as its driver says. There is one driver for
/// each lane.
pub fn run_by_turns<
    's,
    Poller: Driver + Send + Drop,
    TickSource: Ticks + Send + Drop,
    Output: Sink + Drop,
    Observer: Barrier + Watcher + Sync,
    Mark: HasStopMark + Sync,
    Time: MomentClock + Sync,
    Runtime: Machine,
>(
    context: &RunContext<'s, Observer, Mark, Time, Runtime>,
    config: Config,
    drivers: Vec<ByTurns<Poller>>,
    ticks: TickSource,
    sink: Output,
) -> (
    Output,
    Result<Report, ServeFault>,
    Option<(Vec<ByTurns<Poller>>, TickSource)>,
)
    requires ranges { CanBegin config }
    requires drivers { vec_len drivers ≡ config.lanes }
    requires failures { Output.failures sink < 2 ^ 64 - 1 }
    ensures sink { SinkAnswers (Output.taken sink) (Output.failures sink) (Output.taken result.0) (Output.failures result.0) result.1 }
    ensures ran { RunTells (receives_by_turns (λ (s : ByTurns Poller). s.allowed) (λ (s : ByTurns Poller). s.driver) Poller.asks Poller.hears) TickSource.gives config drivers.items ticks (Output.taken sink) (Output.failures sink) (Output.taken result.0) (Output.failures result.0) result.1 }
    ensures begun { is_none result.2 ≡ has_begun result.1 }
    ensures back { IfSome result.2 (λ back. (back.0.items ≡ drivers.items) × (back.1 ≡ ticks)) }
{
    let lines = LineSink::new(sink);
    let (lines, answer, back) = run_servers(context, config, drivers, ticks, lines);
    (lines.end(), answer, back)
}

/// The same where batches go to any destination, which is up.
pub fn run_by_turns_to<
    's,
    Poller: Driver + Send + Drop,
    TickSource: Ticks + Send + Drop,
    Output: Destination + Drop,
    Observer: Barrier + Watcher + Sync,
    Mark: HasStopMark + Sync,
    Time: MomentClock + Sync,
    Runtime: Machine,
>(
    context: &RunContext<'s, Observer, Mark, Time, Runtime>,
    config: Config,
    drivers: Vec<ByTurns<Poller>>,
    ticks: TickSource,
    destination: Output,
) -> (
    Output,
    Result<Report, ServeFault>,
    Option<(Vec<ByTurns<Poller>>, TickSource)>,
)
    requires ranges { CanBegin config }
    requires drivers { vec_len drivers ≡ config.lanes }
    requires up { (Output.state destination).is_down ≡ false }
    ensures sink { SinkAnswers (Output.state destination).taken (Output.state destination).failures (Output.state result.0).taken (Output.state result.0).failures result.1 }
    ensures ran { RunTellsTo Output.manner (receives_by_turns (λ (s : ByTurns Poller). s.allowed) (λ (s : ByTurns Poller). s.driver) Poller.asks Poller.hears) TickSource.gives config drivers.items ticks (Output.state destination).taken (Output.state destination).failures (Output.state result.0).taken (Output.state result.0).failures result.1 }
    ensures begun { is_none result.2 ≡ has_begun result.1 }
    ensures back { IfSome result.2 (λ back. (back.0.items ≡ drivers.items) × (back.1 ≡ ticks)) }
{
    run_servers(context, config, drivers, ticks, destination)
}

/// The same, whatever serves the lanes' connections.
fn run_servers<
    's,
    Server: LaneServer + Send + Drop,
    TickSource: Ticks + Send + Drop,
    Output: Destination + Drop,
    Observer: Barrier + Watcher + Sync,
    Mark: HasStopMark + Sync,
    Time: MomentClock + Sync,
    Runtime: Machine,
>(
    context: &RunContext<'s, Observer, Mark, Time, Runtime>,
    config: Config,
    servers: Vec<Server>,
    ticks: TickSource,
    destination: Output,
) -> (
    Output,
    Result<Report, ServeFault>,
    Option<(Vec<Server>, TickSource)>,
)
    requires ranges { CanBegin config }
    requires servers { vec_len servers ≡ config.lanes }
    requires up { (Output.state destination).is_down ≡ false }
    ensures sink { SinkAnswers (Output.state destination).taken (Output.state destination).failures (Output.state result.0).taken (Output.state result.0).failures result.1 }
    ensures ran { ServersTell Server.serves TickSource.gives config servers.items ticks Output.manner (Output.state destination).taken (Output.state destination).failures (Output.state result.0).taken (Output.state result.0).failures result.1 }
    ensures begun { is_none result.2 ≡ has_begun result.1 }
    ensures back { IfSome result.2 (λ back. (back.0.items ≡ servers.items) × (back.1 ≡ ticks)) }
{
    let exporter = match exporter_of(context.alloc, &config, destination) {
        Ok(exporter) => exporter,
        Err((destination, _)) => {
            return (
                destination,
                Err(ServeFault::NoMemory),
                Some((servers, ticks)),
            );
        }
    };
    let (exporter, answer, back) = run_in::<
        Server,
        TickSource,
        Output,
        Observer,
        Mark,
        Time,
        Brand,
        Brand,
        Runtime,
    >(context, &config, servers, ticks, exporter);
    (exporter.end(), answer, back)
}

/// An exporter with nothing in it, which records policies where the configuration says so. Where memory is refused the
/// destination comes back.
fn exporter_of<Output: Destination>(
    alloc: Global,
    config: &Config,
    destination: Output,
) -> Result<Exporter<Output>, (Output, AllocError)>
    requires has_room { 0 < config.now.send_batch_size }
    requires has_shards { 0 < config.now.shards }
    ensures made { IfOk result (λ e. e ≡ record {
      batch = [];
      policies = [];
      names = recorded_names config.now;
      size = config.now.send_batch_size;
      ends = replicate config.now.shards false;
      manner = Output.manner;
      sink = Output.state destination;
    }) }
    ensures back { IfErr result (λ pair. pair.0 ≡ destination) }
{
    match recorded_names(alloc, config) {
        Ok(names) => Exporter::new(
            alloc,
            config.send_batch_size,
            config.shards,
            names,
            destination,
        ),
        Err(error) => Err((destination, error)),
    }
}

/// The names by which policies are recorded: those of the policies, in order, where the configuration says so.
fn recorded_names(alloc: Global, config: &Config) -> Result<Vec<Text>, AllocError>
    ensures { IfOk result (λ names. names.items ≡ recorded_names config.now) }
{
    if config.record_policy {
        names_of(alloc, config.policies.as_slice())
    } else {
        Ok(Vec::new(alloc))
    }
}

/// The names of policies, in order.
fn names_of(alloc: Global, policies: &[Policy]) -> Result<Vec<Text>, AllocError>
    ensures { IfOk result (λ names. names.items ≡ map (λ p. p.name) policies.now) }
{
    let mut names = Vec::new(alloc);
    for policy in policies {
        names.push(policy.name.try_clone(alloc)?)?;
    }
    Ok(names)
}

/// Runs the threads, and answers the report. The key by which trace ids are hashed is taken first: where the system has
/// no random source, nothing is run, and `NoMemory` is answered.
fn run_in<
    's,
    Server: LaneServer + Send + Drop,
    TickSource: Ticks + Send + Drop,
    Output: Destination + Drop,
    Observer: Barrier + Watcher + Sync,
    Mark: HasStopMark + Sync,
    Time: MomentClock + Sync,
    QueueRoom: Room + Send + Sync,
    ExportRoom: Room + Send + Sync,
    Runtime: Machine,
>(
    context: &RunContext<'s, Observer, Mark, Time, Runtime>,
    config: &Config,
    servers: Vec<Server>,
    ticks: TickSource,
    exporter: Exporter<Output>,
) -> (
    Exporter<Output>,
    Result<Report, ServeFault>,
    Option<(Vec<Server>, TickSource)>,
)
    requires runs { CanRun config.now QueueRoom.capacity QueueRoom.waits ExportRoom.capacity ExportRoom.waits }
    requires servers { vec_len servers ≡ config.now.lanes }
    requires new_exporter { (exporter.batch ≡ []) × (0 < exporter.size) × (list_any (λ ended. ended) exporter.ends ≡ false) × (exporter.sink.is_down ≡ false) }
    requires exporter_is { (exporter.size ≡ config.now.send_batch_size) × (length exporter.ends ≡ config.now.shards) }
    ensures sink { SinkAnswers exporter.sink.taken exporter.sink.failures result.0.sink.taken result.0.sink.failures result.1 }
    ensures ran { WorkedTells Server.serves TickSource.gives config.now servers.items ticks exporter result.0 result.1 }
    ensures begun { is_none result.2 ≡ has_begun result.1 }
    ensures back { IfSome result.2 (λ back. (back.0.items ≡ servers.items) × (back.1 ≡ ticks)) }
{
    // Before a thread is started. Without random bytes it can't begin, as without memory (D-086).
    let Ok(hashing) = TraceHashing::keyed(context.rt) else {
        return (exporter, Err(ServeFault::NoMemory), Some((servers, ticks)));
    };
    let lent = ThreadContext {
        rt: context.rt,
        alloc: context.alloc,
        hashing,
        observer: context.observer,
        brake: context.brake,
        stop: context.stop,
        clock: context.clock,
        answers: context.answers,
    };
    match run_over::<
        Server,
        TickSource,
        Output,
        Observer,
        Mark,
        Time,
        QueueRoom,
        ExportRoom,
        Runtime,
    >(&lent, config, servers, ticks, exporter)
    {
        Ok((exporter, counted)) => {
            let answer = answer_of(&counted, exporter.is_down());
            (exporter, answer, None)
        }
        Err(back) => {
            let (exporter, servers, ticks) = back;
            (exporter, Err(ServeFault::NoMemory), Some((servers, ticks)))
        }
    }
}

/// What a run answers whose threads have ended.
fn answer_of(counted: &ThreadCounts, is_down: bool) -> Result<Report, ServeFault>
    ensures sink { TellsSink is_down result }
    ensures counts { TellsCounts counted.now.is_full counted.now.counts.items result }
    ensures begun { has_begun result ≡ true }
{
    // What was counted no longer adds up, so this goes before a write that failed.
    if counted.is_full {
        return Err(ServeFault::CounterOverflow);
    }
    match total(&counted.counts) {
        Ok(report) if is_down => Err(ServeFault::SinkDown(report)),
        Ok(report) => Ok(report),
        Err(_) => Err(ServeFault::CounterOverflow),
    }
}

/// Makes what the threads are given, runs them, and gathers what they counted. It gives all back where there was no
/// memory, or a thread couldn't be started: then none has done anything.
fn run_over<
    's,
    Server: LaneServer + Send + Drop,
    TickSource: Ticks + Send + Drop,
    Output: Destination + Drop,
    Observer: Barrier + Watcher + Sync,
    Mark: HasStopMark + Sync,
    Time: MomentClock + Sync,
    QueueRoom: Room + Send + Sync,
    ExportRoom: Room + Send + Sync,
    Runtime: Machine,
>(
    lent: &ThreadContext<'s, Observer, Mark, Time, Runtime>,
    config: &Config,
    servers: Vec<Server>,
    ticks: TickSource,
    exporter: Exporter<Output>,
) -> Result<(Exporter<Output>, ThreadCounts), (Exporter<Output>, Vec<Server>, TickSource)>
    requires runs { CanRun config.now QueueRoom.capacity QueueRoom.waits ExportRoom.capacity ExportRoom.waits }
    requires servers { vec_len servers ≡ config.now.lanes }
    requires new_exporter { (exporter.batch ≡ []) × (0 < exporter.size) × (list_any (λ ended. ended) exporter.ends ≡ false) × (exporter.sink.is_down ≡ false) }
    requires exporter_ends { length exporter.ends ≡ config.now.shards }
    ensures worked { IfOk result (λ ran. HasWorked Server.serves TickSource.gives config.now servers.items ticks exporter ran.0 ran.1.counts.items ran.1.is_full) }
    ensures sink { IfOk result (λ ran. SinkWent exporter.sink ran.0.sink) }
    ensures back { IfErr result (λ back. (back.0 ≡ exporter) × (back.1.items ≡ servers.items) × (back.2 ≡ ticks)) }
{
    let made = match make::<
        Server,
        TickSource,
        QueueRoom,
        ExportRoom,
        Observer,
        Mark,
        Time,
        Runtime,
    >(lent, config, servers, ticks)
    {
        Ok(made) => made,
        Err(back) => {
            let (servers, ticks) = back;
            return Err((exporter, servers, ticks));
        }
    };
    let Made {
        team,
        shipments,
        rooms,
        acceptors,
    } = made;
    let job = ExporterJob {
        rt: lent.rt,
        exporter,
        receiver: shipments,
        observer: lent.observer,
    };
    match run_team(lent.rt, lent.alloc, team, job) {
        Ok((left, last)) => {
            // Laws, called for their clauses: the run's own promise is made of them.
            sink_takes_lines();
            takes_handed_lines();
            asked_seats_may_be_compared();
            let RunRooms {
                mut columns,
                mut ends,
                counts,
                rows,
            } = rooms;
            let mut counted = ThreadCounts {
                counts,
                is_full: false,
            };
            gather_lanes(left.first, &mut columns, &mut counted);
            // The ticker's ends stand behind the lanes', as they were made.
            columns.push_reserved(left.second);
            gather_shards(left.third, &mut ends, &mut counted);
            counted.add(last.counts, last.is_full);
            // What went through a queue is known once both of its ends are here again (D-144).
            join_all(columns, ends, last.receiver, rows);
            Ok((last.exporter, counted))
        }
        Err(back) => {
            let (team, job) = back;
            let Team { first, second, .. } = team;
            Err((job.exporter, acceptors_of(first, acceptors), second.ticks))
        }
    }
}
