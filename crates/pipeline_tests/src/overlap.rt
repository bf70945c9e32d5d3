//! Two lanes over readers in memory: the threads overlap, and nothing is lost.
ghost use Rattle.std.specs.Prelude.{◌<◌, IfOk};
ghost use Rattle.tsc_config.specs.Values.{InRange};

use crate::barriers::{LanesMeet, Places, ShardsBeginEarly, ShardsMeet};
use crate::memory::{Held, Mark, MemoryAcceptor, MemorySink, NoTicks, Standing};
use config_faults::ConfigFault;
use drop_ledger::Report;
use http_lane::Answers;
use lane_queue::Brake;
use lane_worker::OneByOne;
use pipeline::{Machine, RunContext, ServeFault, run};
use std::alloc::{AllocError, Global};
use std::sync::atomic::AtomicBool;
use std::test::Fail;
use thread_watch::{Barrier, Unwatched, Watcher};
use tsc_config::{Config, read};

/// A trace of shard 0 of two, and one of shard 1.
pub const A: &str = "5b8efff798038103d269b633813fc60c";

const B: &str = "5b8efff798038103d269b633813fc60d";

/// Two lanes that keep everything, and one shard.
const ONE_SHARD: &str = "lanes = 2\npolicies = [{ name = \"all\", type = \"always_sample\" }]\n";

/// Two lanes that keep everything, and two shards.
const TWO_SHARDS: &str =
    "lanes = 2\nshards = 2\npolicies = [{ name = \"all\", type = \"always_sample\" }]\n";

/// A request with so many spans of a trace.
pub fn request(alloc: Global, trace: &str, spans: u32) -> Result<Vec<u8>, Fail>
    requires { spans < 1000 }
{
    let mut body = String::from_str(alloc, "{\"resourceSpans\":[{\"scopeSpans\":[{\"spans\":[")?;
    for span in 1..spans + 1 {
        if span > 1 {
            body.push(',')?;
        }
        let text = format!(in alloc; "{{\"traceId\":\"{trace}\",\"spanId\":\"{span:016x}\"}}")?;
        body.push_str(&text)?;
    }
    body.push_str("]}]}]}")?;
    let len = body.len();
    let head = format!(in alloc;
        "POST /v1/traces HTTP/1.1\r\nHost: x\r\nContent-Type: application/json\r\nContent-Length: {len}\r\n\r\n{body}"
    )?;
    Ok(head.into_bytes())
}

/// An acceptor of one connection with this request, and of a second one of no bytes if that is asked for.
fn acceptor(alloc: Global, bytes: Vec<u8>, second: bool) -> Result<MemoryAcceptor, AllocError> {
    let mut connections = Vec::new(alloc);
    if second {
        connections.push(Held::whole(Vec::new(alloc)))?;
    }
    connections.push(Held::whole(bytes))?;
    Ok(MemoryAcceptor { alloc, connections })
}

/// The configuration in a text.
pub fn configured(alloc: Global, text: &str) -> Result<Config, Fail>
    ensures { IfOk result InRange }
{
    match read(alloc, text) {
        Ok(config) => Ok(config),
        Err(ConfigFault::NoMemory) => Err(Fail::from(AllocError)),
        Err(_) => Err(Fail::from("configuration")),
    }
}

/// What a run is like: whether its stop mark is set before it begins, and whether each write to its sink fails.
#[derive(Clone, Copy, Drop)]
pub struct Course {
    pub is_stopped: bool,
    pub is_broken: bool,
}

/// What a run came to: its sink, its answer, and the acceptors and ticks that came back.
pub type Came = (
    MemorySink,
    Result<Report, ServeFault>,
    Option<(Vec<OneByOne<MemoryAcceptor>>, NoTicks)>,
);

/// What a run comes to over acceptors, one for each lane of the configuration.
pub fn run_acceptors<O: Barrier + Watcher + Sync, R: Machine>(
    rt: &R,
    alloc: Global,
    config: &str,
    acceptors: Vec<MemoryAcceptor>,
    observer: &O,
    course: Course,
) -> Result<Came, Fail> {
    let config = configured(alloc, config)?;
    let mut servers = Vec::new(alloc);
    for acceptor in acceptors {
        servers.push(OneByOne { acceptor })?;
    }
    if servers.len() != config.lanes as usize || config.shards > 64 {
        return Err(Fail::from("lanes"));
    }
    let stop = Mark {
        is_set: AtomicBool::new(course.is_stopped),
    };
    let sink = MemorySink::new(alloc, course.is_broken)?;
    let (answers, brake) = (Answers::new(), Brake::new());
    let context = RunContext {
        rt,
        alloc,
        observer,
        brake: &brake,
        stop: &stop,
        clock: &Standing,
        answers: &answers,
    };
    Ok(run(&context, config, servers, NoTicks, sink))
}

/// The same of two lanes with one request each.
fn run_two<O: Barrier + Watcher + Sync, R: Machine>(
    rt: &R,
    alloc: Global,
    config: &str,
    acceptors: [MemoryAcceptor; 2],
    observer: &O,
) -> Result<Came, Fail> {
    let course = Course {
        is_stopped: false,
        is_broken: false,
    };
    run_acceptors(
        rt,
        alloc,
        config,
        Vec::from_array(alloc, acceptors)?,
        observer,
        course,
    )
}

#[test]
fn hundred_spans_a_lane(rt: HostRuntime) -> Result<(), Fail> {
    let alloc = rt.alloc();
    let first = acceptor(alloc, request(alloc, A, 100)?, false)?;
    let second = acceptor(alloc, request(alloc, A, 100)?, false)?;
    let (sink, answer, _) = run_two(&rt, alloc, ONE_SHARD, [first, second], &Unwatched)?;
    let Ok(report) = answer else {
        return Err(Fail::from("a fault"));
    };
    assert_eq!(rt; report.numbers(), [200, 200, 0, 0, 0, 0, 0, 0, 0]);
    assert!(rt; !sink.taken.is_empty());
    Ok(())
}

/// Runs two lanes with one span each, behind a barrier.
fn two_spans<O: Barrier + Watcher + Sync, R: Machine>(
    rt: &R,
    alloc: Global,
    config: &str,
    traces: [&str; 2],
    second: bool,
    observer: &O,
) -> Result<[u64; 9], Fail> {
    let [one, other] = traces;
    let first = acceptor(alloc, request(alloc, one, 1)?, second)?;
    let last = acceptor(alloc, request(alloc, other, 1)?, second)?;
    let (_, answer, _) = run_two(rt, alloc, config, [first, last], observer)?;
    let Ok(report) = answer else {
        return Err(Fail::from("a fault"));
    };
    Ok(report.numbers())
}

#[test]
fn threads_overlap(rt: HostRuntime) -> Result<(), Fail> {
    let alloc = rt.alloc();
    let places = Places::new();
    let met = two_spans(&rt, alloc, ONE_SHARD, [A, A], true, &LanesMeet(&places))?;
    assert_eq!(rt; met, [2, 2, 0, 0, 0, 0, 0, 0, 0]);
    let early = two_spans(
        &rt,
        alloc,
        ONE_SHARD,
        [A, A],
        false,
        &ShardsBeginEarly(&places),
    )?;
    assert_eq!(rt; early, [2, 2, 0, 0, 0, 0, 0, 0, 0]);
    let places_of_shards = Places::new();
    let shards = two_spans(
        &rt,
        alloc,
        TWO_SHARDS,
        [A, B],
        false,
        &ShardsMeet(&places_of_shards),
    )?;
    assert_eq!(rt; shards, [2, 2, 0, 0, 0, 0, 0, 0, 0]);
    assert!(rt; !places.gave_up() && !places_of_shards.gave_up());
    Ok(())
}
