//! The first example over sinks that take a byte a write, and that fail behind each byte of its output.
ghost use Rattle.std.specs.Prelude.{◌≡◌, IfOk, Some};
ghost use Rattle.tsc_config.specs.Values.{InRange};

use config_faults::ConfigFault;
use drop_ledger::Report;
use script_session::{ReplayFault, replay_run};
use span_sink::{Sink, SinkFault};
use std::alloc::{AllocError, Global};
use std::test::Fail;
use tsc_config::{Config, read};
use tsc_script::ScriptReads;

/// Traces with an error are kept, ten seconds after their first span.
const ERRORS: &str =
    "decision_wait_ms = 10000\n[[policies]]\nname = \"errors\"\ntype = \"status_code\"\nstatus_code = { status_codes = [\"ERROR\"] }\n";

/// One span with an error, and the moment at which its trace is due.
const SCRIPT: &str =
    "recv 1 1000 {\"resourceSpans\":[{\"scopeSpans\":[{\"spans\":[{\"traceId\":\"5b8efff798038103d269b633813fc60c\",\"spanId\":\"eee19b7ec3c1b174\",\"status\":{\"code\":2}}]}]}]}\ntick 11000\n";

/// The reply and the line of the span, as the README shows them.
const LINES: &str =
    "reply 200 {}\n{\"resourceSpans\":[{\"scopeSpans\":[{\"spans\":[{\"spanId\":\"eee19b7ec3c1b174\",\"status\":{\"code\":2},\"traceId\":\"5b8efff798038103d269b633813fc60c\"}]}]}]}\n";

/// How many bytes both lines have.
const WHOLE: usize = 157;

/// Takes so many bytes a write at most, until it has no room; each write then fails.
#[derive(Drop)]
struct SmallSink {
    taken: Vec<u8>,
    piece: usize,
    room: usize,
    failures: u64,
}

impl SmallSink {
    /// A sink that has taken nothing.
    fn new(alloc: Global, piece: usize, room: usize) -> Result<Self, AllocError>
        ensures { IfOk result (λ sink. sink.failures ≡ 0) }
    {
        Ok(SmallSink {
            taken: Vec::with_capacity(alloc, WHOLE)?,
            piece,
            room,
            failures: 0,
        })
    }
}

impl Sink for SmallSink {
    ghost taken = { λ s. Some s.taken.items };

    ghost failures = { λ s. s.failures };

    fn write(&mut self, bytes: &[u8]) -> Result<usize, SinkFault> {
        let count = bytes.len().min(self.piece).min(self.room);
        if count == 0 || self.taken.extend_from_slice(&bytes[..count]).is_err() {
            self.failures += 1;
            return Err(SinkFault::Failed);
        }
        self.room -= count;
        Ok(count)
    }

    fn failures(&self) -> u64 {
        self.failures
    }
}

/// What a replay left: whether its sink took a first part of both lines, how many bytes it took, how many writes
/// failed, whether the run told of that, and the nine numbers of its report, none of them where it told of anything
/// else.
#[derive(Clone, Copy, PartialEq, Eq)]
struct ReplayEnd {
    is_first_part: bool,
    taken: usize,
    failures: u64,
    is_down: bool,
    numbers: Option<[u64; 9]>,
}

/// The configuration of the first example.
fn configured(alloc: Global) -> Result<Config, Fail>
    ensures { IfOk result InRange }
{
    match read(alloc, ERRORS) {
        Ok(config) => Ok(config),
        Err(ConfigFault::NoMemory) => Err(Fail::from(AllocError)),
        Err(_) => Err(Fail::from("configuration")),
    }
}

/// Whether a run told that a write failed, and the numbers of its report.
fn told(answer: &Result<Report, ReplayFault>) -> (bool, Option<[u64; 9]>) {
    match answer {
        Ok(report) => (false, Some(report.numbers())),
        Err(ReplayFault::SinkDown(report)) => (true, Some(report.numbers())),
        Err(_) => (false, None),
    }
}

/// Replays the first example over a sink that takes `piece` bytes a write and `room` in all.
fn replayed(alloc: Global, piece: usize, room: usize) -> Result<ReplayEnd, Fail> {
    let sink = SmallSink::new(alloc, piece, room)?;
    let config = configured(alloc)?;
    let mut reader = ScriptReads {
        reader: SCRIPT.as_bytes(),
    };
    let (sink, answer) = replay_run(alloc, config, &mut reader, sink);
    let (is_down, numbers) = told(&answer);
    Ok(ReplayEnd {
        is_first_part: LINES.as_bytes().starts_with(&sink.taken),
        taken: sink.taken.len(),
        failures: sink.failures,
        is_down,
        numbers,
    })
}

/// What a replay over a sink with so much room must leave: behind a failed write the span is counted under 7, also
/// where it was the reply that failed, since the span was received.
fn wanted(room: usize) -> ReplayEnd {
    let is_down = room < WHOLE;
    let numbers = if is_down {
        [1, 0, 0, 0, 0, 0, 0, 0, 1]
    } else {
        [1, 1, 0, 0, 0, 0, 0, 0, 0]
    };
    ReplayEnd {
        is_first_part: true,
        taken: room,
        failures: is_down as u64,
        is_down,
        numbers: Some(numbers),
    }
}

/// The least room with which a replay that writes so many bytes at once leaves anything else.
fn first_wrong(alloc: Global, piece: usize) -> Result<Option<usize>, Fail> {
    for room in 0..WHOLE + 1 {
        if replayed(alloc, piece, room)? != wanted(room) {
            return Ok(Some(room));
        }
    }
    Ok(None)
}

/// A sink that takes a byte a write takes just the bytes that another does, and one that fails behind `k` bytes the
/// first `k`.
#[test]
fn fails_after_each_byte(rt: HostRuntime) -> Result<(), Fail> {
    let alloc = rt.alloc();
    let byte_by_byte = first_wrong(alloc, 1)?;
    let line_by_line = first_wrong(alloc, WHOLE)?;
    assert_eq!(rt; (byte_by_byte, line_by_line), (None, None));
    Ok(())
}
