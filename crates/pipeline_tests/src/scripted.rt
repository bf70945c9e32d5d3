//! Lanes that serve by turns, as a driver in memory says: what comes out is known, in whatever pieces the bytes come.
ghost use Rattle.std.specs.Prelude.{◌<◌, ◌≤◌, IfSome, length, ⊤};

use crate::memory::{Mark, MemorySink, NoTicks, Standing};
use crate::overlap::{A, configured, request};
use http_lane::Answers;
use http_text::Allowed;
use lane_queue::Brake;
use lane_turns::{Done, Driver, Leaving, Next};
use lane_worker::ByTurns;
use pipeline::{Machine, RunContext, run_by_turns};
use std::alloc::Global;
use std::sync::Wait;
use std::sync::atomic::AtomicBool;
use std::test::Fail;
use std::time::Clock;
use thread_watch::Unwatched;

/// One lane that keeps everything, and one shard.
const ONE_LANE: &str = "lanes = 1\npolicies = [{ name = \"all\", type = \"always_sample\" }]\n";

/// What is allowed to clients.
const PLAIN: Allowed = Allowed {
    gzip: false,
    protobuf: false,
    close: true,
    body_limit: 4_194_304,
};

/// A connection that brings these bytes in pieces of at most so many, and then ends; or none at all.
#[derive(Drop)]
struct OneConnection {
    bytes: Vec<u8>,
    most: usize,
    at: usize,
    key: Option<usize>,
    is_to_come: bool,
}

/// Puts the next bytes behind a place at the front of a piece, at most so many, and says how many; `None`: there are no
/// more.
fn brought(bytes: &[u8], at: usize, most: usize, piece: &mut [u8]) -> Option<usize>
    ensures { IfSome result (λ len. (0 < len) × (len ≤ length piece.old)) }
{
    let rest = bytes.get(at..).unwrap_or(b"");
    let len = rest.len().min(piece.len()).min(most);
    if len == 0 {
        return None;
    }
    piece[..len].copy_from_slice(&rest[..len]);
    Some(len)
}

impl Driver for OneConnection {
    ghost asks = { λ old next moment piece new. ⊤ };

    ghost hears = { λ old done text new. ⊤ };

    fn next<R: Wait + Clock>(&mut self, _rt: &R, piece: &mut [u8]) -> (Next, u64) {
        let Some(key) = self.key else {
            let next = if self.is_to_come {
                Next::Take
            } else {
                Next::End
            };
            self.is_to_come = false;
            return (next, 0);
        };
        match brought(&self.bytes, self.at, self.most, piece) {
            Some(len) => {
                self.at = self.at.saturating_add(len);
                (Next::Came { key, len }, 0)
            }
            None => {
                let how = Leaving::Over;
                (Next::Leave { key, how }, 0)
            }
        }
    }

    fn done(&mut self, done: Done, _text: &[u8]) {
        match done {
            Done::Took(key) => self.key = key,
            Done::Turned { end: Some(_), .. } => self.key = None,
            _ => {}
        }
    }
}

/// The lines and the numbers of a run over one lane that is brought these bytes so.
fn run_pieces<R: Machine>(
    rt: &R,
    alloc: Global,
    bytes: Vec<u8>,
    most: usize,
    is_to_come: bool,
) -> Result<(Vec<u8>, [u64; 9]), Fail> {
    let config = configured(alloc, ONE_LANE)?;
    let driver = OneConnection {
        bytes,
        most,
        at: 0,
        key: None,
        is_to_come,
    };
    let mut drivers = Vec::new(alloc);
    drivers.push(ByTurns {
        driver,
        allowed: PLAIN,
    })?;
    if drivers.len() != config.lanes as usize || config.shards > 64 {
        return Err(Fail::from("lanes"));
    }
    let stop = Mark {
        is_set: AtomicBool::new(false),
    };
    let (answers, brake) = (Answers::new(), Brake::new());
    let context = RunContext {
        rt,
        alloc,
        observer: &Unwatched,
        brake: &brake,
        stop: &stop,
        clock: &Standing,
        answers: &answers,
    };
    let sink = MemorySink::new(alloc, false)?;
    let (sink, answer, _) = run_by_turns(&context, config, drivers, NoTicks, sink);
    let Ok(report) = answer else {
        return Err(Fail::from("a fault"));
    };
    Ok((sink.taken, report.numbers()))
}

#[test]
fn as_the_driver_says(rt: HostRuntime) -> Result<(), Fail> {
    let alloc = rt.alloc();
    let (whole, numbers) = run_pieces(&rt, alloc, request(alloc, A, 3)?, 4096, true)?;
    assert_eq!(rt; numbers, [3, 3, 0, 0, 0, 0, 0, 0, 0]);
    assert!(rt; !whole.is_empty());
    let (bytewise, numbers) = run_pieces(&rt, alloc, request(alloc, A, 3)?, 1, true)?;
    assert_eq!(rt; numbers, [3, 3, 0, 0, 0, 0, 0, 0, 0]);
    assert!(rt; bytewise.as_slice() == whole.as_slice());
    let (none, numbers) = run_pieces(&rt, alloc, request(alloc, A, 3)?, 4096, false)?;
    assert_eq!(rt; numbers, [0, 0, 0, 0, 0, 0, 0, 0, 0]);
    assert!(rt; none.is_empty());
    Ok(())
}
