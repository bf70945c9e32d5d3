//! One connection by a clock: a row of `turns.tsv` has a name, what a driver says, the bytes that are answered, and how
//! the connection ends and at which of these steps. The steps, parted by ` | `: `take MOMENT`, `came MOMENT BYTES`,
//! `look MOMENT`, `over MOMENT`, `read_failed MOMENT`, `write_failed MOMENT`, `dismiss MOMENT`, and `stop MOMENT`,
//! which sets the stop mark.
ghost use Rattle.std.specs.Prelude.{◌≡◌, ◌<◌, ◌≤◌, length, ⊤};
ghost use Rattle.lane_turns.specs.Driving.{FitsNext};

use crate::column::bytes_of;
use crate::peers::{Mark, Ticks};
use crate::trial::{lane_of, name_of};
use drop_ledger::Report;
use http_lane::{Answers, HasStopMark, Lent, ServeEnd};
use http_text::Allowed;
use lane_turns::{Done, Driver, Leaving, Next, serve_turns};
use std::alloc::{AllocError, Global};
use std::cell::Cell;
use std::sync::Wait;
use std::time::Clock;

/// What is allowed to clients by default.
const PLAIN: Allowed = Allowed {
    gzip: false,
    protobuf: false,
    close: true,
    body_limit: 4_194_304,
};

/// One step.
#[derive(Drop)]
struct Step<'t> {
    word: &'t str,
    moment: u64,
    bytes: Vec<u8>,
}

/// Says the steps of a row.
#[derive(Drop)]
struct Script<'t> {
    steps: Vec<Step<'t>>,
    at: usize,
    key: usize,
    mark: &'t Mark,
    written: Vec<u8>,
    /// How the connection ended, and at which step, from 1 on.
    end: Option<(ServeEnd, usize)>,
    is_short: bool,
}

/// What a step says, for the connection at this key. `None`: it is no such word.
fn said(step: &Step, key: usize, piece: &mut [u8]) -> Option<Next>
    ensures { (next : Next) → result ≡ Some next → FitsNext next (length piece.old) }
{
    let leave = |how| Some(Next::Leave { key, how });
    match step.word {
        "take" => Some(Next::Take),
        "look" => Some(Next::Look { key }),
        "dismiss" => Some(Next::Dismiss { key }),
        "over" => leave(Leaving::Over),
        "read_failed" => leave(Leaving::ReadFailed),
        "write_failed" => leave(Leaving::WriteFailed),
        "came" => {
            let len = step.bytes.len().min(piece.len());
            if len == 0 {
                return None;
            }
            piece[..len].copy_from_slice(&step.bytes[..len]);
            Some(Next::Came { key, len })
        }
        _ => None,
    }
}

impl<'t> Driver for Script<'t> {
    ghost asks = { λ old next moment piece new. ⊤ };

    ghost hears = { λ old done text new. ⊤ };

    fn next<R: Wait + Clock>(&mut self, rt: &R, piece: &mut [u8]) -> (Next, u64) {
        for _ in rt.forever() {
            let Some(step) = self.steps.get(self.at) else {
                return (Next::End, 0);
            };
            self.at = self.at.saturating_add(1);
            if self.end.is_some() {
                return (Next::End, 0);
            }
            if step.word == "stop" {
                self.mark.set();
            }
            if let Some(next) = said(step, self.key, piece) {
                return (next, step.moment);
            }
        }
        unreachable!()
    }

    fn done(&mut self, done: Done, text: &[u8]) {
        match done {
            Done::Took(key) => self.key = key.unwrap_or(0),
            Done::Turned { end, .. } => {
                self.is_short |= self.written.extend_from_slice(text).is_err();
                if let Some(end) = end {
                    self.end = Some((end, self.at));
                }
            }
            Done::Nothing => {}
        }
    }
}

/// The steps of a column.
fn steps_of<'t>(alloc: Global, column: &'t str) -> Result<Vec<Step<'t>>, AllocError> {
    let mut steps = Vec::new(alloc);
    for text in column.split(" | ") {
        let (word, rest) = text.split_once(' ').unwrap_or((text, ""));
        let (moment, bytes) = rest.split_once(' ').unwrap_or((rest, ""));
        let bytes = bytes_of(alloc, bytes)?;
        steps.reserve(1)?;
        steps.push_reserved(Step {
            word,
            moment: moment.parse::<u64>().unwrap_or(0),
            bytes,
        });
    }
    Ok(steps)
}

/// Whether the connection of a line comes out as it says.
pub fn holds<R: Wait + Clock>(rt: &R, alloc: Global, line: &str) -> Result<bool, AllocError> {
    let mut columns = line.split('\t');
    let (Some(_), Some(steps), Some(answers), Some(end)) = (
        columns.next(),
        columns.next(),
        columns.next(),
        columns.next(),
    ) else {
        return Ok(false);
    };
    let steps = steps_of(alloc, steps)?;
    let answers = bytes_of(alloc, answers)?;
    let mut lane = lane_of(alloc, 8)?;
    let mut report = Report::new();
    let mark = Mark {
        set: Cell::new(false),
    };
    let clock = Ticks {
        asked: Cell::new(0),
    };
    let mut script = Script {
        steps,
        at: 0,
        key: 0,
        mark: &mark,
        written: Vec::new(alloc),
        end: None,
        is_short: false,
    };
    let counted = Answers::new();
    let lent = Lent {
        alloc,
        stop: &mark,
        clock: &clock,
        answers: &counted,
    };
    serve_turns(rt, &lent, PLAIN, &mut script, &mut lane, &mut report);
    let wanted = end.split_once('@').unwrap_or((end, ""));
    let came = match script.end {
        Some((end, at)) => (name_of(end), at),
        None => ("", 0),
    };
    let right = script.written.as_slice() == answers.as_slice();
    Ok(
        right
            && !script.is_short
            && came.0 == wanted.0
            && Some(came.1) == wanted.1.parse::<usize>().ok(),
    )
}
