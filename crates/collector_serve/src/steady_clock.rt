//! A clock that goes on by the time that passes.
ghost use Rattle.std.specs.Prelude.{◌≡◌, ◌+◌, ◌-◌, ◌/◌, ◌^◌, min, ⊤};
ghost use Rattle.std.specs.Duration.{as_nanos};
ghost use Rattle.collector_serve.specs.Moments.{moment_after};

use crate::wall_clock::WallClock;
use collector_board::{Board, RecordQueue};
use http_lane::{Clock as Moments, RequestsTold};
use otlp_encoding::Encoding;
use script_line::connection_number;
use span_ids::ConnKey;
use std::sync::Wait;
use std::time::{Clock, Duration, Instant};

/// The wall clock as it was at the start, and from then on the time that has passed, whatever becomes of the wall clock
/// (CLOCK_MONOTONIC): milliseconds since 1970. Where no time can be read that passes, it is the wall clock.
#[derive(Drop)]
pub struct SteadyClock<'r, R: Clock> {
    rt: &'r R,
    start: u64,
    began: Option<Instant>,
    /// Where requests that were taken wait until they are written, if they are.
    record: Option<&'r RecordQueue>,
    /// Where requests that were taken are kept, if they are.
    board: Option<&'r Board>,
}

impl<'r, R: Clock> SteadyClock<'r, R> {
    /// The clock that starts now.
    pub fn new(rt: &'r R) -> Self {
        SteadyClock {
            rt,
            start: WallClock::new(rt).now(),
            began: Instant::now(rt).ok(),
            record: None,
            board: None,
        }
    }

    /// The clock that hands on requests that were taken to this board, so that they are kept in a ledger and written to a
    /// record, where there is one.
    pub fn recording(self, board: &'r Board) -> Self {
        SteadyClock {
            rt: self.rt,
            start: self.start,
            began: self.began,
            record: board.record_queue(),
            board: Some(board),
        }
    }
}

impl<'r, R: Clock + Wait> SteadyClock<'r, R> {
    /// Tells the record of a request that was taken.
    fn records(&self, connection: ConnKey, moment: u64, encoding: Encoding, text: &[u8]) {
        let Some(record) = self.record else {
            return;
        };
        match connection_number(connection, record.lanes()) {
            Some(number) => record.put_request(self.rt, number, moment, encoding, text),
            None => record.loses(1),
        }
    }
}

impl<'r, R: Clock + Wait> Moments for SteadyClock<'r, R> {
    // What a ledger's files have no clause can say.
    ghost kept = { λ _ _ _ _ _. ⊤ };

    // Nor what stands in a queue that other threads push to.
    ghost heard = { λ _ _ _. ⊤ };

    fn now(&self) -> u64 {
        let Some(began) = self.began else {
            return WallClock::new(self.rt).now();
        };
        // A wall clock that is set moves no moment, so nothing is decided late or early by it (D-183).
        match began.elapsed(self.rt) {
            Ok(passed) => moment_after(self.start, passed),
            Err(_) => self.start,
        }
    }

    fn took(
        &self,
        told: &mut RequestsTold,
        connection: ConnKey,
        moment: u64,
        encoding: Encoding,
        text: &[u8],
    ) -> bool {
        told.add();
        self.records(connection, moment, encoding, text);
        let Some(board) = self.board else {
            return true;
        };
        let is_kept = board
            .ledger()
            .keeps(self.rt, connection, moment, encoding, text);
        if !is_kept {
            // At once, so that no further request is taken that can't be kept.
            board.ledger_stops(true);
        }
        is_kept
    }
}

/// The moment at which this time has passed since the start, at most 2^64-1.
fn moment_after(start: u64, passed: Duration) -> u64
    ensures { result ≡ moment_after start (as_nanos passed) }
{
    let milliseconds = u64::try_from(passed.as_millis()).unwrap_or(u64::MAX);
    start.saturating_add(milliseconds)
}
