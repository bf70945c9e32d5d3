//! The thread that keeps the ledger's files.
use crate::charge::Charge;
use crate::steady_clock::SteadyClock;
use http_lane::Clock as Moments;
use request_keeping::{Keeper, RequestLedger};
use std::alloc::Global;
use std::fs::File;
use std::rt::Files;
use std::sync::{Arc, Wait};
use std::thread::{JoinHandle, Threads};
use std::time::{Clock, Duration};
use std::{io, thread};

/// The time between two turns, in milliseconds.
const PAUSE: u64 = 50;

/// Keeps the ledger's files until nothing more is told. `None`: there is no ledger.
#[derive(Drop)]
pub struct LedgerThread {
    thread: Option<JoinHandle<()>>,
}

impl LedgerThread {
    /// There is no ledger.
    pub fn none() -> Self {
        LedgerThread { thread: None }
    }

    /// Starts the thread. An error: none is started.
    pub fn start<T: Files<File = File> + Threads + Wait + Clock + Copy + Send + Sync + 'static>(
        rt: &T,
        keeper: Keeper<T>,
        charge: Arc<Charge, Global>,
    ) -> io::Result<Self>
    where
        T::Dir: Send + 'static,
    {
        let own = *rt;
        let thread = thread::spawn(rt, move || keep(&own, keeper, &charge))?;
        Ok(LedgerThread {
            thread: Some(thread),
        })
    }

    /// Nothing more is told, and the ledger knows: waits until all that was told is in the files.
    pub fn end<R: Threads + Wait>(self, rt: &R) {
        let LedgerThread { thread } = self;
        if let Some(thread) = thread {
            thread.join(rt);
        }
    }
}

/// Keeps again and again, until nothing more is told.
fn keep<T: Files<File = File> + Wait + Clock + Copy>(rt: &T, keeper: Keeper<T>, charge: &Charge) {
    let Some(ledger) = charge.board.ledger().ledger() else {
        return;
    };
    let mut keeper = keeper;
    let clock = SteadyClock::new(rt);
    for _ in rt.forever() {
        // Asked before the turn, so that what was told before the end is in it.
        let is_over = ledger.is_over();
        keeper.turn(rt, ledger, clock.now());
        if is_over {
            keeper.end(rt, ledger, clock.now(), ledger.has_ended());
            return;
        }
        charge.board.ledger_stops(stops(ledger));
        thread::sleep(rt, Duration::from_millis(PAUSE));
    }
}

/// Whether no request is to be taken: none can be written, or there is no room for more.
fn stops(ledger: &RequestLedger) -> bool {
    ledger.is_failing() || ledger.is_full()
}
