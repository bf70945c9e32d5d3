//! The thread that writes lines of what is told.
use crate::charge::Charge;
use http_lane::HasStopMark;
use line_writing::{EntrySource, LineMaker, LinesToWrite, take_rest, write_turn};
use std::alloc::Global;
use std::io::Write;
use std::sync::{Arc, Wait};
use std::thread::{JoinHandle, Threads};
use std::time::{Clock, Duration};
use std::{io, thread};

/// The time between two looks at what waits, in milliseconds.
const PAUSE: u64 = 100;

/// Where lines that are never written are counted.
pub trait LineLosses {
    /// So many lines more are never written.
    fn loses(&self, lines: u64);
}

/// Writes lines until the run is over and none waits. `None`: none is written.
#[derive(Drop)]
pub struct LineWriter {
    thread: Option<JoinHandle<()>>,
}

impl LineWriter {
    /// No line is written.
    pub fn none() -> Self {
        LineWriter { thread: None }
    }

    /// Starts the thread. An error: none is started.
    pub fn start<
        T: Send + Drop + 'static,
        W: Write + Send + Drop + 'static,
        S: EntrySource<T> + LineLosses + Send + Drop + 'static,
        L: LineMaker<T> + Send + Drop + 'static,
        R: Threads + Wait + Clock + Copy + Send + 'static,
    >(
        rt: &R,
        alloc: Global,
        output: W,
        entries: S,
        maker: L,
        charge: Arc<Charge, Global>,
    ) -> io::Result<Self> {
        let own = *rt;
        let thread = thread::spawn(rt, move || {
            write_lines(&own, alloc, output, entries, maker, &charge)
        })?;
        Ok(LineWriter {
            thread: Some(thread),
        })
    }

    /// The run is over, and its mark is set: waits until all lines are written, or can't be.
    pub fn end<R: Threads + Wait>(self, rt: &R) {
        let LineWriter { thread } = self;
        if let Some(thread) = thread {
            thread.join(rt);
        }
    }
}

/// Writes what waits again and again, until the run is over and nothing waits, or can be written.
fn write_lines<
    T: Drop,
    W: Write + Drop,
    S: EntrySource<T> + LineLosses + Drop,
    L: LineMaker<T> + Drop,
    R: Wait + Clock,
>(rt: &R, alloc: Global, output: W, entries: S, maker: L, charge: &Charge) {
    let mut output = output;
    let mut entries = entries;
    let mut lines = LinesToWrite::new(alloc);
    for _ in rt.forever() {
        // Asked before lines are made, so that what was told before the end is written.
        let is_over = charge.over.is_set();
        let turn = write_turn(rt, &mut lines, &mut entries, &maker, &mut output);
        entries.loses(turn.lost);
        if is_over && !turn.goes_on {
            // What still can't be written is lost with the end.
            let waiting = take_rest(rt, &mut entries);
            entries.loses(lines.left().saturating_add(waiting));
            return;
        }
        if !turn.goes_on {
            thread::sleep(rt, Duration::from_millis(PAUSE));
        }
    }
}
