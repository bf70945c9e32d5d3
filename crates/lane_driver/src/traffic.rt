//! What came and went on all connections.
ghost use Rattle.std.specs.Prelude.{◌≡◌};
ghost use Rattle.lane_driver.specs.Traffic.{counted_as};

use http_lane::Answers;
use std::sync::atomic::{AtomicU64, Ordering};

/// What happens on connections.
#[derive(Clone, Copy, PartialEq, Eq)]
pub enum TrafficEvent {
    /// This number of bytes came.
    Came(usize),
    /// This number of bytes of answers is sent.
    Went(usize),
    /// The connection that was idle longest is closed for another one.
    ClosesIdle,
    /// A connection could not be taken, as too many files are open.
    LacksFile,
}

/// What is counted of it.
#[derive(Clone, Copy, PartialEq, Eq)]
pub enum TrafficCount {
    /// Bytes that came.
    Received,
    /// Bytes of answers.
    Sent,
    /// Connections that were closed for another one, as they were idle longest.
    ClosedIdle,
    /// How often a connection could not be taken, as too many files were open.
    LackedFile,
}

/// As what an event counts, and how much.
fn counted_as(event: TrafficEvent) -> (TrafficCount, u64)
    ensures { result ≡ counted_as event }
{
    match event {
        TrafficEvent::Came(bytes) => (TrafficCount::Received, bytes as u64),
        TrafficEvent::Went(bytes) => (TrafficCount::Sent, bytes as u64),
        TrafficEvent::ClosesIdle => (TrafficCount::ClosedIdle, 1),
        TrafficEvent::LacksFile => (TrafficCount::LackedFile, 1),
    }
}

/// Bytes that came and went, how many requests were answered with each status, and what became of connections. All
/// lanes add to it, and numbers only grow. As what an event counts is proved; that it is counted is not.
#[derive(Drop)]
pub struct Traffic {
    /// How many requests were answered with each status.
    pub answers: Answers,
    received: AtomicU64,
    sent: AtomicU64,
    closed_idle: AtomicU64,
    lacked_file: AtomicU64,
}

impl Traffic {
    /// Nothing came.
    pub fn new() -> Self {
        Traffic {
            answers: Answers::new(),
            received: AtomicU64::new(0),
            sent: AtomicU64::new(0),
            closed_idle: AtomicU64::new(0),
            lacked_file: AtomicU64::new(0),
        }
    }

    /// This happens.
    pub fn sees(&self, event: TrafficEvent) {
        let (count, number) = counted_as(event);
        // These numbers are only told, and nothing is decided by them, so they need no order among each other.
        self.cell(count).fetch_add(number, Ordering::Relaxed);
    }

    /// This number of bytes came.
    pub fn came(&self, bytes: usize) {
        self.sees(TrafficEvent::Came(bytes));
    }

    /// This number of bytes of answers is sent.
    pub fn went(&self, bytes: usize) {
        self.sees(TrafficEvent::Went(bytes));
    }

    /// How many connections were closed for another one, as they were idle longest.
    pub fn closed_idle(&self) -> u64 {
        self.number(TrafficCount::ClosedIdle)
    }

    /// How often a connection could not be taken, as too many files were open.
    pub fn lacked_file(&self) -> u64 {
        self.number(TrafficCount::LackedFile)
    }

    /// How many bytes came.
    pub fn received(&self) -> u64 {
        self.number(TrafficCount::Received)
    }

    /// How many bytes of answers there were.
    pub fn sent(&self) -> u64 {
        self.number(TrafficCount::Sent)
    }

    /// How much was counted so.
    fn number(&self, count: TrafficCount) -> u64 {
        self.cell(count).load(Ordering::Relaxed)
    }

    /// Where it is counted.
    fn cell(&self, count: TrafficCount) -> &AtomicU64 {
        match count {
            TrafficCount::Received => &self.received,
            TrafficCount::Sent => &self.sent,
            TrafficCount::ClosedIdle => &self.closed_idle,
            TrafficCount::LackedFile => &self.lacked_file,
        }
    }
}
