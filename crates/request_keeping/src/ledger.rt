//! What lanes, shards and the exporter tell of requests and their spans.
use crate::lane_file::LaneFile;
use crossbeam_queue::ArrayQueue;
use otlp_encoding::Encoding;
use request_ledger::ShardStanding;
use span_ids::{ConnKey, SpanId, TraceId};
use std::alloc::{AllocError, Global};
use std::sync::atomic::{AtomicBool, AtomicU64, Ordering};
use std::sync::{Mutex, Wait};
use std::thread;

/// At most so many news of shards wait until they are taken.
const MOST_NEWS: usize = 65_536;

/// At most so many spans that the exporter took wait until it is known what became of them.
const MOST_PULLED: usize = 262_144;

/// No trace waits in a shard.
const NONE_WAITS: u64 = u64::MAX;

/// What a shard or the exporter tells of spans, or the start of requests.
#[derive(Clone, Copy)]
pub enum LedgerNews {
    /// So many spans of a trace, which came up to this moment, were counted as dropped.
    Counted {
        trace: TraceId,
        moment: u64,
        spans: u64,
    },
    /// So many spans of a trace are on their way to the exporter.
    Released {
        trace: TraceId,
        spans: u64,
    },
    /// The request at this place of that earlier file was received again.
    Again {
        segment: u64,
        lane: u16,
        place: u64,
    },
    /// The exporter took this span.
    Pulled {
        trace: TraceId,
        span: SpanId,
    },
}

/// What a shard told of what waits there.
#[derive(Drop)]
struct StandingCell {
    told: AtomicU64,
    oldest: AtomicU64,
}

/// Where requests are kept, and what is told of their spans until a keeper takes it.
#[derive(Drop)]
pub struct RequestLedger {
    /// Each request is synced before it is answered: those of one round of a lane by one sync.
    syncs: bool,
    lanes: Vec<Mutex<LaneFile>>,
    news: ArrayQueue<LedgerNews>,
    pulled: ArrayQueue<LedgerNews>,
    settled: AtomicU64,
    standings: Vec<StandingCell>,
    /// Bytes in the files of the segment under way.
    bytes: AtomicU64,
    /// Bytes in the files of the segments before it.
    closed_bytes: AtomicU64,
    /// Requests that couldn't be written, and weren't answered.
    unwritten: AtomicU64,
    fails: AtomicBool,
    is_full: AtomicBool,
    /// Requests and spans of an earlier run that were received again, and files whose end wasn't read.
    restored_requests: AtomicU64,
    restored_spans: AtomicU64,
    /// Of what earlier runs left: traces, spans that had been handed over, and how long all took, in milliseconds.
    earlier_traces: AtomicU64,
    handed_again: AtomicU64,
    restoring_time: AtomicU64,
    refused_requests: AtomicU64,
    cut_files: AtomicU64,
    is_restored: AtomicBool,
    /// Files of an earlier run are left.
    has_earlier: AtomicBool,
    has_ended: AtomicBool,
    is_over: AtomicBool,
}

impl RequestLedger {
    /// Nothing is kept yet, of so many lanes and shards.
    pub fn new(
        alloc: Global,
        lanes: usize,
        shards: usize,
        syncs: bool,
    ) -> Result<Self, AllocError> {
        let mut files = Vec::new(alloc);
        for _ in 0..lanes {
            files.push(Mutex::new(LaneFile::none(alloc, syncs)))?;
        }
        let mut standings = Vec::new(alloc);
        for _ in 0..shards {
            standings.push(StandingCell {
                told: AtomicU64::new(0),
                oldest: AtomicU64::new(NONE_WAITS),
            })?;
        }
        Ok(RequestLedger {
            syncs,
            lanes: files,
            news: ArrayQueue::new(alloc, MOST_NEWS)?,
            pulled: ArrayQueue::new(alloc, MOST_PULLED)?,
            settled: AtomicU64::new(0),
            standings,
            bytes: AtomicU64::new(0),
            closed_bytes: AtomicU64::new(0),
            unwritten: AtomicU64::new(0),
            fails: AtomicBool::new(false),
            is_full: AtomicBool::new(false),
            restored_requests: AtomicU64::new(0),
            restored_spans: AtomicU64::new(0),
            earlier_traces: AtomicU64::new(0),
            handed_again: AtomicU64::new(0),
            restoring_time: AtomicU64::new(0),
            refused_requests: AtomicU64::new(0),
            cut_files: AtomicU64::new(0),
            is_restored: AtomicBool::new(false),
            has_earlier: AtomicBool::new(false),
            has_ended: AtomicBool::new(false),
            is_over: AtomicBool::new(false),
        })
    }

    /// The file of each lane.
    pub(crate) fn lanes(&self) -> &[Mutex<LaneFile>] {
        &self.lanes
    }

    /// Whether answers wait for a sync.
    pub fn syncs(&self) -> bool {
        self.syncs
    }

    /// Syncs what this lane kept. `false`: that failed, and of what it kept since the sync before nothing is sure.
    pub fn commit<R: Wait>(&self, rt: &R, lane: usize) -> bool {
        let Some(slot) = self.lanes.get(lane) else {
            return true;
        };
        let lost = slot.lock(rt).commit();
        if lost == 0 {
            return true;
        }
        self.unwritten.fetch_add(lost, Ordering::Relaxed);
        self.fails.store(true, Ordering::Relaxed);
        false
    }

    /// Keeps a request that a lane took, and says whether it stands in the lane's file: only then may it be answered, and
    /// where answers wait for a sync only behind the next [`commit`](Self::commit).
    pub fn keep<R: Wait>(
        &self,
        rt: &R,
        connection: ConnKey,
        moment: u64,
        encoding: Encoding,
        text: &[u8],
    ) -> bool {
        let Some(slot) = self.lanes.get(connection.lane as usize) else {
            return false;
        };
        let mut file = slot.lock(rt);
        match file.write(connection, moment, encoding, text) {
            Ok(bytes) => {
                self.bytes.fetch_add(bytes, Ordering::Relaxed);
                true
            }
            Err(_) => {
                self.unwritten.fetch_add(1, Ordering::Relaxed);
                self.fails.store(true, Ordering::Relaxed);
                false
            }
        }
    }

    /// Tells news. It waits where too many wait: so none is lost, and nothing stays that has ended.
    pub fn tell<R: Wait>(&self, rt: &R, news: LedgerNews) {
        let mut left = news;
        for _ in rt.forever() {
            match self.news.push(rt, left) {
                Ok(()) => return,
                Err(back) => left = back,
            }
            thread::yield_now();
        }
    }

    /// The exporter took this span.
    pub fn pulled<R: Wait>(&self, rt: &R, trace: TraceId, span: SpanId) {
        let mut left = LedgerNews::Pulled { trace, span };
        for _ in rt.forever() {
            match self.pulled.push(rt, left) {
                Ok(()) => return,
                Err(back) => left = back,
            }
            thread::yield_now();
        }
    }

    /// So many spans that the exporter had taken, the oldest of them, were handed over, or given up and counted.
    pub fn settled(&self, spans: u64) {
        self.settled.fetch_add(spans, Ordering::Release);
    }

    /// A shard tells at this moment when the trace was opened that has waited there the longest, if one waits.
    pub fn stands(&self, shard: u16, now: u64, oldest: Option<u64>) {
        if let Some(cell) = self.standings.get(shard as usize) {
            let oldest = oldest.unwrap_or(NONE_WAITS);
            cell.oldest.store(oldest, Ordering::Release);
            cell.told.store(now, Ordering::Release);
        }
    }

    /// What each shard told last.
    pub(crate) fn standings(&self, alloc: Global) -> Result<Vec<ShardStanding>, AllocError> {
        let mut standings = Vec::new(alloc);
        for cell in &self.standings {
            let told = cell.told.load(Ordering::Acquire);
            let oldest = match cell.oldest.load(Ordering::Acquire) {
                NONE_WAITS => None,
                opened => Some(opened),
            };
            standings.push(ShardStanding { told, oldest })?;
        }
        Ok(standings)
    }

    /// How many of the spans that wait first among the exporter's are settled and weren't asked for yet.
    pub(crate) fn take_settled(&self) -> u64 {
        self.settled.swap(0, Ordering::Acquire)
    }

    /// The news that were told first, if any wait.
    pub(crate) fn take_news<R: Wait>(&self, rt: &R) -> Option<LedgerNews> {
        self.news.pop(rt)
    }

    /// The span that the exporter took first, if any waits.
    pub(crate) fn take_pulled<R: Wait>(&self, rt: &R) -> Option<LedgerNews> {
        self.pulled.pop(rt)
    }

    /// The segment under way is closed: how many bytes it has.
    pub(crate) fn closes(&self) -> u64 {
        let bytes = self.bytes.swap(0, Ordering::Relaxed);
        self.closed_bytes.fetch_add(bytes, Ordering::Relaxed);
        bytes
    }

    /// A closed segment of so many bytes was removed.
    pub(crate) fn removes(&self, bytes: u64) {
        self.closed_bytes.fetch_sub(bytes, Ordering::Relaxed);
    }

    /// Bytes in the files of the segment under way.
    pub(crate) fn open_bytes(&self) -> u64 {
        self.bytes.load(Ordering::Relaxed)
    }

    /// Bytes in the files of requests.
    pub fn bytes(&self) -> u64 {
        let closed = self.closed_bytes.load(Ordering::Relaxed);
        closed.saturating_add(self.bytes.load(Ordering::Relaxed))
    }

    /// Whether writes fail, or the folder holds as much as it may.
    pub(crate) fn shows(&self, fails: bool, is_full: bool) {
        self.fails.store(fails, Ordering::Relaxed);
        self.is_full.store(is_full, Ordering::Relaxed);
    }

    /// Whether writes fail.
    pub fn is_failing(&self) -> bool {
        self.fails.load(Ordering::Relaxed)
    }

    /// Whether the folder holds as much as it may.
    pub fn is_full(&self) -> bool {
        self.is_full.load(Ordering::Relaxed)
    }

    /// How many requests couldn't be written, and weren't answered.
    pub fn unwritten(&self) -> u64 {
        self.unwritten.load(Ordering::Relaxed)
    }

    /// A request of an earlier run was received again, with so many spans.
    pub fn restores(&self, spans: u64) {
        self.restored_requests.fetch_add(1, Ordering::Relaxed);
        self.restored_spans.fetch_add(spans, Ordering::Relaxed);
    }

    /// A request of an earlier run isn't taken any more.
    pub fn refuses(&self) {
        self.refused_requests.fetch_add(1, Ordering::Relaxed);
    }

    /// So many files of an earlier run have an end that can't be read.
    pub fn cuts(&self, files: u64) {
        self.cut_files.fetch_add(files, Ordering::Relaxed);
    }

    /// All that an earlier run left was received again, or refused.
    pub fn has_restored(&self) {
        self.is_restored.store(true, Ordering::Release);
    }

    /// Whether that is so.
    pub fn is_restored(&self) -> bool {
        self.is_restored.load(Ordering::Acquire)
    }

    /// Files of an earlier run are left, or none is.
    pub fn leaves_earlier(&self, has_earlier: bool) {
        self.has_earlier.store(has_earlier, Ordering::Release);
    }

    /// Whether files of an earlier run are left.
    pub(crate) fn has_earlier(&self) -> bool {
        self.has_earlier.load(Ordering::Acquire)
    }

    /// The run has ended, and each of its spans with it.
    pub fn ends(&self) {
        self.has_ended.store(true, Ordering::Release);
    }

    /// Whether that is so.
    pub fn has_ended(&self) -> bool {
        self.has_ended.load(Ordering::Acquire)
    }

    /// Nothing more is told.
    pub fn closes_for_good(&self) {
        self.is_over.store(true, Ordering::Release);
    }

    /// Whether nothing more is told.
    pub fn is_over(&self) -> bool {
        self.is_over.load(Ordering::Acquire)
    }

    /// How many requests of an earlier run were received again, with how many spans, and how many were refused.
    pub fn restored(&self) -> (u64, u64, u64) {
        (
            self.restored_requests.load(Ordering::Relaxed),
            self.restored_spans.load(Ordering::Relaxed),
            self.refused_requests.load(Ordering::Relaxed),
        )
    }

    /// How many files of an earlier run have an end that can't be read.
    pub fn cut(&self) -> u64 {
        self.cut_files.load(Ordering::Relaxed)
    }

    /// Earlier runs left spans of so many traces.
    pub fn finds(&self, traces: u64) {
        self.earlier_traces.store(traces, Ordering::Relaxed);
    }

    /// Of the spans that were received again, so many had been noted as handed over.
    pub fn hands_again(&self, spans: u64) {
        self.handed_again.fetch_add(spans, Ordering::Relaxed);
    }

    /// To read what earlier runs left, or to receive it again, took so many milliseconds.
    pub fn takes(&self, milliseconds: u64) {
        self.restoring_time
            .fetch_add(milliseconds, Ordering::Relaxed);
    }

    /// Of how many traces earlier runs left spans, and how long it took to read these and receive them again, in
    /// milliseconds.
    pub fn found(&self) -> (u64, u64) {
        (
            self.earlier_traces.load(Ordering::Relaxed),
            self.restoring_time.load(Ordering::Relaxed),
        )
    }

    /// How many of the spans that were received again had been noted as handed over.
    pub fn handed_again(&self) -> u64 {
        self.handed_again.load(Ordering::Relaxed)
    }
}
