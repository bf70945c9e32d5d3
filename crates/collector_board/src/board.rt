//! What all threads of a run have counted, for readers while it runs.
use crate::cells::{PolicyCells, ShardCells, policy_cells};
use crate::decision_listeners::DecisionListeners;
use crate::decision_queue::DecisionQueue;
use crate::export_progress::ExportProgress;
use crate::ledger_desk::LedgerDesk;
use crate::record_queue::RecordQueue;
use crate::tick_gate::TickGate;
use crate::trace_questions::TraceQuestions;
use crate::write_news::{OutputFailure, longer};
use batch_post::AttemptOutcome;
use drop_ledger::{Count, Report};
use event_log::Level;
use lane_queue::Brake;
use metrics_text::{PolicyNumbers, ShardNumbers};
use policy_tree::Policies;
use request_keeping::RequestLedger;
use std::alloc::{AllocError, Global};
use std::sync::Wait;
use std::sync::atomic::{AtomicBool, AtomicU64, Ordering};
use std::time::Clock;

/// The number of counts in a report.
const PLACES: usize = 9;

/// The nine counts, as they grow. Each addition of a thread is added here when it was made, so a number that is read
/// never goes down, and is that of the report once all threads have ended. No contract says so: a thread that reads is
/// in no run.
#[derive(Drop)]
pub struct Board {
    received: AtomicU64,
    handed: AtomicU64,
    invalid_id: AtomicU64,
    queue_full: AtomicU64,
    no_memory: AtomicU64,
    evicted: AtomicU64,
    not_sampled: AtomicU64,
    late_not_sampled: AtomicU64,
    exporter_down: AtomicU64,
    brake: Brake,
    lines: AtomicU64,
    output_bytes: AtomicU64,
    memory_bytes: AtomicU64,
    /// What no policy decided, and then what each did, in order.
    pub(crate) policies: Vec<PolicyCells>,
    pub(crate) late_sampled: AtomicU64,
    pub(crate) shards: Vec<ShardCells>,
    /// Whether a write of the output failed for good.
    has_failed: AtomicBool,
    /// Spans that the backend rejected.
    rejected: AtomicU64,
    /// Attempts to send a line that were answered 200.
    attempts_taken: AtomicU64,
    /// Attempts to send a line that were answered otherwise.
    attempts_refused: AtomicU64,
    /// Attempts to send a line that had no answer.
    attempts_unanswered: AtomicU64,
    /// Spans with valid ids of which attributes were left out.
    pub(crate) incomplete: AtomicU64,
    /// Lines of the log that warned.
    log_warnings: AtomicU64,
    /// Lines of the log that told an error.
    log_errors: AtomicU64,
    /// Jumps of the wall clock.
    clock_jumps: AtomicU64,
    /// The moment since which writes of the output fail and are tried again, and 0: they don't.
    failing_since: AtomicU64,
    /// The system's number of the error by which that began, and 0: nothing was taken.
    failing_code: AtomicU64,
    /// To whom decisions are told.
    pub(crate) listeners: DecisionListeners,
    /// What is asked of the shards.
    pub(crate) questions: TraceQuestions,
    /// How the backend takes what is sent to it.
    export: ExportProgress,
    /// Where what came waits until it is written, if it is.
    record: Option<RecordQueue>,
    /// Where ticks and requests meet, if what comes is written.
    gate: Option<TickGate>,
    /// What is told to the ledger, where there is one.
    pub(crate) ledger: LedgerDesk,
    /// Requests are refused, and spans are, since memory is short.
    is_short: AtomicBool,
    is_shorter: AtomicBool,
}

impl Board {
    /// Nothing was counted, and requests are taken. The shards, of this number, decide by these policies.
    pub fn new(alloc: Global, shards: usize, policies: &Policies) -> Result<Self, AllocError> {
        let mut cells = Vec::new(alloc);
        for _ in 0..shards {
            cells.push(ShardCells::new())?;
        }
        Ok(Board {
            received: AtomicU64::new(0),
            handed: AtomicU64::new(0),
            invalid_id: AtomicU64::new(0),
            queue_full: AtomicU64::new(0),
            no_memory: AtomicU64::new(0),
            evicted: AtomicU64::new(0),
            not_sampled: AtomicU64::new(0),
            late_not_sampled: AtomicU64::new(0),
            exporter_down: AtomicU64::new(0),
            brake: Brake::new(),
            lines: AtomicU64::new(0),
            output_bytes: AtomicU64::new(0),
            memory_bytes: AtomicU64::new(0),
            policies: policy_cells(alloc, policies)?,
            late_sampled: AtomicU64::new(0),
            shards: cells,
            has_failed: AtomicBool::new(false),
            rejected: AtomicU64::new(0),
            attempts_taken: AtomicU64::new(0),
            attempts_refused: AtomicU64::new(0),
            attempts_unanswered: AtomicU64::new(0),
            incomplete: AtomicU64::new(0),
            log_warnings: AtomicU64::new(0),
            log_errors: AtomicU64::new(0),
            clock_jumps: AtomicU64::new(0),
            failing_since: AtomicU64::new(0),
            failing_code: AtomicU64::new(0),
            listeners: DecisionListeners::new(alloc, policies)?,
            questions: TraceQuestions::new(alloc, shards),
            export: ExportProgress::new(),
            record: None,
            gate: None,
            ledger: LedgerDesk::new(),
            is_short: AtomicBool::new(false),
            is_shorter: AtomicBool::new(false),
        })
    }

    /// From now on decisions are kept until they are taken.
    pub fn keep_decisions(&mut self, alloc: Global) -> Result<(), AllocError> {
        self.listeners.keep(alloc)
    }

    /// From now on what comes to so many lanes is kept until it is taken.
    pub fn keep_record(&mut self, alloc: Global, lanes: u64) -> Result<(), AllocError> {
        self.record = Some(RecordQueue::new(alloc, lanes)?);
        self.gate = Some(TickGate::new());
        Ok(())
    }

    /// Where what came waits until it is written, if it is.
    pub fn record_queue(&self) -> Option<&RecordQueue> {
        self.record.as_ref()
    }

    /// Where ticks and requests meet, if what comes is written.
    pub fn gate(&self) -> Option<&TickGate> {
        self.gate.as_ref()
    }

    /// A tick is to be told: with a record each request is taken whole before it, or behind it (D-527).
    pub fn begin_tick<R: Wait + Clock>(&self, rt: &R) {
        if let Some(gate) = &self.gate {
            gate.shut(rt);
            gate.wait_for(rt, self.shards.len() as u64, self.pushed());
        }
    }

    /// The tick was told to every shard.
    pub fn end_tick<R: Wait + Clock>(&self, rt: &R) {
        if let Some(gate) = &self.gate {
            gate.ticks();
            gate.wait_for(rt, self.shards.len() as u64, self.pushed());
            gate.open();
        }
    }

    /// How many spans lanes have pushed to shards.
    fn pushed(&self) -> u64 {
        let invalid = self.invalid_id.load(Ordering::Relaxed);
        let refused = self.queue_full.load(Ordering::Relaxed);
        let received = self.received.load(Ordering::Relaxed);
        received.saturating_sub(invalid.saturating_add(refused))
    }

    /// From now on there is this ledger.
    pub fn keep_ledger(&mut self, ledger: RequestLedger) {
        self.ledger.keep(ledger);
    }

    /// What is told to the ledger, where there is one.
    pub fn ledger(&self) -> &LedgerDesk {
        &self.ledger
    }

    /// Memory is short, so that no more requests are to be taken, or shorter still, so that shards keep no more spans.
    pub fn memory_is(&self, is_short: bool, is_shorter: bool) {
        self.is_short.store(is_short, Ordering::Relaxed);
        self.is_shorter.store(is_shorter, Ordering::Relaxed);
        self.brakes();
    }

    /// No request can be kept in the ledger, so that none is to be taken, or they can.
    pub fn ledger_stops(&self, stops: bool) {
        self.ledger.set(stops);
        self.brakes();
    }

    /// Sets the brake by what is known.
    fn brakes(&self) {
        let is_short = self.is_short.load(Ordering::Relaxed);
        let is_shorter = self.is_shorter.load(Ordering::Relaxed);
        self.brake.set(is_short || self.ledger.stops(), is_shorter);
    }

    /// Where decisions wait until they are written, if they are.
    pub fn decision_queue(&self) -> Option<&DecisionQueue> {
        self.listeners.queue()
    }

    /// To whom decisions are told.
    pub fn listeners(&self) -> &DecisionListeners {
        &self.listeners
    }

    /// What is asked of the shards.
    pub fn questions(&self) -> &TraceQuestions {
        &self.questions
    }

    /// How the backend takes what is sent to it.
    pub fn export(&self) -> &ExportProgress {
        &self.export
    }

    /// The counts as they are now.
    pub fn report(&self) -> Report {
        let mut report = Report::new();
        for count in Count::ALL {
            let number = self.cell(count.place()).load(Ordering::Relaxed);
            // The report's counts are 0 before.
            let _ = report.add(count, number);
        }
        report
    }

    /// How many spans wait: those that were received, and were neither handed over nor given up.
    pub fn waiting(&self) -> u64 {
        let mut ended = 0u64;
        for place in 1..PLACES {
            ended = ended.saturating_add(self.cell(place).load(Ordering::Relaxed));
        }
        // Read one after the other while threads count on, so what has ended may be ahead for a moment.
        self.received.load(Ordering::Relaxed).saturating_sub(ended)
    }

    /// The backend took a line of this number of bytes.
    pub fn delivered(&self, bytes: u64) {
        self.output_bytes.fetch_add(bytes, Ordering::Relaxed);
        self.lines.fetch_add(1, Ordering::Relaxed);
    }

    /// A write of the output failed for good.
    pub fn fails(&self) {
        self.has_failed.store(true, Ordering::Relaxed);
    }

    /// The backend rejected this number of spans of a batch that it took.
    pub fn rejects(&self, spans: u64) {
        self.rejected.fetch_add(spans, Ordering::Relaxed);
    }

    /// How many spans the backend rejected.
    pub fn rejected(&self) -> u64 {
        self.rejected.load(Ordering::Relaxed)
    }

    /// An attempt to send a line ended so.
    pub fn attempts(&self, outcome: AttemptOutcome) {
        let cell = match outcome {
            AttemptOutcome::Answered(200, _) => &self.attempts_taken,
            AttemptOutcome::Answered(..) => &self.attempts_refused,
            AttemptOutcome::NoAnswer => &self.attempts_unanswered,
        };
        cell.fetch_add(1, Ordering::Relaxed);
    }

    /// How many attempts to send a line were answered 200, how many otherwise, and how many weren't answered.
    pub fn attempted(&self) -> (u64, u64, u64) {
        (
            self.attempts_taken.load(Ordering::Relaxed),
            self.attempts_refused.load(Ordering::Relaxed),
            self.attempts_unanswered.load(Ordering::Relaxed),
        )
    }

    /// How many spans with valid ids came of which attributes were left out, by their sender or as they hold a double.
    pub fn incomplete(&self) -> u64 {
        self.incomplete.load(Ordering::Relaxed)
    }

    /// Writes of the output fail so, and are tried again.
    pub fn output_fails(&self, failure: OutputFailure) {
        self.failing_code.store(failure.code, Ordering::Relaxed);
        self.failing_since.store(failure.since, Ordering::Release);
    }

    /// The output takes writes again.
    pub fn output_is_back(&self) {
        self.failing_since.store(0, Ordering::Release);
    }

    /// Since when writes of the output fail and are tried again, and the number of the system's error, or 0.
    pub fn output_failing(&self) -> Option<(u64, u64)> {
        let since = self.failing_since.load(Ordering::Acquire);
        if since == 0 {
            return None;
        }
        Some((since, self.failing_code.load(Ordering::Relaxed)))
    }

    /// The log has a line of this level.
    pub fn logs(&self, level: Level) {
        match level {
            Level::Info => {}
            Level::Warning => {
                self.log_warnings.fetch_add(1, Ordering::Relaxed);
            }
            Level::Error => {
                self.log_errors.fetch_add(1, Ordering::Relaxed);
            }
        }
    }

    /// How many lines of the log warned, and how many told an error.
    pub fn logged(&self) -> (u64, u64) {
        let warnings = self.log_warnings.load(Ordering::Relaxed);
        (warnings, self.log_errors.load(Ordering::Relaxed))
    }

    /// The wall clock was seen to jump.
    pub fn jumps(&self) {
        self.clock_jumps.fetch_add(1, Ordering::Relaxed);
    }

    /// How often the wall clock was seen to jump.
    pub fn jumped(&self) -> u64 {
        self.clock_jumps.load(Ordering::Relaxed)
    }

    /// For how long the trace has waited that has waited the longest, in milliseconds, as the shards told last; 0 where
    /// none waits.
    pub fn longest_wait(&self) -> u64 {
        let mut longest: u64 = 0;
        for cells in &self.shards {
            longest = longer(longest, cells.waited.load(Ordering::Relaxed));
        }
        longest
    }

    /// The output took this number of bytes, and so many lines ended there.
    pub fn wrote(&self, bytes: u64, lines: u64) {
        self.output_bytes.fetch_add(bytes, Ordering::Relaxed);
        self.lines.fetch_add(lines, Ordering::Relaxed);
    }

    /// How many lines the output took whole, and how many bytes.
    pub fn written(&self) -> (u64, u64) {
        let lines = self.lines.load(Ordering::Relaxed);
        (lines, self.output_bytes.load(Ordering::Relaxed))
    }

    /// How many traces each policy decided, and behind all how many none did.
    pub fn decisions(&self, alloc: Global) -> Result<Vec<PolicyNumbers>, AllocError> {
        let mut numbers = Vec::new(alloc);
        let Some((none, policies)) = self.policies.split_first() else {
            return Ok(numbers);
        };
        for place in 0..policies.len() {
            numbers.push(policies[place].numbers(alloc, Some(place))?)?;
        }
        numbers.push(none.numbers(alloc, None)?)?;
        Ok(numbers)
    }

    /// How many spans came to traces that were decided before, as sampled and as not sampled.
    pub fn late(&self) -> (u64, u64) {
        let sampled = self.late_sampled.load(Ordering::Relaxed);
        (sampled, self.late_not_sampled.load(Ordering::Relaxed))
    }

    /// What each shard told last of what it holds.
    pub fn shards(&self, alloc: Global) -> Result<Vec<ShardNumbers>, AllocError> {
        let mut numbers = Vec::new(alloc);
        for cells in &self.shards {
            numbers.push(ShardNumbers {
                queued: cells.queued.load(Ordering::Relaxed),
                traces: cells.traces.load(Ordering::Relaxed),
                spans: cells.spans.load(Ordering::Relaxed),
            })?;
        }
        Ok(numbers)
    }

    /// The process takes this number of bytes of memory.
    pub fn takes(&self, bytes: u64) {
        self.memory_bytes.store(bytes, Ordering::Relaxed);
    }

    /// How many bytes of memory the process took when it was last looked at, or 0.
    pub fn taken(&self) -> u64 {
        self.memory_bytes.load(Ordering::Relaxed)
    }

    /// What refuses requests while memory is short.
    pub fn brake(&self) -> &Brake {
        &self.brake
    }

    /// Whether a write of the output failed for good.
    pub fn is_down(&self) -> bool {
        self.has_failed.load(Ordering::Relaxed)
    }

    /// The cell of the count that has this place in a report.
    pub(crate) fn cell(&self, place: usize) -> &AtomicU64 {
        match place {
            0 => &self.received,
            1 => &self.handed,
            2 => &self.invalid_id,
            3 => &self.queue_full,
            4 => &self.no_memory,
            5 => &self.evicted,
            6 => &self.not_sampled,
            7 => &self.late_not_sampled,
            _ => &self.exporter_down,
        }
    }
}
