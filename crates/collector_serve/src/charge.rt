//! What a collector shares with those in charge of it.
ghost use Rattle.std.specs.Prelude.{◌≡◌, ◌++◌, IfSome, OnOk, string_bytes};
ghost use Rattle.collector_serve.specs.Told.{ledger_part};

use crate::admin_door::{both_addresses, end_admin};
use crate::history::History;
use crate::lines_of::LinesOf;
use crate::wall_clock::WallClock;
use admin_http::Admin;
use collector_board::{Board, Closer, OutputStall, REMEMBERED, StopMark, left_by};
use decision_json::{decisions_text, trace_text};
use decision_line::TraceHeld;
use http_lane::{Clock as Moments, HasStopMark};
use lane_driver::{Loads, RoundKeeper};
use metrics_text::{LedgerCounts, Metrics, metrics_text, put_ledger};
use otlp_types::Text;
use output_file::ReopenMark;
use span_ids::TraceId;
use status_json::{Backlog, Status, status_text};
use std::alloc::{AllocError, Global};
use std::io::Read;
use std::rt::Files;
use std::sync::{Arc, OnceToken, Wait};
use std::thread::Threads;
use std::time::{Clock, Instant};
use std::{io, thread};

/// So many of the last decisions are told at once.
const LAST: usize = 100;

/// What a collector shares with those in charge of it.
#[derive(Drop)]
pub struct Charge {
    /// The mark to stop.
    pub stop: StopMark,
    /// The mark that the run is over.
    pub over: StopMark,
    /// The counts while it runs.
    pub board: Board,
    /// Since when a write of the output has been under way.
    pub stall: OutputStall,
    /// How many connections each lane has.
    pub loads: Arc<Loads, Global>,
    /// The settings in force, as a configuration's text.
    pub configuration: String,
    /// The address for those in charge, or nothing.
    pub admin: Text,
    /// What asks for the output's file to be opened anew.
    pub reopen: ReopenMark,
    /// What asks for the decisions' file to be opened anew.
    pub reopen_decisions: ReopenMark,
    /// What asks for the record's file to be opened anew.
    pub reopen_record: ReopenMark,
    /// The path of the output's file, or nothing.
    pub output: Text,
    /// The address at which numbers alone are told, or nothing.
    pub metrics_address: Text,
    /// The page that shows what it tells, in HTML.
    pub page: Text,
    /// The fields of a head that go with the page, each with its line end.
    pub page_fields: Text,
    /// The counts of the last minutes.
    pub history: History,
}

impl RoundKeeper for Charge {
    fn holds_answers(&self) -> bool {
        self.board.ledger().syncs()
    }

    fn commit<R: Wait>(&self, rt: &R, lane: usize) -> bool {
        self.board.ledger().commit(rt, lane)
    }

    fn begin<R: Wait + Clock>(&self, rt: &R) {
        if let Some(gate) = self.board.gate() {
            gate.enter(rt);
        }
    }

    fn end(&self) {
        if let Some(gate) = self.board.gate() {
            gate.leave();
        }
    }
}

impl Charge {
    /// What asks for the file of such lines to be opened anew.
    pub fn reopen_of(&self, lines: LinesOf) -> &ReopenMark {
        match lines {
            LinesOf::Decisions => &self.reopen_decisions,
            LinesOf::Record => &self.reopen_record,
        }
    }

    /// Removes the sockets' files of its addresses, where these are some.
    pub fn removes_sockets<R: Files>(&self, rt: &R) {
        for address in both_addresses(self.admin.as_str(), self.metrics_address.as_str()) {
            end_admin(rt, address);
        }
    }

    /// What of the spans that wait does so for the backend, where there is one.
    fn backlog<R: Clock>(
        &self,
        rt: &R,
        alloc: Global,
        waiting: u64,
    ) -> Result<Option<Backlog>, AllocError> {
        let export = self.board.export();
        if !export.is_on() {
            return Ok(None);
        }
        Ok(Some(Backlog {
            waiting: left_by(waiting, &self.board.shards(alloc)?),
            under_way: self.stall.seconds(rt),
            failed_tries: export.failed_tries(),
            given_up: export.given_up(),
        }))
    }

    /// The numbers of the ledger, where there is one.
    fn ledger_counts(&self) -> Option<LedgerCounts> {
        let ledger = self.board.ledger().ledger()?;
        let (_, restored_spans, _) = ledger.restored();
        Some(LedgerCounts {
            restored_spans,
            handed_again: ledger.handed_again(),
        })
    }

    /// The numbers now, of a collector that has been at work since then.
    fn metrics<R: Clock>(&self, rt: &R, began: Option<Instant>) -> Metrics {
        let traffic = &self.loads.traffic;
        let (lines, output_bytes) = self.board.written();
        let (late_sampled, late_not_sampled) = self.board.late();
        let (attempts_taken, attempts_refused, attempts_unanswered) = self.board.attempted();
        let (log_warnings, log_errors) = self.board.logged();
        Metrics {
            report: self.board.report(),
            open_connections: self.loads.sum(),
            uptime_seconds: seconds_since(rt, began),
            spans_waiting: self.board.waiting(),
            received_bytes: traffic.received(),
            sent_bytes: traffic.sent(),
            lines,
            output_bytes,
            memory_bytes: self.board.taken(),
            answered_200: traffic.answers.answered(200),
            answered_400: traffic.answers.answered(400),
            answered_404: traffic.answers.answered(404),
            answered_405: traffic.answers.answered(405),
            answered_408: traffic.answers.answered(408),
            answered_413: traffic.answers.answered(413),
            answered_415: traffic.answers.answered(415),
            answered_431: traffic.answers.answered(431),
            answered_503: traffic.answers.answered(503),
            late_sampled,
            late_not_sampled,
            rejected: self.board.rejected(),
            attempts_taken,
            attempts_refused,
            attempts_unanswered,
            output_stalled_seconds: self.stall.seconds(rt),
            oldest_waiting_seconds: self.board.longest_wait() / 1_000,
            log_warnings,
            log_errors,
            clock_jumps: self.board.jumped(),
            closed_idle: traffic.closed_idle(),
            incomplete: self.board.incomplete(),
        }
    }
}

/// Seconds since then, and 0 where the clock doesn't tell.
fn seconds_since<R: Clock>(rt: &R, began: Option<Instant>) -> u64 {
    let Some(began) = began else {
        return 0;
    };
    match began.elapsed(rt) {
        Ok(since) => since.as_secs(),
        Err(_) => 0,
    }
}

/// A collector, as one in charge of it sees it.
#[derive(Drop)]
pub struct InCharge<'c, R: Clock> {
    rt: &'c R,
    charge: &'c Charge,
    began: Option<Instant>,
    /// What shows that the mark to stop is set, once it was asked to close here.
    closed: Option<OnceToken<'c, Closer>>,
    is_reopened: bool,
    ghost of_the_mark: { ∥ IfSome closed (λ token. token.of ≡ charge.now.stop.set.id) ∥₁ },
}

impl<'c, R: Clock + Wait> InCharge<'c, R> {
    /// A collector that has been at work since then, and that was asked for nothing.
    pub fn new(rt: &'c R, charge: &'c Charge, began: Option<Instant>) -> Self {
        InCharge {
            rt,
            charge,
            began,
            closed: None,
            is_reopened: false,
        }
    }

    /// What the shards hold of the trace whose id has these bytes, as far as they have answered: they are asked now.
    fn held(&self, alloc: Global, id: &[u8], now: u64) -> Result<Option<TraceHeld>, AllocError> {
        let Some(trace) = TraceId::from_bytes(id) else {
            // No span has such an id.
            return Ok(Some(TraceHeld::Unknown));
        };
        let questions = self.charge.board.questions();
        questions.ask(self.rt, alloc, trace, now)
    }
}

/// Puts the numbers of a ledger behind the others, where there is one.
fn put_counts(text: &mut String, counts: Option<LedgerCounts>) -> Result<(), AllocError>
    ensures { OnOk result (string_bytes text.new ≡ string_bytes text.old ++ ledger_part counts) }
{
    match counts {
        Some(counts) => put_ledger(text, &counts),
        None => Ok(()),
    }
}

impl<'c, R: Clock + Wait> Admin for InCharge<'c, R> {
    ghost use Rattle.std.specs.Prelude.{◌≡◌, None, false, is_some, string_bytes};
    ghost use Rattle.collector_serve.specs.Told.{IsToldAt};

    ghost is_closed = { λ a. is_some a.closed };

    ghost is_reopened = { λ a. a.is_reopened };

    ghost stops = { λ a said. said ≡ false → a.closed ≡ None };

    ghost tells = { λ a route text. IsToldAt route text };

    ghost texts = { λ a. record {
      config = string_bytes a.charge.now.configuration;
      page = a.charge.now.page;
      page_fields = a.charge.now.page_fields;
    } };

    fn close(&mut self) {
        self.closed = Some(self.charge.stop.set_shown(self.rt, Closer::Admin));
    }

    fn reopen(&mut self) {
        self.charge.reopen.ask();
        self.charge.reopen_decisions.ask();
        self.charge.reopen_record.ask();
        self.is_reopened = true;
    }

    fn is_stopping(&self) -> bool {
        self.closed.is_some() || self.charge.stop.is_set() || self.charge.board.is_down()
    }

    fn metrics(&self, alloc: Global) -> Result<String, AllocError> {
        let metrics = self.charge.metrics(self.rt, self.began);
        let policies = self.charge.board.decisions(alloc)?;
        let shards = self.charge.board.shards(alloc)?;
        let mut text = metrics_text(alloc, &metrics, &policies, &shards)?;
        put_counts(&mut text, self.charge.ledger_counts())?;
        Ok(text)
    }

    fn status(&self, alloc: Global) -> Result<String, AllocError> {
        let waiting = self.charge.board.waiting();
        let status = Status {
            now: WallClock::new(self.rt).now(),
            report: self.charge.board.report(),
            waiting,
            backlog: self.charge.backlog(self.rt, alloc, waiting)?,
        };
        let rows = self.charge.history.rows(alloc)?;
        let text = status_text(alloc, &status, &rows)?;
        Ok(text)
    }

    fn decisions(&self, alloc: Global) -> Result<String, AllocError> {
        let now = WallClock::new(self.rt).now();
        let listeners = self.charge.board.listeners();
        let news = listeners.look(self.rt, alloc, now, LAST)?;
        let text = decisions_text(alloc, now, REMEMBERED as u64, listeners.names(), &news)?;
        Ok(text)
    }

    fn trace(&self, alloc: Global, id: [u8; 16]) -> Result<String, AllocError> {
        let now = WallClock::new(self.rt).now();
        let listeners = self.charge.board.listeners();
        let news = listeners.look(self.rt, alloc, now, REMEMBERED)?;
        let held = self.held(alloc, &id, now)?;
        let text = trace_text(alloc, listeners.names(), &id, &news, held)?;
        Ok(text)
    }

    fn config(&self) -> &str {
        self.charge.configuration.as_str()
    }

    fn page(&self) -> &str {
        self.charge.page.as_str()
    }

    fn page_fields(&self) -> &str {
        self.charge.page_fields.as_str()
    }
}

/// Starts a thread that sets the mark to stop at the end of an input, or where a read of it fails. It ends with the
/// program.
pub fn close_at_end<I: Read + Send + Drop + 'static, R: Threads + Wait + Copy + Send + 'static>(
    rt: &R,
    input: I,
    charge: Arc<Charge, Global>,
) -> io::Result<()> {
    let own = *rt;
    let _runs_on = thread::spawn(rt, move || read_to_end(&own, input, &charge))?;
    Ok(())
}

/// Reads to the end, and then sets the mark.
fn read_to_end<I: Read + Drop, R: Wait>(rt: &R, input: I, charge: &Charge) {
    let mut input = input;
    let mut piece = [0; 4096];
    for _ in rt.forever() {
        // A read that fails is an end, too (D-174).
        match input.read(&mut piece) {
            Ok(n) if n > 0 => {}
            Err(error) if error.kind() == io::ErrorKind::Interrupted => {}
            _ => {
                charge.stop.set_by(Closer::Input);
                return;
            }
        }
    }
}
