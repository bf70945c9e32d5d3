//! The thread that looks at a run, and says what begins, what is over, and what went wrong.
use crate::charge::Charge;
use crate::event_writer::EventWriter;
use crate::ledger_events::LedgerKnown;
use crate::said_once::SaidOnce;
use crate::steady_clock::SteadyClock;
use crate::wall_clock::WallClock;
use collector_board::{Closer, DecisionQueue, RecordQueue};
use drop_ledger::Count;
use event_log::{
    AwayTurn, FieldValue, Level, LogField, Spell, SpellTurn, away_after, jump_of, spell_after,
};
use http_lane::Clock as Moments;
use span_ids::Reason;
use std::alloc::Global;
use std::io::Write;
use std::sync::{Arc, Wait};
use std::thread::Threads;
use std::time::{Clock, Duration};
use std::{io, thread};

/// The time between two looks, in milliseconds.
const PAUSE: u64 = 500;

/// What may begin and be over again: what is said at its beginning, at its end, and of what it tells the number.
const COMINGS: [(&str, &str, &str); 9] = [
    ("queue_full", "queue_has_room", "spans"),
    ("memory_refused", "memory_given", "spans"),
    ("traces_evicted", "no_trace_evicted", "spans"),
    ("requests_refused", "requests_taken", "answers_503"),
    ("idlest_closed", "no_idlest_closed", "connections"),
    ("files_run_out", "files_suffice", "times"),
    ("spans_given_up", "no_span_given_up", "spans"),
    ("decisions_lost", "no_decision_lost", "lines"),
    ("record_lost", "no_record_lost", "lines"),
];

/// What was known at the last look.
#[derive(Clone, Copy)]
struct Known {
    numbers: [u64; 9],
    spells: [Spell; 9],
    taken: u64,
    unanswered: u64,
    away_since: Option<u64>,
    /// Since when the output fails, and when that was seen.
    failing: Option<(u64, u64)>,
    closing: SaidOnce,
    down: SaidOnce,
}

impl Known {
    /// Nothing has happened.
    fn new() -> Self {
        Known {
            numbers: [0; 9],
            spells: [Spell::new(); 9],
            taken: 0,
            unanswered: 0,
            away_since: None,
            failing: None,
            closing: SaidOnce::new(),
            down: SaidOnce::new(),
        }
    }
}

/// Starts a thread that looks twice a second at what a collector shares, and says what happened. It ends with the
/// program.
pub fn start_log_watch<
    W: Write + Send + Drop + 'static,
    R: Threads + Wait + Clock + Copy + Send + 'static,
>(rt: &R, alloc: Global, events: EventWriter<W>, charge: Arc<Charge, Global>) -> io::Result<()> {
    // A thread of its own, so that none of the run waits for standard error (D-185).
    let own = *rt;
    let _runs_on = thread::spawn(rt, move || watch(&own, alloc, events, &charge))?;
    Ok(())
}

/// Looks again and again.
fn watch<W: Write + Drop, R: Wait + Clock>(
    rt: &R,
    alloc: Global,
    events: EventWriter<W>,
    charge: &Charge,
) {
    let mut events = events;
    let mut known = Known::new();
    let mut of_ledger = LedgerKnown::new();
    let mut steady = SteadyClock::new(rt);
    for _ in rt.forever() {
        thread::sleep(rt, Duration::from_millis(PAUSE));
        let now = steady.now();
        let wall = WallClock::new(rt).now();
        if let Some(apart) = jump_of(wall, now) {
            charge.board.jumps();
            say_jump(rt, alloc, &mut events, charge, apart, wall);
            // From the clock as it is now, so that one jump is told once.
            steady = SteadyClock::new(rt);
        }
        charge.history.looks(wall, charge.board.report());
        charge.board.listeners().passes(wall);
        charge.board.questions().passes(wall);
        look_at_numbers(rt, alloc, &mut events, charge, &mut known, now);
        look_at_backend(rt, alloc, &mut events, charge, &mut known, now);
        look_at_output(rt, alloc, &mut events, charge, &mut known, now);
        if let Some(event) = of_ledger.look(charge) {
            let (level, name) = (event.level, event.name);
            say(rt, alloc, &mut events, charge, level, name, event.fields());
        }
        look_at_end(rt, alloc, &mut events, charge, &mut known);
    }
}

/// Says an event, and counts the line where there is one.
fn say<W: Write + Drop, R: Clock>(
    rt: &R,
    alloc: Global,
    events: &mut EventWriter<W>,
    charge: &Charge,
    level: Level,
    event: &str,
    fields: &[LogField<'_>],
) {
    if events.say(rt, alloc, level, event, fields) {
        charge.board.logs(level);
    }
}

/// Says that the wall clock was set.
fn say_jump<W: Write + Drop, R: Clock>(
    rt: &R,
    alloc: Global,
    events: &mut EventWriter<W>,
    charge: &Charge,
    apart: u64,
    wall: u64,
) {
    let fields = [number("by_ms", apart), number("clock_ms", wall)];
    say(
        rt,
        alloc,
        events,
        charge,
        Level::Warning,
        "clock_jumped",
        &fields,
    );
}

fn number(name: &'static str, number: u64) -> LogField<'static> {
    LogField {
        name,
        value: FieldValue::Number(number),
    }
}

/// The numbers that are looked at: spans that found a queue full, spans without memory, spans of evicted traces, answers
/// 503, connections that were closed as the idlest, how often files had run out, spans that were given up, lines of
/// decisions and lines of the record that were lost.
fn numbers_of(charge: &Charge) -> [u64; 9] {
    let report = charge.board.report();
    let traffic = &charge.loads.traffic;
    [
        report.number(Count::Dropped(Reason::QueueFull)),
        report.number(Count::Dropped(Reason::NoMemory)),
        report.number(Count::Dropped(Reason::Evicted)),
        traffic.answers.answered(503),
        traffic.closed_idle(),
        traffic.lacked_file(),
        report.number(Count::Dropped(Reason::ExporterDown)),
        charge.board.decision_queue().map_or(0, DecisionQueue::lost),
        charge.board.record_queue().map_or(0, RecordQueue::lost),
    ]
}

/// Says of which numbers the growth begins, and of which it is over.
fn look_at_numbers<W: Write + Drop, R: Clock>(
    rt: &R,
    alloc: Global,
    events: &mut EventWriter<W>,
    charge: &Charge,
    known: &mut Known,
    now: u64,
) {
    // What began and was over between two looks is told by the numbers alone (D-185).
    let numbers = numbers_of(charge);
    for at in 0..9 {
        let grows = known.numbers[at] < numbers[at];
        known.numbers[at] = numbers[at];
        let (spell, turn) = spell_after(known.spells[at], grows, now);
        known.spells[at] = spell;
        let (begins, ends, name) = COMINGS[at];
        let fields = [number(name, numbers[at])];
        match turn {
            Some(SpellTurn::Begins) => say(
                rt,
                alloc,
                events,
                charge,
                Level::Warning,
                begins,
                &fields,
            ),
            Some(SpellTurn::Ends) => say(rt, alloc, events, charge, Level::Info, ends, &fields),
            None => {}
        }
    }
}

/// Says that the backend doesn't answer, and that it takes again.
fn look_at_backend<W: Write + Drop, R: Clock>(
    rt: &R,
    alloc: Global,
    events: &mut EventWriter<W>,
    charge: &Charge,
    known: &mut Known,
    now: u64,
) {
    let (taken, _, unanswered) = charge.board.attempted();
    let takes = known.taken < taken;
    let fails = known.unanswered < unanswered;
    known.taken = taken;
    known.unanswered = unanswered;
    let (away_since, turn) = away_after(known.away_since, takes, fails, now);
    known.away_since = away_since;
    match turn {
        Some(AwayTurn::Away) => {
            let fields = [number("unanswered", unanswered)];
            say(
                rt,
                alloc,
                events,
                charge,
                Level::Warning,
                "backend_away",
                &fields,
            );
        }
        Some(AwayTurn::Back(passed)) => {
            let fields = [number("away_ms", passed)];
            say(
                rt,
                alloc,
                events,
                charge,
                Level::Info,
                "backend_back",
                &fields,
            );
        }
        None => {}
    }
}

/// Says that the output fails and is tried again, and that it takes writes again.
fn look_at_output<W: Write + Drop, R: Clock>(
    rt: &R,
    alloc: Global,
    events: &mut EventWriter<W>,
    charge: &Charge,
    known: &mut Known,
    now: u64,
) {
    let failing = charge.board.output_failing();
    let since = failing.map(|(since, _)| since);
    if since == known.failing.map(|(since, _)| since) {
        return;
    }
    if let Some((_, seen)) = known.failing {
        let fields = [
            text("what", charge.output.as_str()),
            number("failing_ms", now.saturating_sub(seen)),
        ];
        say(
            rt,
            alloc,
            events,
            charge,
            Level::Info,
            "output_back",
            &fields,
        );
    }
    if let Some((_, code)) = failing {
        let cause = cause_of(alloc, code);
        let what = charge.output.as_str();
        say_failing(rt, alloc, events, charge, what, cause.as_str());
    }
    known.failing = since.map(|since| (since, now));
}

/// Says which output fails (its path; nothing: the standard output), and why.
fn say_failing<'v, W: Write + Drop, R: Clock>(
    rt: &R,
    alloc: Global,
    events: &mut EventWriter<W>,
    charge: &Charge,
    what: &'v str,
    cause: &'v str,
) {
    let fields = [text("what", what), text("cause", cause)];
    say(
        rt,
        alloc,
        events,
        charge,
        Level::Error,
        "output_failing",
        &fields,
    );
}

fn text<'v>(name: &'static str, text: &'v str) -> LogField<'v> {
    LogField {
        name,
        value: FieldValue::Text(text),
    }
}

/// The text of the system's error of this number, and of a write that took nothing.
fn cause_of(alloc: Global, code: u64) -> String {
    let error = match i32::try_from(code) {
        Ok(code) if 0 < code => io::Error::from_raw_os_error(code),
        _ => io::Error::from(io::ErrorKind::WriteZero),
    };
    match format!(in alloc; "{error}") {
        Ok(cause) => cause,
        Err(_) => String::new(alloc),
    }
}

/// Says that the output failed, and that the collector is closing.
fn look_at_end<W: Write + Drop, R: Clock>(
    rt: &R,
    alloc: Global,
    events: &mut EventWriter<W>,
    charge: &Charge,
    known: &mut Known,
) {
    if known.down.says(charge.board.is_down()) {
        say(
            rt,
            alloc,
            events,
            charge,
            Level::Error,
            "output_failed",
            &[],
        );
    }
    let Some(closer) = charge.stop.closer() else {
        return;
    };
    if known.closing.says(true) {
        say_closing(rt, alloc, events, charge, closer);
    }
}

/// Says who asked, and how many spans wait.
fn say_closing<W: Write + Drop, R: Clock>(
    rt: &R,
    alloc: Global,
    events: &mut EventWriter<W>,
    charge: &Charge,
    closer: Closer,
) {
    let by = text("by", closer.name());
    let fields = [by, number("spans_waiting", charge.board.waiting())];
    say(rt, alloc, events, charge, Level::Info, "closing", &fields);
}
