//! What the program says of a run on standard error.
use crate::changed_settings::changed_settings;
use crate::report_fields::fields_of;
use collector_board::{DecisionQueue, RecordQueue};
use collector_commands::{Outcome, VERSION};
use collector_serve::{Charge, EventWriter};
use drop_ledger::{Count, Report};
use event_log::{FieldValue, Level, LogField};
use span_ids::Reason;
use std::alloc::Global;
use std::io;
use std::io::Write;
use std::time::Clock;
use tsc_config::{Config, LogForm};

/// A text under a name.
fn text<'v>(name: &'static str, text: &'v str) -> LogField<'v> {
    LogField {
        name,
        value: FieldValue::Text(text),
    }
}

/// A number under a name.
fn number(name: &'static str, number: u64) -> LogField<'static> {
    LogField {
        name,
        value: FieldValue::Number(number),
    }
}

/// Says what the collector is that begins, and by which file.
pub fn say_start<W: Write + Drop, R: Clock>(
    rt: &R,
    alloc: Global,
    events: &mut EventWriter<W>,
    path: &str,
    config: &Config,
) {
    let fields = [
        text("version", VERSION),
        text("configuration", path),
        text("listen", config.listen.as_str()),
        text("admin", config.admin.as_str()),
        text("export", config.export.endpoint.as_str()),
        number("lanes", config.lanes as u64),
        number("shards", config.shards as u64),
        number("decision_wait_ms", config.decision_wait),
        number("max_request_mib", config.max_request_mib),
        number("memory_limit_mib", config.memory_limit_mib),
    ];
    events.say(rt, alloc, Level::Info, "starting", &fields);
}

/// Says which settings of a run aren't those that count where a configuration doesn't name them.
pub fn say_settings<W: Write + Drop, R: Clock>(
    rt: &R,
    alloc: Global,
    events: &mut EventWriter<W>,
    charge: &Charge,
) {
    if let Ok(names) = changed_settings(alloc, charge.configuration.as_str()) {
        let fields = [text("not_default", names.as_str())];
        events.say(rt, alloc, Level::Info, "settings", &fields);
    }
}

/// Says that requests are taken.
pub fn say_listening<W: Write + Drop, R: Clock>(
    rt: &R,
    alloc: Global,
    events: &mut EventWriter<W>,
    address: &str,
) {
    events.say(
        rt,
        alloc,
        Level::Info,
        "listening",
        &[text("address", address)],
    );
}

/// Says what can't be opened, and the system's error.
pub fn say_fault<W: Write + Drop, R: Clock>(
    rt: &R,
    alloc: Global,
    events: &mut EventWriter<W>,
    event: &str,
    what: &str,
    error: io::Error,
) {
    let cause = match format!(in alloc; "{error}") {
        Ok(cause) => cause,
        Err(_) => String::new(alloc),
    };
    say_cause(rt, alloc, events, event, what, cause.as_str());
}

/// Says what failed, and why.
fn say_cause<'v, W: Write + Drop, R: Clock>(
    rt: &R,
    alloc: Global,
    events: &mut EventWriter<W>,
    event: &str,
    what: &'v str,
    cause: &'v str,
) {
    let fields = [text("what", what), text("cause", cause)];
    events.say(rt, alloc, Level::Error, event, &fields);
}

/// Says that there was no memory, or no random source, at the start.
pub fn say_no_memory<W: Write + Drop, R: Clock>(
    rt: &R,
    alloc: Global,
    events: &mut EventWriter<W>,
) {
    events.say(rt, alloc, Level::Error, "no_memory", &[]);
}

/// Says why a configuration was refused: as text, since the form of the log stands in it.
pub fn say_refused<W: Write + Drop, R: Clock>(
    rt: &R,
    alloc: Global,
    errors: W,
    path: &str,
    outcome: &Outcome,
) {
    // Its form isn't known: it stands in the configuration that was refused (D-185).
    let mut events = EventWriter::new(errors, LogForm::Text);
    let fault = match outcome {
        Outcome::Configuration(fault) => number("fault", fault.number() as u64),
        Outcome::NoMemory => text("fault", "no memory"),
        _ => text("fault", "unreadable"),
    };
    let fields = [text("configuration", path), fault];
    events.say(rt, alloc, Level::Error, "configuration_refused", &fields);
}

/// Says how a run ended, and its report.
pub fn say_end<W: Write + Drop, R: Clock>(
    rt: &R,
    alloc: Global,
    events: &mut EventWriter<W>,
    charge: &Charge,
    outcome: &Outcome,
) {
    match outcome {
        Outcome::Done(report) => say_report(rt, alloc, events, charge, report),
        Outcome::SinkDown => {
            let report = charge.board.report();
            let lost = report.number(Count::Dropped(Reason::ExporterDown));
            let fields = [number("exporter_down", lost)];
            events.say(rt, alloc, Level::Error, "output_failed", &fields);
        }
        Outcome::CounterOverflow => {
            events.say(rt, alloc, Level::Error, "counter_overflow", &[]);
        }
        Outcome::NoMemory => say_no_memory(rt, alloc, events),
        Outcome::CannotListen => {
            events.say(rt, alloc, Level::Error, "too_many_files", &[]);
        }
        _ => {}
    }
}

/// Says how many lines of decisions and of the record are never written, where some aren't.
pub fn say_lost<W: Write + Drop, R: Clock>(
    rt: &R,
    alloc: Global,
    events: &mut EventWriter<W>,
    charge: &Charge,
) {
    let decisions = charge.board.decision_queue().map_or(0, DecisionQueue::lost);
    if decisions > 0 {
        let fields = [number("lines", decisions)];
        events.say(rt, alloc, Level::Error, "decisions_not_written", &fields);
    }
    let record = charge.board.record_queue().map_or(0, RecordQueue::lost);
    if record > 0 {
        let fields = [number("lines", record)];
        events.say(rt, alloc, Level::Error, "record_not_written", &fields);
    }
}

/// Says that a run is closed, who asked for it, and what became of each span.
fn say_report<W: Write + Drop, R: Clock>(
    rt: &R,
    alloc: Global,
    events: &mut EventWriter<W>,
    charge: &Charge,
    report: &Report,
) {
    let by = match charge.stop.closer() {
        Some(closer) => closer.name(),
        None => "nobody",
    };
    let fields = fields_of(by, report);
    events.say(rt, alloc, Level::Info, "closed", &fields);
}
