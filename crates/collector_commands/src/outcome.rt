//! How the program ends, what it says then, and its exit status.
ghost use Rattle.std.specs.Prelude.{◌≡◌, ◌+◌, ◌≤◌, ◌<◌, ◌++◌, false, vec_capacity, vec_len, length, decimal, codes};
ghost use Rattle.collector_commands.specs.Outcomes.{exit_status};
ghost use Rattle.collector_commands.specs.Texts.{WritesText, HandsText, Finishes, text_of, name_of, report_text};
ghost use Rattle.collector_commands.specs.Validating.{fault_number};
ghost use Rattle.collector_commands.specs.declared.outcome.Outcome.TheVariants.{NoMemory};

use crate::asking::{HELP, VERSION};
use config_faults::ConfigFault;
use drop_ledger::{Count, Report};
use itoa::Buffer;
use otlp_reply::put;
use span_ids::Reason;
use span_sink::{LineSink, Sink, WriteSink};
use std::io::Write;

/// Room for a line of the report or of a refusal, in bytes.
pub const TEXT_ROOM: usize = 128;

/// How the program ended.
#[derive(Drop)]
pub enum Outcome {
    /// The script was run to its end, or the collector was closed.
    Done(Report),
    /// A write failed.
    SinkDown,
    /// The arguments are wrong.
    Usage,
    /// The configuration's file can't be read, isn't UTF-8 or is too long.
    Unreadable,
    /// The configuration is refused.
    Configuration(ConfigFault),
    /// A line of the script is refused, or can't be read.
    Script(u64),
    /// There was no memory at the start, or, to serve, no random source, or nothing that tells how much memory the
    /// process takes where that is limited.
    NoMemory,
    /// A count would have passed 2^64-1.
    CounterOverflow,
    /// The address can't be listened at, or too many files are open for a lane to watch its connections.
    CannotListen,
    /// The output's file can't be opened.
    CannotWrite,
    /// The configuration has no fault.
    Valid,
    /// The configuration has the faults that these lines tell.
    Faulty(String),
    /// A running collector answered that it closes.
    Closed,
    /// It didn't, or there is none.
    CannotClose,
    /// What was to be shown: the line of a request, or a comparison.
    Shown(Vec<u8>),
    /// It is none, or wasn't read: this line, on standard error, says why.
    NotShown(String),
    /// It was told what can be asked for.
    Help,
    /// The version was told.
    Version,
}

/// Writes that there is no memory, and gives the writer back.
pub fn without_memory<W: Write>(writer: W) -> W
    ensures { Finishes (W.contents writer) NoMemory (W.contents result) 5 }
{
    let mut lines = LineSink::new(WriteSink::new(writer));
    let _ = hand_line(&mut lines, b"tsc: no memory\n");
    lines.end().end()
}

/// Writes the last text, and gives the writer back beside the exit status.
pub fn finish<W: Write>(writer: W, text: &mut Vec<u8>, outcome: Outcome) -> (W, u8)
    requires { TEXT_ROOM ≤ vec_capacity text.old }
    ensures { Finishes (W.contents writer) outcome (W.contents result.0) result.1 }
{
    let (writer, written) = say_last(writer, text, &outcome);
    (writer, exit_status(&outcome, written))
}

/// Writes the last text, and gives the writer back beside whether the text was taken whole.
fn say_last<W: Write>(writer: W, text: &mut Vec<u8>, outcome: &Outcome) -> (W, bool)
    requires { TEXT_ROOM ≤ vec_capacity text.old }
    ensures { WritesText (W.contents writer) (text_of outcome.now) result.1 (W.contents result.0) }
{
    let mut lines = LineSink::new(WriteSink::new(writer));
    let written = say(&mut lines, text, outcome);
    let sink = lines.end();
    (sink.end(), written)
}

/// The exit status. A fault in writing the last text counts only where all else was done.
fn exit_status(outcome: &Outcome, written: bool) -> u8
    ensures { result ≡ exit_status outcome.now written }
{
    match outcome {
        Outcome::Done(_) => { if written { 0 } else { 1 } }
        Outcome::SinkDown => 1,
        Outcome::Usage => 2,
        Outcome::Unreadable => 3,
        Outcome::Configuration(_) => 3,
        Outcome::Script(_) => 4,
        Outcome::NoMemory => 5,
        Outcome::CounterOverflow => 7,
        Outcome::CannotListen => 6,
        Outcome::CannotWrite => 1,
        Outcome::Faulty(_) => 3,
        Outcome::Closed => 0,
        Outcome::NotShown(_) => 4,
        Outcome::CannotClose => 6,
        Outcome::Valid | Outcome::Shown(_) | Outcome::Help | Outcome::Version => {
            if written { 0 } else { 1 }
        }
    }
}

/// Writes the last text, and answers whether it was taken whole. Once a write of the run failed nothing more is
/// written.
fn say<S: Sink>(lines: &mut LineSink<S>, text: &mut Vec<u8>, outcome: &Outcome) -> bool
    requires room { TEXT_ROOM ≤ vec_capacity text.old }
    requires up { lines.old.is_down ≡ false }
    ensures { HandsText lines.old (text_of outcome.now) result lines.new }
{
    match outcome {
        Outcome::Done(report) => say_report(lines, text, report),
        Outcome::SinkDown => true,
        // The line names these two alone; `tsc help` has them all (D-242).
        Outcome::Usage => {
            hand_line(
                lines,
                b"tsc: usage: tsc replay CONFIG or tsc serve CONFIG\n",
            )
        }
        Outcome::Unreadable => { hand_line(lines, b"tsc: configuration refused: unreadable\n") }
        Outcome::Configuration(fault) => say_fault(lines, text, *fault),
        Outcome::Script(line) => {
            text.clear();
            put(text, b"tsc: script refused: line ");
            put_number(text, *line);
            hand_line(lines, text)
        }
        Outcome::NoMemory => hand_line(lines, b"tsc: no memory\n"),
        Outcome::CounterOverflow => hand_line(lines, b"tsc: book full\n"),
        Outcome::CannotListen => hand_line(lines, b"tsc: cannot listen\n"),
        Outcome::CannotWrite => hand_line(lines, b"tsc: cannot write\n"),
        Outcome::Valid => hand_line(lines, b"ok\n"),
        Outcome::Faulty(told) => say_told(lines, told.as_str()),
        Outcome::Closed => true,
        Outcome::CannotClose => hand_line(lines, b"tsc: cannot close\n"),
        Outcome::Shown(line) => say_line(lines, line),
        Outcome::NotShown(_) => true,
        Outcome::Help => hand_line(lines, HELP),
        Outcome::Version => {
            text.clear();
            put(text, b"tsc ");
            put(text, VERSION.as_bytes());
            put(text, b"\n");
            hand_line(lines, text)
        }
    }
}

/// Writes a line, unless it is empty.
fn say_line<S: Sink>(lines: &mut LineSink<S>, line: &[u8]) -> bool
    requires { lines.old.is_down ≡ false }
    ensures { HandsText lines.old line.now result lines.new }
{
    line.is_empty() || hand_line(lines, line)
}

/// Writes lines, if there are some.
fn say_told<S: Sink>(lines: &mut LineSink<S>, told: &str) -> bool
    requires { lines.old.is_down ≡ false }
    ensures { HandsText lines.old told.now result lines.new }
{
    told.is_empty() || hand_line(lines, told.as_bytes())
}

/// Writes a fault of the configuration by its number, and a fault of its policies as `7.P`.
fn say_fault<S: Sink>(lines: &mut LineSink<S>, text: &mut Vec<u8>, fault: ConfigFault) -> bool
    requires { TEXT_ROOM ≤ vec_capacity text.old }
    ensures { HandsText lines.old (codes "tsc: configuration refused: " ++ fault_number fault ++ codes "\n") result lines.new }
{
    text.clear();
    put(text, b"tsc: configuration refused: ");
    match fault {
        ConfigFault::Policy(policy) => {
            put(text, b"7.");
            put_number(text, u64::from(policy.number()));
        }
        _ => put_number(text, u64::from(fault.number())),
    }
    hand_line(lines, text)
}

/// Writes the nine counts, a line each.
fn say_report<S: Sink>(lines: &mut LineSink<S>, text: &mut Vec<u8>, report: &Report) -> bool
    requires room { TEXT_ROOM ≤ vec_capacity text.old }
    requires up { lines.old.is_down ≡ false }
    ensures { HandsText lines.old (report_text report.now) result lines.new }
{
    let counts = Count::ALL;
    let mut written = true;
    for what in counts {
        written = say_count(lines, text, what, report.number(what)) && written;
    }
    written
}

/// Writes a count behind its name.
fn say_count<S: Sink>(lines: &mut LineSink<S>, text: &mut Vec<u8>, what: Count, number: u64) -> bool
    requires { TEXT_ROOM ≤ vec_capacity text.old }
    ensures room { TEXT_ROOM ≤ vec_capacity text.new }
    ensures hands { HandsText lines.old (name_of what ++ decimal number ++ codes "\n") result lines.new }
{
    text.clear();
    put(text, name_of(what));
    put_number(text, number);
    hand_line(lines, text)
}

/// The name of a count, and a space.
fn name_of(what: Count) -> &'static [u8]
    ensures name { result.now ≡ name_of what }
    ensures short { length result.now ≤ 10 }
{
    match what {
        Count::Received => b"received ",
        Count::Handed => b"handed ",
        Count::Dropped(Reason::InvalidId) => b"dropped 1 ",
        Count::Dropped(Reason::QueueFull) => b"dropped 2 ",
        Count::Dropped(Reason::NoMemory) => b"dropped 3 ",
        Count::Dropped(Reason::Evicted) => b"dropped 4 ",
        Count::Dropped(Reason::NotSampled) => b"dropped 5 ",
        Count::Dropped(Reason::LateNotSampled) => b"dropped 6 ",
        Count::Dropped(Reason::ExporterDown) => b"dropped 7 ",
    }
}

/// Hands over a line, and answers whether it was taken whole.
fn hand_line<S: Sink>(lines: &mut LineSink<S>, line: &[u8]) -> bool
    requires { 0 < length line.now }
    ensures { HandsText lines.old line.now result lines.new }
{
    lines.hand(line).is_ok()
}

/// Appends a number and a line feed.
fn put_number(text: &mut Vec<u8>, number: u64)
    requires { vec_len text.old + 41 ≤ vec_capacity text.old }
    ensures line { text.new.items ≡ text.old.items ++ decimal number ++ codes "\n" }
    ensures capacity { vec_capacity text.old ≤ vec_capacity text.new }
{
    let mut digits = Buffer::new();
    put(text, digits.format(number).as_bytes());
    put(text, b"\n");
}
