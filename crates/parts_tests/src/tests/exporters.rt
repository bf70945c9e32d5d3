//! Batches of one and of two, and sinks that fail at each byte or take one byte a write.
ghost use Rattle.std.specs.Prelude.{◌<◌};

use super::sinks::TestWriter;
use otlp_flatten::flatten;
use otlp_json::decode;
use otlp_types::{Arrival, Record};
use released_spans::Shipment;
use span_exporter::{Exporter, Flushed, Pulled};
use span_ids::{ArrivalKey, ConnKey, Reason};
use span_sink::{LineSink, Sink, SinkFault, WriteSink};
use std::alloc::{AllocError, Global};
use std::test::Fail;

/// A sink that takes so many bytes, and then fails.
type FailingSink = WriteSink<TestWriter>;

/// Three spans of one scope.
fn three_spans() -> &'static str {
    r#"{"resourceSpans":[{"scopeSpans":[{"spans":[{"name":"a"},{"name":"b"},{"name":"c"}]}]}]}"#
}

/// The lines of the first two of them and of the third.
fn two_lines() -> &'static str {
    "{\"resourceSpans\":[{\"scopeSpans\":[{\"spans\":[{\"name\":\"a\"},{\"name\":\"b\"}]}]}]}\n{\"resourceSpans\":[{\"scopeSpans\":[{\"spans\":[{\"name\":\"c\"}]}]}]}\n"
}

/// The length of the first of them, with its line feed, in bytes.
const FIRST_LINE_LEN: usize = 75;

/// The line of the first and a part of the line of the second.
fn line_and_part() -> &'static str {
    "{\"resourceSpans\":[{\"scopeSpans\":[{\"spans\":[{\"name\":\"a\"}]}]}]}\n{\"resource"
}

fn arrivals(alloc: Global) -> Result<Vec<Record>, Fail> {
    let request = decode(alloc, false, three_spans().as_bytes())?;
    Ok(flatten(alloc, request)?)
}

/// An exporter of batches of this size over a sink that takes `room` bytes, at most `piece` of them in a write.
fn exporter_of(
    alloc: Global,
    size: usize,
    piece: usize,
    room: usize,
) -> Result<Exporter<LineSink<FailingSink>>, AllocError>
    requires { 0 < size }
{
    let sink = WriteSink::new(TestWriter {
        taken: Vec::with_capacity(alloc, 1000)?,
        interruptions: 0,
        piece,
        room,
        fails: true,
        calls: 0,
    });
    match Exporter::new(alloc, size, 1, Vec::new(alloc), LineSink::new(sink)) {
        Ok(exporter) => Ok(exporter),
        Err(_) => Err(AllocError),
    }
}

/// Pulls a span, and flushes a batch that it fills.
fn pulled(exporter: &mut Exporter<LineSink<FailingSink>>, rec: Record) -> Flushed {
    if exporter.is_full() {
        return Flushed::BatchDropped(0, Reason::Evicted);
    }
    let conn = ConnKey {
        lane: 0,
        ordinal: 0,
    };
    let arrival = Arrival {
        key: ArrivalKey { conn, number: 0 },
        moment: 0,
        rec,
    };
    match exporter.pull(Shipment::Span(arrival, None)) {
        Pulled::AddedFull => exporter.flush(),
        _ => Flushed::Empty,
    }
}

/// What was flushed after each of three spans and last; what a line that is no batch was answered before that and
/// whether a write had failed then; how many writes failed; and whether the sink took just what it must.
type Seen = ([Flushed; 4], Result<(), SinkFault>, bool, u64, bool);

/// Sends spans, then a line that is no batch unless it is empty, then what is left, to an exporter whose sink must take
/// just `held`.
fn sent(
    mut exporter: Exporter<LineSink<FailingSink>>,
    records: Vec<Record>,
    line: &[u8],
    held: &[u8],
) -> Seen {
    let mut flushes = [Flushed::Empty; 3];
    for rec in records {
        flushes = [flushes[1], flushes[2], pulled(&mut exporter, rec)];
    }
    let noted = if line.is_empty() {
        Ok(())
    } else {
        exporter.note(line)
    };
    let is_down = exporter.is_down();
    let last = exporter.flush();
    let lines = exporter.end();
    let sink = lines.end();
    let failures = sink.failures();
    let is_held = sink.end().taken.as_slice() == held;
    let flushes = [flushes[0], flushes[1], flushes[2], last];
    (flushes, noted, is_down, failures, is_held)
}

/// The same with three new spans and batches of this size, over a sink that takes so many bytes, at most `piece` of
/// them in a write. A batch given up for want of memory is an error.
fn exported(
    alloc: Global,
    size: usize,
    piece: usize,
    room: usize,
    line: &[u8],
    held: &[u8],
) -> Result<Seen, Fail>
    requires { 0 < size }
{
    let records = arrivals(alloc)?;
    let exporter = exporter_of(alloc, size, piece, room)?;
    let seen = sent(exporter, records, line, held);
    for flushed in &seen.0 {
        if matches!(flushed, Flushed::BatchDropped(_, Reason::NoMemory)) {
            return Err(Fail::from(AllocError));
        }
    }
    Ok(seen)
}

#[test]
fn sink_fails_within_a_line(rt: HostRuntime) -> Result<(), Fail> {
    let held = line_and_part();
    let seen = exported(
        rt.alloc(),
        1,
        1000,
        held.len(),
        b"a line\n",
        held.as_bytes(),
    )?;
    let down = Flushed::BatchDropped(1, Reason::ExporterDown);
    let flushes = [Flushed::Handed(1), down, down, Flushed::Empty];
    assert_eq!(rt; seen, (flushes, Err(SinkFault::Down), true, 1, true));
    Ok(())
}

/// What a flush of `n` spans answers, where a write has failed and where none has.
fn answer(n: u64, failed: bool) -> Flushed {
    if failed {
        Flushed::BatchDropped(n, Reason::ExporterDown)
    } else {
        Flushed::Handed(n)
    }
}

/// Whether batches of two meet a sink of this kind as they must: it holds `room` bytes of the two lines, and the batch
/// whose line is cut short and those after it are given up.
fn two_batches(alloc: Global, piece: usize, room: usize) -> Result<bool, Fail> {
    let whole = two_lines().as_bytes();
    let held = room.min(whole.len());
    let seen = exported(alloc, 2, piece, room, b"", &whole[..held])?;
    let first_failed = held < FIRST_LINE_LEN;
    let failed = held < whole.len();
    let first = answer(2, first_failed);
    let flushes = [Flushed::Empty, first, Flushed::Empty, answer(1, failed)];
    Ok(seen == (flushes, Ok(()), first_failed, failed as u64, true))
}

#[test]
fn batches_of_two(rt: HostRuntime) -> Result<(), Fail> {
    assert!(rt; two_batches(rt.alloc(), 1000, 1000)?);
    Ok(())
}

#[test]
fn one_byte_writes(rt: HostRuntime) -> Result<(), Fail> {
    assert!(rt; two_batches(rt.alloc(), 1, 1000)?);
    Ok(())
}

/// The least room with which a sink that takes seven bytes a write isn't met as it must be.
fn first_wrong(alloc: Global) -> Result<Option<usize>, Fail> {
    for room in 0..two_lines().len() {
        if !two_batches(alloc, 7, room)? {
            return Ok(Some(room));
        }
    }
    Ok(None)
}

#[test]
fn fails_after_each_byte(rt: HostRuntime) -> Result<(), Fail> {
    assert_eq!(rt; first_wrong(rt.alloc())?, None);
    Ok(())
}
