//! One lane: a reader that fails, a sink that does, a run that is stopped before it begins, and one that may be short
//! of memory, each of whose allocations `tests/refused_memory/refused.py` refuses in turn.
use crate::memory::{Held, MemoryAcceptor};
use crate::overlap::{A, Came, Course, request, run_acceptors};
use drop_ledger::{Count, Report};
use pipeline::{Machine, ServeFault};
use span_ids::Reason;
use std::alloc::Global;
use std::test::Fail;
use thread_watch::Unwatched;

/// One lane and one shard that keep everything.
const ALL: &str = "policies = [{ name = \"all\", type = \"always_sample\" }]\n";

/// How often a span's id stands in the lines.
fn spans_in(lines: &[u8]) -> u64 {
    let mut count: u64 = 0;
    for window in lines.windows(8) {
        if window == b"\"spanId\"".as_slice() {
            count = count.wrapping_add(1);
        }
    }
    count
}

/// What a run comes to of one lane with these connections, the last one first.
fn run_one<R: Machine>(
    rt: &R,
    alloc: Global,
    connections: Vec<Held>,
    course: Course,
) -> Result<Came, Fail> {
    let mut acceptors = Vec::new(alloc);
    acceptors.push(MemoryAcceptor { alloc, connections })?;
    run_acceptors(rt, alloc, ALL, acceptors, &Unwatched, course)
}

/// A run whose stop mark isn't set before it begins, and whose sink is whole.
const PLAIN: Course = Course {
    is_stopped: false,
    is_broken: false,
};

/// A reader that fails in a body ends its own connection alone: the next one is served.
#[test]
fn reader_fails_in_a_body(rt: HostRuntime) -> Result<(), Fail> {
    let alloc = rt.alloc();
    let mut cut = request(alloc, A, 1)?;
    let _ = cut.pop();
    let served = Held::whole(request(alloc, A, 1)?);
    let connections = Vec::from_array(alloc, [served, Held::broken(cut)])?;
    let (sink, answer, _) = run_one(&rt, alloc, connections, PLAIN)?;
    let Ok(report) = answer else {
        return Err(Fail::from("a fault"));
    };
    assert_eq!(rt; report.numbers(), [1, 1, 0, 0, 0, 0, 0, 0, 0]);
    assert_eq!(rt; spans_in(&sink.taken), 1);
    Ok(())
}

/// With the stop mark set beforehand a request is refused: nothing is received, and nothing comes out.
#[test]
fn stopped_before_it_begins(rt: HostRuntime) -> Result<(), Fail> {
    let alloc = rt.alloc();
    let course = Course {
        is_stopped: true,
        is_broken: false,
    };
    let connections = Vec::from_array(alloc, [Held::whole(request(alloc, A, 1)?)])?;
    let (sink, answer, _) = run_one(&rt, alloc, connections, course)?;
    let Ok(report) = answer else {
        return Err(Fail::from("a fault"));
    };
    assert_eq!(rt; report.numbers(), [0, 0, 0, 0, 0, 0, 0, 0, 0]);
    assert!(rt; sink.taken.is_empty());
    Ok(())
}

/// A sink whose first write fails has nothing, and each span is counted for it.
#[test]
fn sink_fails_at_its_first_write(rt: HostRuntime) -> Result<(), Fail> {
    let alloc = rt.alloc();
    let course = Course {
        is_stopped: false,
        is_broken: true,
    };
    let connections = Vec::from_array(alloc, [Held::whole(request(alloc, A, 3)?)])?;
    let (sink, answer, _) = run_one(&rt, alloc, connections, course)?;
    let mut report = Report::new();
    let received = report.add(Count::Received, 3);
    let down = report.add(Count::Dropped(Reason::ExporterDown), 3);
    assert!(rt; received.is_ok() && down.is_ok());
    assert!(rt; answer == Err(ServeFault::SinkDown(report)));
    assert!(rt; sink.taken.is_empty());
    Ok(())
}

/// The same request twice on one connection: where one was refused its memory, the other is served as ever.
#[test]
fn busy_then_done(rt: HostRuntime) -> Result<(), Fail> {
    let alloc = rt.alloc();
    let mut bytes = request(alloc, A, 1)?;
    bytes.extend_from_slice(&request(alloc, A, 1)?)?;
    let (sink, answer, back) = run_one(
        &rt,
        alloc,
        Vec::from_array(alloc, [Held::whole(bytes)])?,
        PLAIN,
    )?;
    match answer {
        Ok(report) => {
            let [
                received,
                handed,
                invalid,
                full,
                refused,
                evicted,
                sampled,
                late,
                down,
            ] = report.numbers();
            assert!(rt; received <= 2 && handed <= 2 && refused <= 2);
            assert_eq!(rt; handed + refused, received);
            assert_eq!(rt;
                [invalid, full, evicted, sampled, late, down],
                [0, 0, 0, 0, 0, 0]
            );
            assert_eq!(rt; spans_in(&sink.taken), handed);
        }
        Err(ServeFault::NoMemory) => assert!(rt; sink.taken.is_empty() && back.is_some()),
        Err(_) => return Err(Fail::from("a fault")),
    }
    Ok(())
}
