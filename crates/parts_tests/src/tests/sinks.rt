//! Writers that are interrupted, write little, or fail.
ghost use Rattle.std.specs.Prelude.{Some};

use span_sink::{LineSink, Sink, SinkFault, WriteSink};
use std::alloc::Global;
use std::io;
use std::io::{ErrorKind, Write};

/// A writer that is first interrupted some times, then takes some bytes in pieces, and then fails or takes nothing.
#[derive(Drop)]
pub struct TestWriter {
    pub taken: Vec<u8>,
    pub interruptions: u32,
    pub piece: usize,
    pub room: usize,
    pub fails: bool,
    pub calls: u32,
}

impl Write for TestWriter {
    ghost contents = { λ w. Some w.taken.items };

    fn write(&mut self, bytes: &[u8]) -> io::Result<usize> {
        self.calls = self.calls.saturating_add(1);
        if self.interruptions > 0 {
            self.interruptions -= 1;
            return Err(io::Error::from(ErrorKind::Interrupted));
        }
        let count = bytes.len().min(self.piece).min(self.room);
        if count == 0 && self.fails {
            return Err(io::Error::from(ErrorKind::BrokenPipe));
        }
        self.taken.extend_from_slice(&bytes[..count])?;
        self.room -= count;
        Ok(count)
    }

    fn flush(&mut self) -> io::Result<()> {
        Ok(())
    }
}

/// What one write comes to, how many writes failed, and how often the writer was called.
type Written = (Result<usize, SinkFault>, u64, u32);

/// Writes four bytes to a writer that is interrupted so many times and then takes at most so many of them.
fn written(alloc: Global, interruptions: u32, room: usize, fails: bool) -> Written {
    let mut sink = WriteSink::new(TestWriter {
        taken: Vec::new(alloc),
        interruptions,
        piece: room,
        room,
        fails,
        calls: 0,
    });
    let result = sink.write(b"abcd");
    let failures = sink.failures();
    (result, failures, sink.end().calls)
}

#[test]
fn interrupted_writes_are_tried_again(rt: HostRuntime) {
    let alloc = rt.alloc();
    let cases = [
        written(alloc, 0, 3, true),
        written(alloc, 16, 3, true),
        written(alloc, 17, 3, true),
    ];
    let failed = Err(SinkFault::Failed);
    assert_eq!(rt; cases, [(Ok(3), 0, 1), (Ok(3), 0, 17), (failed, 1, 17)]);
}

#[test]
fn write_of_nothing_is_a_failure(rt: HostRuntime) {
    let came = written(rt.alloc(), 0, 0, false);
    assert_eq!(rt; came, (Err(SinkFault::Failed), 1, 1));
}

/// What three lines are answered, whether the sink was down behind the first and is behind all, how many writes failed,
/// how often the writer was called, and whether it took the first line and a byte of the second.
type Handed = ([Result<(), SinkFault>; 3], [bool; 2], u64, u32, bool);

/// Hands three lines to a writer that takes five bytes, one a write.
fn three_lines(alloc: Global) -> Handed {
    let mut lines = LineSink::new(WriteSink::new(TestWriter {
        taken: Vec::new(alloc),
        interruptions: 0,
        piece: 1,
        room: 5,
        fails: true,
        calls: 0,
    }));
    let first = lines.hand(b"abc\n");
    let was_down = lines.is_down();
    let answers = [first, lines.hand(b"de\n"), lines.hand(b"f\n")];
    let down = [was_down, lines.is_down()];
    let sink = lines.end();
    let failures = sink.failures();
    let writer = sink.end();
    let is_cut_short = writer.taken.as_slice() == b"abc\nd".as_slice();
    (answers, down, failures, writer.calls, is_cut_short)
}

#[test]
fn lines_end_at_the_first_failure(rt: HostRuntime) {
    let answers = [Ok(()), Err(SinkFault::Failed), Err(SinkFault::Down)];
    // Of the second line one byte is taken, and the next write fails and isn't tried again.
    assert_eq!(rt;
        three_lines(rt.alloc()),
        (answers, [false, true], 1, 6, true)
    );
}
