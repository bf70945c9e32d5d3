//! A sink that stops the collector where a write fails, and tells what it took.
ghost use Rattle.std.specs.Prelude.{◌≡◌};

use crate::board::Board;
use crate::output_stall::OutputStall;
use crate::write_news::{WriteNews, news_of};
use http_lane::HasStopMark;
use span_sink::{Sink, SinkFault};
use std::time::Clock;

/// A sink over another one, which takes what that takes and answers what that answers. Where a write fails it tells a
/// board, and sets a mark to stop, if it is asked to. It tells the board what was taken, unless lines are sent, too, and
/// counted there. While a write is under way others can tell for how long.
#[derive(Drop)]
pub struct StoppingSink<'s, S, P, R: Clock> {
    rt: &'s R,
    sink: S,
    stop: &'s P,
    stops: bool,
    board: &'s Board,
    are_sent: bool,
    stall: &'s OutputStall,
}

impl<'s, S: Sink, P: HasStopMark, R: Clock> StoppingSink<'s, S, P, R> {
    /// A sink over this one; `stops`: a write that fails sets the mark; `are_sent`: the lines are sent, too.
    pub fn new(
        rt: &'s R,
        sink: S,
        stop: &'s P,
        stops: bool,
        board: &'s Board,
        are_sent: bool,
        stall: &'s OutputStall,
    ) -> Self
        ensures { result.sink ≡ sink }
    {
        StoppingSink {
            rt,
            sink,
            stop,
            stops,
            board,
            are_sent,
            stall,
        }
    }

    /// Gives the other sink back.
    pub fn end(self) -> S
        ensures { result ≡ self.entry.sink }
    {
        let StoppingSink {
            rt: _,
            sink,
            stop: _,
            stops: _,
            board: _,
            are_sent: _,
            stall: _,
        } = self;
        sink
    }
}

impl<'s, S: Sink, P: HasStopMark, R: Clock> Sink for StoppingSink<'s, S, P, R> {
    ghost taken = { λ s. S.taken s.sink };

    ghost failures = { λ s. S.failures s.sink };

    fn write(&mut self, bytes: &[u8]) -> Result<usize, SinkFault> {
        self.stall.begins(self.rt);
        let answer = self.sink.write(bytes);
        self.stall.ends();
        match news_of(answer.ok(), bytes, self.are_sent, self.stops) {
            WriteNews::Nothing => {}
            WriteNews::Took { bytes, lines } => self.board.wrote(bytes, lines),
            WriteNews::Fails { stops } => {
                self.board.fails();
                if stops {
                    // At the very write that failed, as at a close: what holds of every closed run holds here (D-200).
                    self.stop.set();
                }
            }
        }
        answer
    }

    fn failures(&self) -> u64 {
        self.sink.failures()
    }
}
