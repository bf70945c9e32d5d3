//! The collector, as its output sees it.
use crate::board::Board;
use crate::stop_mark::StopMark;
use crate::write_news::failure_of;
use http_lane::{Clock as Moments, HasStopMark};
use output_file::OutputWatch;
use std::io;

/// A mark to stop, and a board that is told since when writes fail.
#[derive(Drop)]
pub struct WriteWatch<'s, Time> {
    stop: &'s StopMark,
    board: &'s Board,
    clock: &'s Time,
}

impl<'s, Time: Moments> WriteWatch<'s, Time> {
    /// With this mark, this board and this clock.
    pub fn new(stop: &'s StopMark, board: &'s Board, clock: &'s Time) -> Self {
        WriteWatch { stop, board, clock }
    }
}

impl<'s, Time: Moments> OutputWatch for WriteWatch<'s, Time> {
    fn is_stopping(&self) -> bool {
        self.stop.is_set()
    }

    fn failing(&self, error: &io::Error) {
        let failure = failure_of(self.clock.now(), error.raw_os_error());
        self.board.output_fails(failure);
    }

    fn back(&self) {
        self.board.output_is_back();
    }
}
