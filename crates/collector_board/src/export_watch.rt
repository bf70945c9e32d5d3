//! The collector, as its backend sees it.
use crate::board::Board;
use crate::stop_mark::StopMark;
use crate::write_news::delivered_of;
use batch_post::{AttemptOutcome, BatchFate};
use http_lane::HasStopMark;
use post_socket::Watch;

/// A mark to stop, and a board that is told what was delivered.
#[derive(Drop)]
pub struct ExportWatch<'s> {
    stop: &'s StopMark,
    board: &'s Board,
}

impl<'s> ExportWatch<'s> {
    /// With this mark and this board, which tells from now on how a backend takes what is sent.
    pub fn new(stop: &'s StopMark, board: &'s Board) -> Self {
        board.export().begins();
        ExportWatch { stop, board }
    }
}

impl<'s> Watch for ExportWatch<'s> {
    fn is_closing(&self) -> bool {
        self.stop.is_set()
    }

    fn attempted(&self, outcome: AttemptOutcome) {
        self.board.attempts(outcome);
        self.board.export().tried(outcome);
    }

    fn settled(&self, bytes: u64, fate: BatchFate) {
        self.board.export().settled(fate);
        if let Some(bytes) = delivered_of(bytes, fate) {
            self.board.delivered(bytes);
        }
    }

    fn rejected(&self, spans: u64) {
        self.board.rejects(spans);
    }
}
