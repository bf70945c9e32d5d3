//! What came and has no line in the record yet.
use crate::charge::Charge;
use crate::line_writer::LineLosses;
use line_entries::Came;
use line_writing::EntrySource;
use std::alloc::Global;
use std::sync::{Arc, Wait};

/// Takes what lanes and the ticker told, one after the other.
#[derive(Drop)]
pub struct RecordEntries {
    charge: Arc<Charge, Global>,
}

impl RecordEntries {
    /// They wait on this board.
    pub fn new(charge: Arc<Charge, Global>) -> Self {
        RecordEntries { charge }
    }
}

impl EntrySource<Came> for RecordEntries {
    // What a queue between threads holds is known to nobody.
    ghost gives = { λ _ _ _. Unit {0} };

    fn take<R: Wait>(&mut self, rt: &R) -> Option<Came> {
        self.charge.board.record_queue()?.take(rt)
    }
}

impl LineLosses for RecordEntries {
    fn loses(&self, lines: u64) {
        if let Some(queue) = self.charge.board.record_queue() {
            queue.loses(lines);
        }
    }
}
