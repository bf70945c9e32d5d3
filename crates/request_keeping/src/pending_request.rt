//! A request that is received again, or a part of it.
use crate::file_reading::RequestPlace;
use crate::folder::FileNumber;
use span_ids::ConnKey;
use std::alloc::{AllocError, Global};

/// A request some of whose spans have no end.
#[derive(Drop)]
pub struct PendingRequest {
    pub(crate) file: FileNumber,
    pub(crate) place: u64,
    /// Of its spans, in document order, whether each is received again.
    pub(crate) pending: Vec<bool>,
    /// How many of its spans are.
    pub(crate) spans: u64,
    /// How many of these were noted as handed over, and come again with the rest of their trace.
    pub(crate) handed: u64,
    /// On which connection it came, and when.
    came: (ConnKey, u64),
}

impl PendingRequest {
    /// A request of so many spans at this place of a file, none of which is marked, that came so.
    pub(crate) fn new(
        alloc: Global,
        file: FileNumber,
        place: u64,
        spans: usize,
        came: (ConnKey, u64),
    ) -> Result<Self, AllocError> {
        Ok(PendingRequest {
            file,
            place,
            pending: vec![in alloc; false; spans]?,
            spans: 0,
            handed: 0,
            came,
        })
    }

    /// The segment and the lane of its file, and its place there.
    pub fn at(&self) -> RequestPlace {
        (self.file.segment, self.file.lane.unwrap_or(0), self.place)
    }

    /// How many of its spans are received again.
    pub fn spans(&self) -> u64 {
        self.spans
    }

    /// How many of these were noted as handed over, and come again with the rest of their trace.
    pub fn handed_again(&self) -> u64 {
        self.handed
    }

    /// In which run it came.
    pub fn run(&self) -> u64 {
        self.file.run
    }

    /// On which connection of that run it came, and when, in milliseconds.
    pub fn came(&self) -> (ConnKey, u64) {
        self.came
    }
}
