//! How far a search for what is due came.
ghost use Rattle.std.specs.Prelude.{◌≡◌, ◌==◌, ◌&&◌};
ghost use Rattle.trace_buffer.specs.Ring.{kept_at};

use span_ids::Moment;

/// None of the episodes before `end`, a place in the ring, is due by this mark and these waits, in milliseconds.
#[derive(Clone, Copy)]
pub(crate) struct DueSearch {
    pub(crate) mark: Moment,
    pub(crate) wait: Moment,
    pub(crate) root_wait: Moment,
    pub(crate) end: usize,
}

impl DueSearch {
    /// Whether this search was for what is due by this mark and these waits.
    pub(crate) fn is_by(&self, mark: Moment, wait: Moment, root_wait: Moment) -> bool
        ensures { result ≡ (self.now.mark == mark && self.now.wait == wait && self.now.root_wait == root_wait) }
    {
        self.mark == mark && self.wait == wait && self.root_wait == root_wait
    }

    /// What is left of the search once a span is taken at this clock: one that is taken before the mark may make its
    /// trace due, and so does one after which that is too big.
    pub(crate) fn kept_at(self, clock: Moment, is_too_big: bool) -> DueSearch
        ensures { result ≡ kept_at clock is_too_big self }
    {
        if is_too_big || clock < self.mark {
            DueSearch { end: 0, ..self }
        } else {
            self
        }
    }
}
