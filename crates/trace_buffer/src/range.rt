//! Where in the ring the episodes are that are too big.
ghost use Rattle.std.specs.Prelude.{◌≡◌};
ghost use Rattle.trace_buffer.specs.Range.{with_place, with_if, without_first, without_place};

/// The episodes that wait and are too big lie at these places: from `start` on, and before `end`. Where `start` isn't
/// before `end` there is none.
#[derive(Clone, Copy)]
pub(crate) struct Range {
    pub(crate) start: usize,
    pub(crate) end: usize,
}

impl Range {
    /// With one more at this place, if that one is too big.
    pub(crate) fn with_if(self, is_too_big: bool, place: usize) -> Range
        ensures { result ≡ with_if is_too_big place self }
    {
        if is_too_big { self.with(place) } else { self }
    }

    /// With one more at this place.
    fn with(self, place: usize) -> Range
        ensures { result ≡ with_place place self }
    {
        let next = place.saturating_add(1);
        if self.start < self.end {
            Range {
                start: self.start.min(place),
                end: self.end.max(next),
            }
        } else {
            Range {
                start: place,
                end: next,
            }
        }
    }

    /// Once the first episode has left.
    pub(crate) fn without_first(self) -> Range
        ensures { result ≡ without_first self }
    {
        Range {
            start: self.start.saturating_sub(1),
            end: self.end.saturating_sub(1),
        }
    }

    /// Once the one at this place is decided.
    pub(crate) fn without(self, place: usize) -> Range
        ensures { result ≡ without_place place self }
    {
        if place == self.start {
            Range {
                start: place.saturating_add(1),
                end: self.end,
            }
        } else {
            self
        }
    }
}
