//! A plain program that computes what a shard answers by looking back over the items that it took. Refused memory is an
//! input: it is told where the shard answered so.
use decision_cache::Remembered;
use otlp_types::Arrival;
use shard_core::{Decided, Taken};
use span_ids::{Reason, TraceId, Verdict};
use trace_buffer::Evicted;

/// How many items a run has.
pub const ITEMS: usize = 48;

/// The wait of each run, in milliseconds.
pub const WAIT: u64 = 3;

/// The traces.
pub const TRACES: [&str; 4] = [
    "5b8efff798038103d269b633813fc60c",
    "5b8efff798038103d269b633813fc60d",
    "5b8efff798038103d269b633813fc60e",
    "5b8efff798038103d269b633813fc60f",
];

/// What a span finds: by the place of an opening among the items.
#[derive(Clone, Copy, Debug, PartialEq, Eq)]
pub enum Finding {
    Joins(usize),
    Meets(usize, Verdict),
    Opens,
}

/// An item: a span of a trace, with an error or not and with what it found, or another item.
#[derive(Clone, Copy, Debug, PartialEq, Eq)]
pub enum Kind {
    Span(usize, bool, Finding),
    Tick,
    End,
}

/// An item that was taken, with its marks.
#[derive(Clone, Copy, PartialEq, Eq)]
pub struct Entry {
    pub kind: Kind,
    pub moment: u64,
    pub refused: bool,
    pub lost: bool,
}

/// The items that a shard took, and its settings.
#[derive(Clone, Copy)]
pub struct Past<'a> {
    pub entries: &'a [Entry],
    pub root_wait: u64,
    pub maximum_trace_size: u64,
    pub num_traces: usize,
    pub sampled: usize,
    pub non_sampled: usize,
}

/// The trace of a span that was not refused.
fn trace_of(entry: &Entry) -> Option<usize> {
    match entry.kind {
        Kind::Span(trace, _, _) if !entry.refused => Some(trace),
        _ => None,
    }
}

/// The trace that an item opened.
fn opened(entry: &Entry) -> Option<usize> {
    match entry.kind {
        Kind::Span(trace, _, Finding::Opens) if !entry.refused => Some(trace),
        _ => None,
    }
}

/// Whether the span at this place has no parent: each third one.
pub fn is_root(place: usize) -> bool {
    place.checked_rem(3) == Some(0)
}

/// The bytes of the canonical text of the span at this place: two ids, a parent's unless it is a root, and the status
/// of an error.
fn size_of(place: usize, error: bool) -> u64 {
    let parent = if is_root(place) { 0 } else { 34 };
    let status = if error { 20 } else { 0 };
    74 + parent + status
}

impl Past<'_> {
    /// The clock after the first `end` items.
    fn clock(&self, end: usize) -> u64 {
        let mut clock = 0;
        for entry in self.entries.iter().take(end) {
            clock = entry.moment.max(clock);
        }
        clock
    }

    /// How many openings there are from one place on, and before another.
    fn openings(&self, start: usize, end: usize) -> usize {
        let mut count: usize = 0;
        for entry in self.entries.iter().take(end).skip(start) {
            if opened(entry).is_some() {
                count = count.saturating_add(1);
            }
        }
        count
    }

    /// Whether the episode that opened there is in the buffer.
    fn is_in_buffer(&self, opening: usize, end: usize) -> bool {
        self.openings(opening.saturating_add(1), end) < self.num_traces
    }

    /// Whether a span of the trace has an error, from the opening on.
    fn has_error(&self, trace: usize, opening: usize, end: usize) -> bool {
        for entry in self.entries.iter().take(end).skip(opening) {
            if let Kind::Span(of, true, _) = entry.kind {
                if of == trace && !entry.refused {
                    return true;
                }
            }
        }
        false
    }

    /// Whether a tick there decides the trace that opened so early: by its opening, or by a root among its spans.
    fn is_due(&self, trace: usize, opening: usize, tick: usize) -> bool {
        let now = self.clock(tick.saturating_add(1));
        if self.clock(opening.saturating_add(1)).saturating_add(WAIT) <= now {
            return true;
        }
        for at in opening..tick {
            let is_root = is_root(at) && self.entries.get(at).and_then(trace_of) == Some(trace);
            let taken = self.clock(at.saturating_add(1));
            if self.root_wait > 0 && is_root && taken.saturating_add(self.root_wait) <= now {
                return true;
            }
        }
        false
    }

    /// The bytes of the span at this place, where it is one of the trace.
    fn size_at(&self, trace: usize, at: usize) -> u64 {
        let Some(entry) = self.entries.get(at) else {
            return 0;
        };
        match entry.kind {
            Kind::Span(_, error, _) if trace_of(entry) == Some(trace) => size_of(at, error),
            _ => 0,
        }
    }

    /// The verdict of the episode that opened there, once it is decided.
    fn verdict(&self, opening: usize, end: usize) -> Option<Verdict> {
        let trace = opened(self.entries.get(opening)?)?;
        let mut size: u64 = 0;
        for at in opening..end {
            size = size.saturating_add(self.size_at(trace, at));
            let is_too_big = self.maximum_trace_size > 0 && size > self.maximum_trace_size;
            let decides = match self.entries.get(at)?.kind {
                Kind::Span(_, _, _) => is_too_big,
                Kind::Tick => self.is_due(trace, opening, at),
                Kind::End => true,
            };
            if decides && self.is_in_buffer(opening, at) {
                return Some(if !is_too_big && self.has_error(trace, opening, at) {
                    Verdict::Sampled
                } else {
                    Verdict::NotSampled
                });
            }
        }
        None
    }

    /// The opening of the episode that the next opening puts out of a full buffer.
    fn leaving(&self, end: usize) -> Option<usize> {
        for at in 0..end {
            let after = self.openings(at.saturating_add(1), end).saturating_add(1);
            if opened(self.entries.get(at)?).is_some() && after == self.num_traces {
                return Some(at);
            }
        }
        None
    }

    /// What an item touched outside the buffer: the opening, the trace and the verdict.
    fn touch(&self, at: usize) -> Option<(usize, usize, Verdict)> {
        let entry = self.entries.get(at)?;
        if let Kind::Span(trace, _, Finding::Meets(opening, verdict)) = entry.kind {
            if self.is_in_buffer(opening, at) {
                return None;
            }
            return Some((opening, trace, verdict));
        }
        if opened(entry).is_none() || entry.lost {
            return None;
        }
        let left = self.leaving(at)?;
        let verdict = self.verdict(left, at)?;
        Some((left, opened(self.entries.get(left)?)?, verdict))
    }

    /// How many other traces of this verdict were touched since the trace was, or `None` where the episode never was.
    fn touched_since(
        &self,
        opening: usize,
        trace: usize,
        verdict: Verdict,
        end: usize,
    ) -> Option<usize> {
        let mut seen = [false; 4];
        for back in 0..end {
            let at = end.saturating_sub(back).saturating_sub(1);
            let Some((of, touched, with)) = self.touch(at) else {
                continue;
            };
            if touched == trace {
                let others = seen.iter().filter(|is_seen| **is_seen).count();
                return if of == opening { Some(others) } else { None };
            }
            if with == verdict {
                if let Some(slot) = seen.get_mut(touched) {
                    *slot = true;
                }
            }
        }
        None
    }

    /// The size of the cache of a verdict.
    fn size(&self, verdict: Verdict) -> usize {
        match verdict {
            Verdict::Sampled => self.sampled,
            Verdict::NotSampled => self.non_sampled,
        }
    }

    /// What a span of a trace finds behind all items.
    pub fn finding(&self, trace: usize) -> Finding {
        let end = self.entries.len();
        let mut latest = None;
        for (at, entry) in self.entries.iter().enumerate() {
            if opened(entry) == Some(trace) {
                latest = Some(at);
            }
        }
        let Some(opening) = latest else {
            return Finding::Opens;
        };
        let is_in_buffer = self.is_in_buffer(opening, end);
        match self.verdict(opening, end) {
            None if is_in_buffer => Finding::Joins(opening),
            None => Finding::Opens,
            Some(verdict) if is_in_buffer => Finding::Meets(opening, verdict),
            Some(verdict) => match self.touched_since(opening, trace, verdict, end) {
                Some(others) if others < self.size(verdict) => Finding::Meets(opening, verdict),
                _ => Finding::Opens,
            },
        }
    }

    /// How many spans the episode has that opened there.
    fn spans(&self, trace: usize, opening: usize) -> u64 {
        let mut spans: u64 = 0;
        for entry in self.entries.iter().skip(opening) {
            if trace_of(entry) == Some(trace) {
                spans = spans.saturating_add(1);
            }
        }
        spans
    }

    /// Whether these are the spans of the episode that opened there, by their places among the items.
    fn are_spans(&self, trace: usize, opening: usize, spans: &[Arrival]) -> bool {
        let mut numbers = spans.iter().map(|arrival| arrival.key.number);
        for (at, entry) in self.entries.iter().enumerate() {
            if opening <= at
                && trace_of(entry) == Some(trace)
                && numbers.next() != Some(at as u64)
            {
                return false;
            }
        }
        numbers.next().is_none()
    }

    /// Whether an opening behind all items may answer so of the episode that leaves.
    fn may_leave(&self, evicted: Option<Evicted>, cache: Option<Remembered>) -> bool {
        let (Some(left), Some(told)) = (self.leaving(self.entries.len()), evicted) else {
            return self.leaving(self.entries.len()).is_none()
                && evicted.is_none()
                && cache.is_none();
        };
        let Some(trace) = self.entries.get(left).and_then(opened) else {
            return false;
        };
        let verdict = self.verdict(left, self.entries.len());
        let spans = match verdict {
            Some(_) => 0,
            None => self.spans(trace, left),
        };
        let is_put = match verdict {
            None => cache.is_none(),
            Some(verdict) if self.size(verdict) == 0 => cache == Some(Remembered::Off),
            Some(_) => cache == Some(Remembered::Kept) || cache == Some(Remembered::Lost),
        };
        is_put && told.spans == spans && told.verdict == verdict && Some(told.trace) == id_of(trace)
    }

    /// Whether a span behind all items may be answered so, by what it finds.
    pub fn may_answer(&self, finding: Finding, taken: &Taken) -> bool {
        match (finding, taken) {
            (Finding::Joins(_), Taken::Kept { evicted, cache }) => {
                evicted.is_none() && cache.is_none()
            }
            (Finding::Opens, Taken::Kept { evicted, cache }) => self.may_leave(*evicted, *cache),
            (Finding::Meets(_, Verdict::Sampled), Taken::Late(_)) => true,
            (Finding::Meets(_, Verdict::NotSampled), Taken::Dropped(Reason::LateNotSampled)) =>
                true,
            (Finding::Joins(_) | Finding::Opens, Taken::Dropped(Reason::NoMemory)) => true,
            _ => false,
        }
    }

    /// The opening that was decided first at the last item, from a place on.
    pub fn decided_from(&self, start: usize) -> Option<usize> {
        let end = self.entries.len();
        for at in start..end {
            let before = self.verdict(at, end.saturating_sub(1));
            if before.is_none() && self.verdict(at, end).is_some() {
                return Some(at);
            }
        }
        None
    }

    /// Whether the decision of the episode that opened there may be answered so.
    pub fn may_decide(&self, opening: usize, decided: &Decided) -> bool {
        let Some(trace) = self.entries.get(opening).and_then(opened) else {
            return false;
        };
        match (self.verdict(opening, self.entries.len()), decided) {
            (Some(Verdict::Sampled), Decided::Release(spans)) => {
                self.are_spans(trace, opening, spans)
            }
            (Some(Verdict::NotSampled), Decided::Dropped(spans)) => {
                *spans == self.spans(trace, opening)
            }
            _ => false,
        }
    }
}

fn id_of(trace: usize) -> Option<TraceId> {
    TraceId::parse(TRACES.get(trace)?)
}
