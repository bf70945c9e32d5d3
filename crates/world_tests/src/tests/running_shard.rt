//! A shard by running state: a ring of episodes, caches in order of use, a clock.
use crate::tests::spans::Kept;

/// A trace in the ring: when it opened, when its first root came, how many bytes its spans have, whether one of them
/// has an error, whether it is due, and whether it is sampled, once it is decided.
#[derive(Clone, Copy)]
struct Episode {
    trace: u8,
    opened: u64,
    first_root: Option<u64>,
    size: u64,
    error: bool,
    is_due: bool,
    verdict: Option<bool>,
}

/// A shard with room for two traces, which remembers one that was sampled and two others. It is due to decide no more
/// than what became due at one moment, and that in the order of the ring.
#[derive(Clone, Copy)]
pub struct Shard {
    /// The oldest first.
    ring: [Option<Episode>; 2],
    sampled: Option<u8>,
    /// The one that was used last is last.
    non_sampled: [Option<u8>; 2],
    pub clock: u64,
    /// Of which senders it took the End: two lanes, and the ticker.
    pub ended: [bool; 3],
}

/// What a span finds of its trace: an undecided episode, a decided one in the ring or one that is remembered, or none.
#[derive(Clone, Copy)]
pub enum Found {
    Joins,
    Meets(bool),
    Recalls(bool),
    Opens,
}

/// In milliseconds.
const WAIT: u64 = 10;

/// How many bytes a span has of which nothing is told but its ids and whether it has an error:
/// `{"spanId":"16 digits","traceId":"32 digits"}`, where it has a parent `,"parentSpanId":"16 digits"` beside them, and
/// with an error `,"status":{"code":2}`.
fn size_of(span: &Kept) -> u64 {
    let ids = if span.root { 74 } else { 108 };
    let status = if span.error { 20 } else { 0 };
    ids + status
}

impl Episode {
    /// Whether its spans have more bytes than the maximum, where there is one.
    fn is_too_big(&self, maximum_trace_size: u64) -> bool {
        maximum_trace_size > 0 && self.size > maximum_trace_size
    }

    /// A span of this trace was taken at this moment.
    fn take(&mut self, span: &Kept, moment: u64) {
        self.size = self.size.saturating_add(size_of(span));
        self.error = self.error || span.error;
        if span.root && self.first_root.is_none() {
            self.first_root = Some(moment);
        }
    }
}

impl Shard {
    pub fn new() -> Shard {
        Shard {
            ring: [None; 2],
            sampled: None,
            non_sampled: [None; 2],
            clock: 0,
            ended: [false; 3],
        }
    }

    pub fn find(&self, trace: u8) -> Found {
        for episode in self.ring {
            match episode {
                Some(it) if it.trace == trace => {
                    return match it.verdict {
                        None => Found::Joins,
                        Some(verdict) => Found::Meets(verdict),
                    };
                }
                _ => {}
            }
        }
        if self.sampled == Some(trace) {
            return Found::Recalls(true);
        }
        if self.non_sampled.contains(&Some(trace)) {
            return Found::Recalls(false);
        }
        Found::Opens
    }

    /// Whether a mark can apply to a span that finds this: that memory was refused to it, or that the decision was lost
    /// of a trace that it puts out of the ring. Both caches have room.
    pub fn marks_apply(&self, found: Found, refused: bool, lost: bool) -> bool {
        let puts = self.ring[0].is_some_and(|left| left.verdict.is_some());
        match found {
            Found::Joins => !lost,
            Found::Meets(_) | Found::Recalls(_) => !refused && !lost,
            Found::Opens => !lost || (!refused && puts),
        }
    }

    /// The trace is now the last used of those that are remembered.
    fn remember(&mut self, trace: u8, verdict: bool) {
        if verdict {
            self.sampled = Some(trace);
        } else if self.non_sampled[1] != Some(trace) {
            self.non_sampled = [self.non_sampled[1], Some(trace)];
        }
    }

    /// Takes a span that found this. The trace that leaves the ring undecided, if one does.
    pub fn take(&mut self, found: Found, span: &Kept, lost: bool) -> Option<u8> {
        match found {
            Found::Joins => self.join(span),
            Found::Meets(_) => {}
            Found::Recalls(verdict) => self.remember(span.trace, verdict),
            Found::Opens => return self.open(span, lost),
        }
        None
    }

    /// Opens an episode with its first span. The trace that leaves the ring undecided, if one does.
    fn open(&mut self, span: &Kept, lost: bool) -> Option<u8> {
        let mut opened = Episode {
            trace: span.trace,
            opened: self.clock,
            first_root: None,
            size: 0,
            error: false,
            is_due: false,
            verdict: None,
        };
        opened.take(span, self.clock);
        let left = self.ring[0];
        self.ring = [self.ring[1], Some(opened)];
        let left = left?;
        match left.verdict {
            None => return Some(left.trace),
            Some(verdict) if !lost => self.remember(left.trace, verdict),
            Some(_) => {}
        }
        None
    }

    /// A span joins the undecided episode of its trace.
    fn join(&mut self, span: &Kept) {
        for episode in self.ring.iter_mut() {
            match episode {
                Some(it) if it.trace == span.trace => it.take(span, self.clock),
                _ => {}
            }
        }
    }

    /// Undecided episodes become due: all, or those that have waited long enough, or whose first root has.
    pub fn fall_due(&mut self, all: bool, root_wait: u64) {
        for episode in self.ring.iter_mut() {
            if let Some(it) = episode {
                let by_root = match it.first_root {
                    Some(taken) => root_wait > 0 && taken.wrapping_add(root_wait) <= self.clock,
                    None => false,
                };
                let by_wait = it.opened.wrapping_add(WAIT) <= self.clock;
                it.is_due = it.verdict.is_none() && (all || by_root || by_wait);
            }
        }
    }

    /// Takes the End of a sender, with the last of which all become due. False where it took that before.
    pub fn end(&mut self, sender: u16, root_wait: u64) -> bool {
        match self.ended.get_mut(sender as usize) {
            Some(ended) if !*ended => *ended = true,
            _ => return false,
        }
        if self.ended == [true; 3] {
            self.fall_due(true, root_wait);
        }
        true
    }

    /// Undecided episodes that are too big become due. Whether there are some.
    pub fn fall_due_by_size(&mut self, maximum_trace_size: u64) -> bool {
        for episode in self.ring.iter_mut() {
            if let Some(it) = episode {
                it.is_due = it.verdict.is_none() && it.is_too_big(maximum_trace_size);
            }
        }
        self.is_due()
    }

    /// Whether a decision is due.
    pub fn is_due(&self) -> bool {
        self.ring
            .iter()
            .any(|episode| episode.is_some_and(|it| it.is_due))
    }

    /// Decides the first episode that is due: its trace, and whether that is sampled. A trace with an error is, where
    /// it isn't too big.
    pub fn decide(&mut self, maximum_trace_size: u64) -> Option<(u8, bool)> {
        for episode in self.ring.iter_mut() {
            match episode {
                Some(it) if it.is_due => {
                    let verdict = it.error && !it.is_too_big(maximum_trace_size);
                    it.is_due = false;
                    it.verdict = Some(verdict);
                    return Some((it.trace, verdict));
                }
                _ => {}
            }
        }
        None
    }
}
