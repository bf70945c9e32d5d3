//! To whom decisions are told.
ghost use Rattle.std.specs.Prelude.{◌≡◌};
ghost use Rattle.collector_board.specs.Looks.{is_looked_at};

use crate::decision_queue::DecisionQueue;
use crate::decision_ring::DecisionRing;
use decision_json::TraceNews;
use decision_line::{DecidedTrace, EvictedTrace, LateSpans, Said};
use line_entries::LineNews;
use policy_tree::Policies;
use std::alloc::{AllocError, Global};
use std::sync::atomic::{AtomicBool, AtomicU64, Ordering};
use std::sync::{OnceLock, Wait};

/// For so long after a look decisions are told, in milliseconds.
pub const LOOKED_FOR: u64 = 60_000;

/// To whom decisions are told: to those who write a line for each, and, from a look on and for a minute, to those who
/// look.
#[derive(Drop)]
pub struct DecisionListeners {
    /// The names of the policies, in order.
    names: Vec<String>,
    /// Where decisions wait until they are written, if they are.
    queue: Option<DecisionQueue>,
    /// What became of the last traces, once somebody has looked.
    ring: OnceLock<DecisionRing>,
    /// The moment of the last look, in milliseconds since 1970, and 0: there was none.
    looked: AtomicU64,
    is_looked_at: AtomicBool,
    /// Whether anybody is told.
    hears: AtomicBool,
}

impl DecisionListeners {
    /// Nobody is told. Shards decide by these policies.
    pub fn new(alloc: Global, policies: &Policies) -> Result<Self, AllocError> {
        let mut names = Vec::new(alloc);
        for policy in policies.as_slice() {
            names.push(String::from_str(alloc, policy.name.as_str())?)?;
        }
        Ok(DecisionListeners {
            names,
            queue: None,
            ring: OnceLock::new(),
            looked: AtomicU64::new(0),
            is_looked_at: AtomicBool::new(false),
            hears: AtomicBool::new(false),
        })
    }

    /// From now on decisions are kept until they are taken, to be written.
    pub fn keep(&mut self, alloc: Global) -> Result<(), AllocError> {
        self.queue = Some(DecisionQueue::new(alloc)?);
        self.hears.store(true, Ordering::Relaxed);
        Ok(())
    }

    /// Where decisions wait until they are written, if they are.
    pub fn queue(&self) -> Option<&DecisionQueue> {
        self.queue.as_ref()
    }

    /// The names of the policies, in order.
    pub fn names(&self) -> &[String] {
        &self.names
    }

    /// Whether anybody is told.
    pub fn hears(&self) -> bool {
        self.hears.load(Ordering::Relaxed)
    }

    /// Tells of a trace that was decided, of which the first policies said this.
    pub fn decided<R: Wait>(&self, rt: &R, trace: &DecidedTrace, said: &[Said]) {
        let news = TraceNews::decided(*trace, said);
        self.tell(rt, &news);
    }

    /// Tells of a trace that left the full buffer undecided.
    pub fn evicted<R: Wait>(&self, rt: &R, trace: &EvictedTrace) {
        let news = TraceNews::Evicted(*trace);
        self.tell(rt, &news);
    }

    /// Tells of late spans, those who write alone.
    pub fn late<R: Wait>(&self, rt: &R, late: &LateSpans) {
        if let Some(queue) = &self.queue {
            queue.put(rt, LineNews::Late(*late));
        }
    }

    /// Tells what became of a trace.
    fn tell<R: Wait>(&self, rt: &R, news: &TraceNews) {
        self.tell_who_write(rt, news);
        self.tell_who_look(rt, news);
    }

    /// Tells what became of a trace to those who write a line for it.
    fn tell_who_write<R: Wait>(&self, rt: &R, news: &TraceNews) {
        if let Some(queue) = &self.queue {
            queue.put(rt, LineNews::Trace(*news));
        }
    }

    /// Tells what became of a trace to those who look, if somebody does.
    fn tell_who_look<R: Wait>(&self, rt: &R, news: &TraceNews) {
        if !self.is_looked_at.load(Ordering::Relaxed) {
            return;
        }
        if let Some(ring) = self.ring.get() {
            ring.put(rt, *news);
        }
    }

    /// Looks, at this moment in milliseconds since 1970: what was told last, at most so many, the newest first.
    pub fn look<R: Wait>(
        &self,
        rt: &R,
        alloc: Global,
        now: u64,
        most: usize,
    ) -> Result<Vec<TraceNews>, AllocError> {
        if self.ring.get().is_none() {
            // Where another one has made it meanwhile, that one stays.
            let _made = self.ring.set(rt, DecisionRing::new(alloc)?);
        }
        // The moment 0 is told as the next one, since it says that nobody looked.
        self.looked.store(now.max(1), Ordering::Relaxed);
        self.is_looked_at.store(true, Ordering::Relaxed);
        self.hears.store(true, Ordering::Relaxed);
        match self.ring.get() {
            Some(ring) => ring.newest(rt, alloc, most),
            None => Ok(Vec::new(alloc)),
        }
    }

    /// It is this moment, in milliseconds since 1970: where the last look was long ago, those who look are told no more.
    pub fn passes(&self, now: u64) {
        let looked = match self.looked.load(Ordering::Relaxed) {
            0 => None,
            moment => Some(moment),
        };
        let is_looked_at = is_looked_at(looked, now);
        self.is_looked_at.store(is_looked_at, Ordering::Relaxed);
        let hears = self.queue.is_some() || is_looked_at;
        self.hears.store(hears, Ordering::Relaxed);
    }
}

/// Whether somebody has looked in the last minute, whose last look was at this moment. One that lies ahead, as the wall
/// clock went back, counts for nothing.
fn is_looked_at(looked: Option<u64>, now: u64) -> bool
    ensures { result ≡ is_looked_at looked now }
{
    match looked {
        Some(at) => at <= now && now - at < LOOKED_FOR,
        None => false,
    }
}
