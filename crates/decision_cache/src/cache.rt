//! What was decided of traces that left the buffer, by verdict.
ghost use Rattle.std.specs.Prelude.{◌≡◌, ◌∷◌, [], ℕ, List, Some, false, IfOk};

use crate::traces::{Remembered, Traces};
use span_ids::{TraceId, Verdict};
use std::alloc::{AllocError, Global};
use std::marker::Model;
use trace_hash::TraceHashing;

/// The traces that are remembered as sampled, and those remembered as not sampled.
#[derive(Drop)]
pub struct DecisionCache {
    sampled: Traces,
    not_sampled: Traces,
}

impl Model for DecisionCache {
    ghost use Rattle.decision_cache.specs.Lists.{CacheLists};

    ghost Value = { CacheLists };

    ghost view = { λ c. record { sampled = c.sampled; not_sampled = c.not_sampled } };
}

impl DecisionCache {
    ghost use Rattle.decision_cache.specs.Lists.{empty_lists, is_held_in_either, Remembers, asked, after_asking};
    ghost use Rattle.decision_cache.specs.Touches.{Touch, StandsFor, touched_by, is_lost, cached_as, sizes_of};

    /// Room for so many traces of each verdict, which are hashed in this way. A size of 0 is off.
    pub fn new(
        alloc: Global,
        hashing: TraceHashing,
        sampled: usize,
        not_sampled: usize,
    ) -> Result<DecisionCache, AllocError>
        ensures empty { IfOk result (λ cache. cache ≡ empty_lists sampled not_sampled) }
        ensures stands { IfOk result (λ cache. StandsFor cache []) }
    {
        Ok(DecisionCache {
            sampled: Traces::new(alloc, hashing, sampled)?,
            not_sampled: Traces::new(alloc, hashing, not_sampled)?,
        })
    }

    /// Puts the verdict of a trace that isn't remembered. The last of a full list makes room.
    pub fn remember(&mut self, id: TraceId, verdict: Verdict) -> Remembered
        requires { is_held_in_either id self.old ≡ false }
        ensures lists { Remembers id verdict self.old result self.new }
        ensures stands { (touches : List Touch) (episode : ℕ) → StandsFor self.old touches → is_lost result ≡ false →
            StandsFor self.new (touched_by episode id verdict ∷ touches) }
    {
        self.put(id, verdict)
    }

    fn put(&mut self, id: TraceId, verdict: Verdict) -> Remembered
        requires { is_held_in_either id self.old ≡ false }
        ensures { Remembers id verdict self.old result self.new }
    {
        match verdict {
            Verdict::Sampled => self.sampled.put(id),
            Verdict::NotSampled => self.not_sampled.put(id),
        }
    }

    /// The verdict of a trace that is remembered, which becomes the last touched. It takes no memory.
    pub fn ask(&mut self, id: TraceId) -> Option<Verdict>
        ensures verdict { result ≡ asked id self.old }
        ensures lists { self.new ≡ after_asking id self.old }
        ensures remembered { (touches : List Touch) → StandsFor self.old touches → result ≡ cached_as (sizes_of self.old) touches id }
        ensures stands { (touches : List Touch) (episode : ℕ) (verdict : Verdict) → StandsFor self.old touches → result ≡ Some verdict →
            StandsFor self.new (touched_by episode id verdict ∷ touches) }
    {
        self.renew(id)
    }

    /// The verdict of a trace that is remembered. It stays as it is, so one that is looked at isn't remembered longer.
    pub fn peek(&self, id: TraceId) -> Option<Verdict>
        ensures verdict { result ≡ asked id self.now }
        ensures remembered { (touches : List Touch) → StandsFor self.now touches → result ≡ cached_as (sizes_of self.now) touches id }
    {
        self.held_as(id)
    }

    fn held_as(&self, id: TraceId) -> Option<Verdict>
        ensures { result ≡ asked id self.now }
    {
        if self.sampled.has(id) {
            Some(Verdict::Sampled)
        } else if self.not_sampled.has(id) {
            Some(Verdict::NotSampled)
        } else {
            None
        }
    }

    fn renew(&mut self, id: TraceId) -> Option<Verdict>
        ensures verdict { result ≡ asked id self.old }
        ensures lists { self.new ≡ after_asking id self.old }
    {
        if self.sampled.renew(id) {
            Some(Verdict::Sampled)
        } else if self.not_sampled.renew(id) {
            Some(Verdict::NotSampled)
        } else {
            None
        }
    }
}
