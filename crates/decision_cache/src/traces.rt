//! A bounded list of traces, the least recently put or found of which makes room.
ghost use Rattle.std.specs.Prelude.{◌≡◌, [], false, IfOk};
ghost use Rattle.decision_cache.specs.Lists.{is_held, renewed, PutAs};

use lru::LruCache;
use span_ids::TraceId;
use std::alloc::{AllocError, Global};
use std::marker::Model;
use std::num::NonZeroUsize;
use trace_hash::TraceHashing;

/// What became of a put.
#[derive(Clone, Copy, PartialEq, Eq)]
pub enum Remembered {
    /// The verdict is remembered.
    Kept,
    /// Verdicts of this kind aren't remembered: the size is 0.
    Off,
    /// Memory was refused: this verdict isn't remembered, and all else is as before.
    Lost,
}

/// The traces of one verdict, the last touched first.
#[derive(Drop)]
pub struct Traces {
    /// None where there is room for none.
    cache: Option<LruCache<TraceId, (), TraceHashing>>,
}

impl Model for Traces {
    ghost use Rattle.decision_cache.specs.Lists.{TraceList, traces_of};

    ghost Value = { TraceList };

    ghost view = { λ t. traces_of t.cache };
}

impl Traces {
    pub fn new(alloc: Global, hashing: TraceHashing, size: usize) -> Result<Traces, AllocError>
        ensures { IfOk result (λ t. t ≡ record { traces = []; size = size }) }
    {
        let Some(cap) = NonZeroUsize::new(size) else {
            return Ok(Traces { cache: None });
        };
        // Room is taken as the cache fills, not ahead for `size` traces, as `with_hasher` would.
        let mut cache = LruCache::unbounded_with_hasher(alloc, hashing)?;
        cache.resize(cap);
        Ok(Traces { cache: Some(cache) })
    }

    pub fn put(&mut self, trace: TraceId) -> Remembered
        requires { is_held trace self.old.traces ≡ false }
        ensures { PutAs trace self.old result self.new }
    {
        let Some(cache) = &mut self.cache else {
            return Remembered::Off;
        };
        let _room = cache.len();
        match cache.put(trace, ()) {
            Ok(_) => Remembered::Kept,
            Err(_) => Remembered::Lost,
        }
    }

    pub fn has(&self, trace: TraceId) -> bool
        ensures { result ≡ is_held trace self.now.traces }
    {
        let Some(cache) = &self.cache else {
            return false;
        };
        cache.contains(&trace)
    }

    pub fn renew(&mut self, trace: TraceId) -> bool
        ensures held { result ≡ is_held trace self.old.traces }
        ensures after { self.new ≡ record self.old { traces = renewed trace self.old.traces } }
    {
        let Some(cache) = &mut self.cache else {
            return false;
        };
        cache.promote(&trace)
    }
}
