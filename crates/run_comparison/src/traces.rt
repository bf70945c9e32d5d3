//! The last end of each trace.
ghost use Rattle.std.specs.Prelude.{◌≡◌, [], IfOk, OnOk, OnErr, is_none, not, option_copied, ◌<◌, length, slice_get, Some};
ghost use Rattle.std.specs.Map.{keys_of};
ghost use Rattle.run_comparison.specs.Ends.{end_of, with_end};

use crate::end::TraceEnd;
use indexmap::IndexMap;
use span_ids::TraceId;
use std::alloc::{AllocError, Global};
use std::marker::Model;

/// Of how many traces a run holds the last end: each takes about 90 bytes. The ends of more are only counted.
pub const MOST_TRACES: usize = 4_000_000;

/// The last end of each trace, in the order of their first ends.
#[derive(Drop)]
pub struct Traces {
    ends: IndexMap<TraceId, TraceEnd>,
    beyond: u64,
}

impl Model for Traces {
    ghost use Rattle.run_comparison.specs.Ends.{Traces};

    ghost Value = { Traces };

    ghost view = { λ t. record { ends = t.ends.entries; beyond = t.beyond } };
}

impl Traces {
    /// No trace has ended.
    pub fn new(alloc: Global) -> Traces
        ensures { result ≡ record { ends = []; beyond = 0 } }
    {
        Traces {
            ends: IndexMap::new(alloc),
            beyond: 0,
        }
    }

    /// The last end of a trace.
    pub fn end_of(&self, trace: TraceId) -> Option<&TraceEnd>
        ensures { option_copied result ≡ end_of self.now.ends trace }
    {
        self.ends.get(&trace)
    }

    /// Whether the last end of a trace stands here.
    pub fn has(&self, trace: TraceId) -> bool
        ensures { result ≡ not (is_none (end_of self.now.ends trace)) }
    {
        self.ends.contains_key(&trace)
    }

    /// Of how many traces the last end stands here.
    pub fn len(&self) -> usize
        ensures { result ≡ length self.now.ends }
    {
        self.ends.len()
    }

    /// How many ends found no room.
    pub fn beyond(&self) -> u64
        ensures { result ≡ self.now.beyond }
    {
        self.beyond
    }

    /// A trace ended. `Err` where memory was refused: all is as it was.
    pub fn put(&mut self, trace: TraceId, end: TraceEnd) -> Result<(), AllocError>
        ensures told { OnOk result (self.new ≡ with_end self.old trace end) }
        ensures same { OnErr result (self.new ≡ self.old) }
    {
        let before = self.ends.get(&trace).copied();
        if before.is_none() && self.ends.len() >= MOST_TRACES {
            self.beyond = self.beyond.saturating_add(1);
            return Ok(());
        }
        if self.ends.insert(trace, end.behind(before)).is_err() {
            return Err(AllocError);
        }
        Ok(())
    }

    /// The trace at a place, from 0, in the order of their first ends.
    pub fn trace_at(&self, place: usize) -> TraceId
        requires { place < length self.now.ends }
        ensures { slice_get (keys_of self.now.ends) place ≡ Some result }
    {
        let (trace, _end) = self.ends.get_index(place).unwrap();
        *trace
    }
}
