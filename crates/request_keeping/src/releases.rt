//! Which spans that shards released are still on their way.
use span_ids::TraceId;
use std::alloc::{AllocError, Global};
use std::collections::{BTreeMap, HashMap};

/// Spans of one trace that are on their way, and the segment in which the first of them was released.
#[derive(Clone, Copy)]
struct OnTheirWay {
    spans: u64,
    segment: u64,
}

/// The spans that shards told as released, and of which the exporter hasn't told yet what became of them.
#[derive(Drop)]
pub struct Releases {
    traces: HashMap<TraceId, OnTheirWay>,
    /// How many of these traces were released in each segment.
    segments: BTreeMap<u64, u64>,
}

impl Releases {
    /// None is on its way.
    pub fn new(alloc: Global) -> Self {
        Releases {
            traces: HashMap::new(alloc),
            segments: BTreeMap::new(alloc),
        }
    }

    /// So many spans of a trace were released in this segment. An error: there is no memory, and nothing has changed.
    pub fn released(&mut self, trace: TraceId, spans: u64, segment: u64) -> Result<(), AllocError> {
        if let Some(way) = self.traces.get_mut(&trace) {
            way.spans = way.spans.saturating_add(spans);
            return Ok(());
        }
        self.traces.reserve(1)?;
        let count = self.segments.entry(segment)?.or_insert(0);
        *count = count.saturating_add(1);
        let way = OnTheirWay { spans, segment };
        match self.traces.insert(trace, way) {
            Ok(_) => Ok(()),
            Err(_) => Err(AllocError),
        }
    }

    /// A span of a trace was handed over or given up.
    pub fn settled(&mut self, trace: TraceId) {
        let Some(way) = self.traces.get_mut(&trace) else {
            return;
        };
        way.spans = way.spans.saturating_sub(1);
        if 0 < way.spans {
            return;
        }
        let segment = way.segment;
        self.traces.remove(&trace);
        if let Some(count) = self.segments.get_mut(&segment) {
            *count = count.saturating_sub(1);
            if *count == 0 {
                self.segments.remove(&segment);
            }
        }
    }

    /// The first segment in which something was released that is still on its way.
    pub fn oldest(&self) -> Option<u64> {
        self.segments.keys().next().copied()
    }
}
