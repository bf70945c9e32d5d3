//! What is told to the ledger, where there is one, and whether requests are refused for its sake.
use decision_line::{DecidedTrace, EvictedTrace, LateSpans};
use otlp_encoding::Encoding;
use request_keeping::{LedgerNews, RequestLedger};
use span_ids::{ConnKey, SpanId, TraceId, Verdict};
use std::sync::Wait;
use std::sync::atomic::{AtomicBool, Ordering};
use thread_watch::ShardLoad;

/// What is told to the ledger, where there is one.
#[derive(Drop)]
pub struct LedgerDesk {
    ledger: Option<RequestLedger>,
    /// No request is to be taken, since none can be kept.
    stops: AtomicBool,
}

impl LedgerDesk {
    /// There is no ledger.
    pub fn new() -> Self {
        LedgerDesk {
            ledger: None,
            stops: AtomicBool::new(false),
        }
    }

    /// From now on there is this one.
    pub fn keep(&mut self, ledger: RequestLedger) {
        self.ledger = Some(ledger);
    }

    /// The ledger, if there is one.
    pub fn ledger(&self) -> Option<&RequestLedger> {
        self.ledger.as_ref()
    }

    /// Whether no request is to be taken.
    pub fn stops(&self) -> bool {
        self.stops.load(Ordering::Relaxed)
    }

    /// From now on no request is to be taken, or requests may be.
    pub fn set(&self, stops: bool) {
        self.stops.store(stops, Ordering::Relaxed);
    }

    /// Keeps a request that a lane took, where there is a ledger, and says whether it may be answered.
    pub fn keeps<R: Wait>(
        &self,
        rt: &R,
        connection: ConnKey,
        moment: u64,
        encoding: Encoding,
        text: &[u8],
    ) -> bool {
        match &self.ledger {
            Some(ledger) => ledger.keep(rt, connection, moment, encoding, text),
            None => true,
        }
    }

    /// Whether answers wait for what was kept to be synced.
    pub fn syncs(&self) -> bool {
        match &self.ledger {
            Some(ledger) => ledger.syncs(),
            None => false,
        }
    }

    /// Syncs what this lane kept; `false`: that failed.
    pub fn commit<R: Wait>(&self, rt: &R, lane: usize) -> bool {
        match &self.ledger {
            Some(ledger) => ledger.commit(rt, lane),
            None => true,
        }
    }

    /// A shard has decided a trace.
    pub fn decided<R: Wait>(&self, rt: &R, decided: &DecidedTrace) {
        self.tell(
            rt,
            decided.verdict,
            decided.trace,
            decided.moment,
            decided.spans,
        );
    }

    /// A trace has left the full buffer undecided.
    pub fn evicted<R: Wait>(&self, rt: &R, evicted: &EvictedTrace) {
        self.tell(
            rt,
            Verdict::NotSampled,
            evicted.trace,
            evicted.moment,
            evicted.spans,
        );
    }

    /// A shard has taken late spans.
    pub fn late<R: Wait>(&self, rt: &R, late: &LateSpans) {
        self.tell(rt, late.verdict, late.trace, late.moment, late.spans);
    }

    /// Tells that so many spans of a trace, which came up to this moment, met this verdict.
    fn tell<R: Wait>(&self, rt: &R, verdict: Verdict, trace: TraceId, moment: u64, spans: u64) {
        let Some(ledger) = &self.ledger else {
            return;
        };
        let news = match verdict {
            Verdict::Sampled => LedgerNews::Released { trace, spans },
            Verdict::NotSampled => LedgerNews::Counted {
                trace,
                moment,
                spans,
            },
        };
        ledger.tell(rt, news);
    }

    /// A shard holds so much.
    pub fn holds(&self, shard: u16, load: &ShardLoad) {
        let Some(ledger) = &self.ledger else {
            return;
        };
        let oldest = if 0 < load.traces {
            Some(load.now.saturating_sub(load.waited))
        } else {
            None
        };
        ledger.stands(shard, load.now, oldest);
    }

    /// The exporter has taken this span.
    pub fn pulled<R: Wait>(&self, rt: &R, trace: TraceId, span: SpanId) {
        if let Some(ledger) = &self.ledger {
            ledger.pulled(rt, trace, span);
        }
    }

    /// So many spans that the exporter had taken are settled.
    pub fn settled(&self, spans: u64) {
        if let Some(ledger) = &self.ledger {
            ledger.settled(spans);
        }
    }
}
