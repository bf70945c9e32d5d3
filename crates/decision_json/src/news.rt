//! What became of a trace, kept until it is told.
ghost use Rattle.std.specs.Prelude.{◌≡◌, ℕ, List, take};
ghost use Rattle.decision_json.specs.News.{is_of};
ghost use Rattle.decision_json.specs.declared.news.TraceNews.TheVariants.{Decided};
ghost use Rattle.decision_line.specs.declared.decision.Said.{Said};

use decision_line::{DecidedTrace, EvictedTrace, Said};

/// Of at most so many policies it is kept what they said: a configuration has no more.
pub const MOST_SAID: usize = 64;

/// What became of a trace.
#[derive(Clone, Copy)]
pub enum TraceNews {
    /// It was decided, and the first so many policies said this.
    Decided {
        trace: DecidedTrace,
        said: [Said; MOST_SAID],
        asked: usize,
    },
    /// It left the full buffer undecided.
    Evicted(EvictedTrace),
}

impl TraceNews {
    /// A trace was decided, and the first policies said this.
    pub fn decided(trace: DecidedTrace, told: &[Said]) -> TraceNews
        ensures { (said : List Said) × (asked : ℕ) × (result ≡ Decided trace said asked) × (take asked said ≡ take MOST_SAID told.now) }
    {
        let mut said = [Said::NotAsked; MOST_SAID];
        let asked = told.len().min(MOST_SAID);
        said[..asked].copy_from_slice(&told[..asked]);
        TraceNews::Decided { trace, said, asked }
    }

    /// Whether it is of the trace whose id has these bytes.
    pub fn is_of(&self, id: &[u8]) -> bool
        ensures { result ≡ is_of id.now self.now }
    {
        let trace = match self {
            TraceNews::Decided { trace, .. } => trace.trace,
            TraceNews::Evicted(trace) => trace.trace,
        };
        trace.bytes().as_slice() == id
    }
}
