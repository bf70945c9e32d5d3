//! The lines of decided and evicted traces and of late spans.
ghost use Rattle.std.specs.Prelude.{◌≡◌, ℕ, List, ◌++◌, map, string_bytes, take};
ghost use Rattle.std.specs.Bool.{OnTrue, OnFalse};
ghost use Rattle.line_entries.specs.DecisionLines.{IsNewsLine, trace_line};

use crate::line_news::LineNews;
use decision_json::TraceNews;
use decision_line::{Said, put_decided, put_evicted, put_late};
use line_writing::LineMaker;
use std::marker::Model;

/// Makes a line of each decided and each evicted trace, and of late spans.
#[derive(Drop)]
pub struct DecisionLines {
    /// The names of the policies, in order.
    names: Vec<String>,
}

impl Model for DecisionLines {
    ghost use Rattle.std.specs.Prelude.{ℕ, List, map, string_bytes};

    ghost Value = { List (List ℕ) };

    ghost view = { λ lines. map string_bytes lines.names.items };
}

impl DecisionLines {
    /// Policies have these names, in order.
    pub fn new(names: Vec<String>) -> Self
        ensures { result ≡ map string_bytes names.items }
    {
        DecisionLines { names }
    }
}

impl LineMaker<LineNews> for DecisionLines {
    ghost is_line = { IsNewsLine };

    fn put(&self, text: &mut Vec<u8>, news: &LineNews) -> bool {
        match news {
            LineNews::Trace(trace) => put_trace(text, &self.names, trace),
            LineNews::Late(spans) => put_late(text, spans).is_ok(),
        }
    }
}

/// Puts the line of a trace, and says whether it is put.
fn put_trace(text: &mut Vec<u8>, names: &[String], news: &TraceNews) -> bool
    ensures put { OnTrue result (text.new.items ≡ text.old.items ++ trace_line (map string_bytes names.now) news.now) }
    ensures same { OnFalse result (text.new.items ≡ text.old.items) }
{
    match news {
        TraceNews::Decided { trace, said, asked } => {
            let told = first_said(said.as_slice(), *asked);
            put_decided(text, names, told, trace).is_ok()
        }
        TraceNews::Evicted(trace) => put_evicted(text, trace).is_ok(),
    }
}

/// What the policies said that were asked, which are so many.
#[tactic(auto, using(crate::proofs::Asked::first_of))]
fn first_said(said: &[Said], asked: usize) -> &[Said]
    ensures { result.now ≡ take asked said.now }
{
    &said[..asked.min(said.len())]
}
