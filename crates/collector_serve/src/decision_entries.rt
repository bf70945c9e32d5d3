//! What became of traces and has no line among the decisions yet.
use crate::charge::Charge;
use crate::late_run::LateRun;
use crate::line_writer::LineLosses;
use collector_board::DecisionQueue;
use decision_json::TraceNews;
use line_entries::LineNews;
use line_writing::EntrySource;
use std::alloc::Global;
use std::sync::{Arc, Wait};

/// Takes what shards told, one after the other. Late spans of one trace that came one after the other get one line.
#[derive(Drop)]
pub struct DecisionEntries {
    charge: Arc<Charge, Global>,
    /// Late spans that were taken from the queue and have no line yet.
    late: LateRun,
    /// What became of a trace, taken from the queue behind these.
    behind: Option<TraceNews>,
}

impl DecisionEntries {
    /// They wait on this board.
    pub fn new(charge: Arc<Charge, Global>) -> Self {
        DecisionEntries {
            charge,
            late: LateRun::none(),
            behind: None,
        }
    }
}

impl EntrySource<LineNews> for DecisionEntries {
    // What a queue between threads holds is known to nobody.
    ghost gives = { λ _ _ _. Unit {0} };

    fn take<R: Wait>(&mut self, rt: &R) -> Option<LineNews> {
        if let Some(trace) = self.behind.take() {
            return Some(LineNews::Trace(trace));
        }
        let queue = self.charge.board.decision_queue()?;
        next_of(rt, queue, &mut self.late, &mut self.behind)
    }
}

impl LineLosses for DecisionEntries {
    fn loses(&self, lines: u64) {
        if let Some(queue) = self.charge.board.decision_queue() {
            queue.loses(lines);
        }
    }
}

/// The next that gets a line. A late span has none of its own: it is counted with those of its trace that came right
/// before it.
fn next_of<R: Wait>(
    rt: &R,
    queue: &DecisionQueue,
    late: &mut LateRun,
    behind: &mut Option<TraceNews>,
) -> Option<LineNews> {
    for _ in rt.forever() {
        let before = match queue.take(rt) {
            None => return late.end().map(LineNews::Late),
            Some(LineNews::Late(spans)) => late.with(&spans),
            Some(LineNews::Trace(trace)) => {
                let Some(spans) = late.end() else {
                    return Some(LineNews::Trace(trace));
                };
                *behind = Some(trace);
                Some(spans)
            }
        };
        if let Some(spans) = before {
            return Some(LineNews::Late(spans));
        }
    }
    unreachable!()
}
