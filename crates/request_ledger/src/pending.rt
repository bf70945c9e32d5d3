//! Which spans of one trace have ended, by the notes of it.
ghost use Rattle.std.specs.Prelude.{◌≡◌, length, IfOk};
ghost use Rattle.request_ledger.specs.Pending.{HaveEnded, is_of, is_over, may_end, count_may_end, with_oldest, after_end, ended_spans};

use span_ids::{Moment, SpanId};
use std::alloc::{AllocError, Global};

/// A span that was received.
#[derive(Clone, Copy)]
pub struct LedgerSpan {
    /// Its id.
    pub span: SpanId,
    /// When it came, in milliseconds.
    pub moment: Moment,
}

/// What a note says has ended of a trace.
#[derive(Clone, Copy)]
pub enum LedgerEnd {
    /// A span with this id was handed over, or given up and counted.
    Handed(SpanId),
    /// So many spans, of those that came up to this moment, were counted as dropped.
    Counted { moment: Moment, spans: u64 },
}

/// Of each span of a trace whether it has ended. The spans stand in the order in which they came, and so do the ends.
///
/// `Handed` ends the first span with its id that hasn't ended. `Counted` ends the oldest spans that came up to its moment
/// and haven't ended, as many as it says, or none where there aren't so many.
pub fn ended_of(
    alloc: Global,
    spans: &[LedgerSpan],
    ends: &[LedgerEnd],
) -> Result<Vec<bool>, AllocError>
    ensures { IfOk result (λ ended. ended.items ≡ ended_spans spans.now ends.now) }
{
    let mut ended = vec![in alloc; false; spans.len()]?;
    let mut first = 0;
    for end in ends {
        first = next_pending(&ended, first);
        take_end(spans, &mut ended, first, end);
    }
    Ok(ended)
}

/// Whether each span of a trace has ended. Where one hasn't, the next start receives the trace again, whole: so it is decided
/// by all of its spans, and it doesn't matter which of them a note of some meant.
pub fn is_over(alloc: Global, spans: &[LedgerSpan], ends: &[LedgerEnd]) -> Result<bool, AllocError>
    ensures { IfOk result (λ over. over ≡ is_over spans.now ends.now) }
{
    let ended = ended_of(alloc, spans, ends)?;
    Ok(ended.iter().all(|ended| *ended))
}

/// The place of the first span that hasn't ended, where all before `from` have.
fn next_pending(ended: &[bool], from: usize) -> usize
    requires { HaveEnded from ended.now }
    ensures { HaveEnded result ended.now }
{
    for i in from..ended.len() {
        if !ended[i] {
            return i;
        }
    }
    ended.len()
}

/// Takes one end. All spans before `first` have ended.
fn take_end(spans: &[LedgerSpan], ended: &mut [bool], first: usize, end: &LedgerEnd)
    requires same { length ended.old ≡ length spans.now }
    requires front { HaveEnded first ended.old }
    ensures ended { ended.new ≡ after_end spans.now ended.old end.now }
    ensures front { HaveEnded first ended.new }
{
    match end {
        LedgerEnd::Handed(_) => end_oldest(end, 1, spans, ended, first),
        LedgerEnd::Counted { spans: n, .. } => {
            if *n <= count_may_end(end, spans, ended, first) {
                end_oldest(end, *n, spans, ended, first);
            }
        }
    }
}

/// Whether this span hasn't ended, and the end is of it.
fn may_end(end: &LedgerEnd, span: &LedgerSpan, ended: bool) -> bool
    ensures { result ≡ may_end end.now span.now ended }
{
    !ended && is_of(end, span)
}

fn is_of(end: &LedgerEnd, span: &LedgerSpan) -> bool
    ensures { result ≡ is_of end.now span.now }
{
    match end {
        LedgerEnd::Handed(id) => span.span == *id,
        LedgerEnd::Counted { moment, .. } => span.moment <= *moment,
    }
}

/// How many spans the end may end. All spans before `first` have ended.
fn count_may_end(end: &LedgerEnd, spans: &[LedgerSpan], ended: &[bool], first: usize) -> u64
    requires same { length ended.now ≡ length spans.now }
    requires front { HaveEnded first ended.now }
    ensures { result ≡ count_may_end end.now spans.now ended.now }
{
    let mut count = 0;
    for i in first..spans.len() {
        if may_end(end, &spans[i], ended[i]) {
            count += 1;
        }
    }
    count
}

/// Ends the oldest spans that the end may end, so many of them. All spans before `first` have ended.
fn end_oldest(end: &LedgerEnd, n: u64, spans: &[LedgerSpan], ended: &mut [bool], first: usize)
    requires same { length ended.old ≡ length spans.now }
    requires front { HaveEnded first ended.old }
    ensures ended { ended.new ≡ with_oldest end.now n spans.now ended.old }
    ensures front { HaveEnded first ended.new }
{
    let mut left = n;
    for i in first..spans.len() {
        if left == 0 {
            return;
        }
        if may_end(end, &spans[i], ended[i]) {
            ended[i] = true;
            left -= 1;
        }
    }
}
