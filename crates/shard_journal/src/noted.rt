//! What is noted of a journal, the newest first: openings, decisions and touches.
ghost use Rattle.std.specs.Prelude.{◌≡◌, Bool, ◌==◌, ◌-◌, [], ◌∷◌, ◌&&◌, OnOk, position, find, option_copied, slice_get, length, option_map, is_none, nat_lt, not, take_while, if◌then◌else◌};
ghost use Rattle.std.specs.List.{list_any};
ghost use Rattle.std.specs.Coded.{codes};
ghost use Rattle.otlp_types.specs.contracts.value.AnyValue as any_value;
ghost use Rattle.span_ids.specs.Same.{same_trace};
ghost use Rattle.decision_cache.specs.Touches.{Touch as TouchData, is_same_verdict, last_touched, touches_since};
ghost use Rattle.journal_theory.specs.Journal.{Opening as OpeningData, Decision as DecisionData, Notes as NotesData, last_of, leaving};
ghost use Rattle.shard_journal.specs.Touched.{is_further, is_touched};

use span_ids::{Moment, TraceId, Verdict};
use std::alloc::{AllocError, Global};
use std::marker::Model;

/// An opening: its position, its trace, and the clock after its span.
#[derive(Clone, Copy)]
pub struct Opening {
    at: usize,
    trace: TraceId,
    moment: Moment,
}

impl Model for Opening {
    ghost Value = { OpeningData };

    ghost view = { λ o. record { at = o.at; trace = o.trace; moment = o.moment } };

    ghost inverse = { λ o. record { at = o.at; trace = o.trace; moment = o.moment } };
}

impl Opening {
    pub fn new(at: usize, trace: TraceId, moment: Moment) -> Opening
        ensures { result ≡ record { at = at; trace = trace; moment = moment } }
    {
        Opening { at, trace, moment }
    }

    pub fn at(&self) -> usize
        ensures { result ≡ self.now.at }
    {
        self.at
    }

    pub fn trace(&self) -> TraceId
        ensures { result ≡ self.now.trace }
    {
        self.trace
    }

    pub fn moment(&self) -> Moment
        ensures { result ≡ self.now.moment }
    {
        self.moment
    }

    pub fn is_of(&self, trace: TraceId) -> bool
        ensures { result ≡ same_trace self.now.trace trace }
    {
        self.trace == trace
    }
}

/// The decision of an episode. Its spans are left out.
#[derive(Clone, Copy)]
pub struct Decision {
    opening: Opening,
    verdict: Verdict,
}

impl Model for Decision {
    ghost Value = { DecisionData };

    ghost coded = { Prim.hlevel (codes, any_value.the_row.coded) };

    ghost view = { λ d. record { opening = d.opening; spans = []; verdict = d.verdict } };

    ghost inverse = { λ d. record { opening = d.opening; verdict = d.verdict } };
}

impl Decision {
    ghost use Rattle.std.specs.Prelude.{[]};

    pub fn new(opening: Opening, verdict: Verdict) -> Decision
        ensures { result ≡ record { opening = opening; spans = []; verdict = verdict } }
    {
        Decision { opening, verdict }
    }
}

/// A touch of an episode's verdict.
#[derive(Clone, Copy)]
pub struct Touch {
    episode: usize,
    trace: TraceId,
    verdict: Verdict,
}

impl Model for Touch {
    ghost Value = { TouchData };

    ghost view = { λ t. record { episode = t.episode; trace = t.trace; verdict = t.verdict } };

    ghost inverse = { λ t. record { episode = t.episode; trace = t.trace; verdict = t.verdict } };
}

impl Touch {
    ghost use Rattle.journal_theory.specs.Journal.{touch};

    pub fn new(opening: &Opening, verdict: Verdict) -> Touch
        ensures { result ≡ touch opening.now verdict }
    {
        Touch {
            episode: opening.at(),
            trace: opening.trace(),
            verdict,
        }
    }

    fn is_of(&self, trace: TraceId) -> bool
        ensures { result ≡ same_trace self.now.trace trace }
    {
        self.trace == trace
    }

    fn trace(&self) -> TraceId
        ensures { result ≡ self.now.trace }
    {
        self.trace
    }

    fn is_as(&self, verdict: Verdict) -> bool
        ensures { result ≡ is_same_verdict self.now.verdict verdict }
    {
        match (self.verdict, verdict) {
            (Verdict::Sampled, Verdict::Sampled) => true,
            (Verdict::NotSampled, Verdict::NotSampled) => true,
            _ => false,
        }
    }
}

/// What is noted, the newest first.
#[derive(Drop)]
pub struct Notes {
    openings: Vec<Opening>,
    decisions: Vec<Decision>,
    touches: Vec<Touch>,
}

impl Model for Notes {
    ghost Value = { NotesData };

    ghost coded = { Prim.hlevel (codes, any_value.the_row.coded) };

    ghost view = { λ n. record { openings = n.openings.items; decisions = n.decisions.items; touches = n.touches.items } };
}

impl Notes {
    ghost use Rattle.journal_theory.specs.Journal.{decided_as, latest_episode, no_notes};

    /// The notes of the empty journal.
    pub fn new(alloc: Global) -> Notes
        ensures { result ≡ no_notes }
    {
        Notes {
            openings: Vec::new(alloc),
            decisions: Vec::new(alloc),
            touches: Vec::new(alloc),
        }
    }

    pub fn openings(&self) -> &[Opening]
        ensures { result.now ≡ self.now.openings }
    {
        self.openings.as_slice()
    }

    pub fn touches(&self) -> &[Touch]
        ensures { result.now ≡ self.now.touches }
    {
        self.touches.as_slice()
    }

    /// The verdict of the episode that opened at this position, once it is decided.
    pub fn decided_as(&self, at: usize) -> Option<Verdict>
        ensures { result ≡ decided_as self.now at }
    {
        self.decisions
            .iter()
            .find(|decision| decision.opening.at == at)
            .map(|decision| decision.verdict)
    }

    /// The trace's latest opening.
    pub fn latest_episode(&self, trace: TraceId) -> Option<Opening>
        ensures { result ≡ latest_episode self.now trace }
    {
        latest_of(trace, self.openings.as_slice()).copied()
    }

    /// Notes an opening.
    pub fn open(&mut self, opening: Opening) -> Result<(), AllocError>
        ensures { OnOk result (self.new ≡ record self.old { openings = opening ∷ self.old.openings }) }
    {
        self.openings.insert(0, opening)?;
        Ok(())
    }

    /// Notes a decision.
    pub fn decide(&mut self, decision: Decision) -> Result<(), AllocError>
        ensures { OnOk result (self.new ≡ record self.old { decisions = decision ∷ self.old.decisions }) }
    {
        self.decisions.insert(0, decision)?;
        Ok(())
    }

    /// Notes a touch.
    pub fn touch(&mut self, touch: Touch) -> Result<(), AllocError>
        ensures { OnOk result (self.new ≡ record self.old { touches = touch ∷ self.old.touches }) }
    {
        self.touches.insert(0, touch)?;
        Ok(())
    }
}

fn latest_of(trace: TraceId, openings: &[Opening]) -> Option<&Opening>
    ensures { option_copied result ≡ find (λ o. same_trace o.trace trace) openings.now }
{
    openings.iter().find(|opening| opening.is_of(trace))
}

/// The last `num_traces` of some openings, or all.
pub fn last_of(num_traces: Option<usize>, openings: &[Opening]) -> &[Opening]
    ensures { result.now ≡ last_of num_traces openings.now }
{
    match num_traces {
        None => openings,
        Some(num_traces) => &openings[..num_traces.min(openings.len())],
    }
}

/// Whether one of some openings is at this position.
pub fn has_opening_at(openings: &[Opening], at: usize) -> bool
    ensures { result ≡ list_any (λ o. o.at == at) openings.now }
{
    openings.iter().any(|opening| opening.at() == at)
}

/// The opening of the episode that the next opening puts out of a full buffer.
pub fn leaving(num_traces: Option<usize>, openings: &[Opening]) -> Option<Opening>
    ensures { result ≡ leaving num_traces openings.now }
{
    match num_traces {
        None => None,
        Some(num_traces) => openings.get(num_traces.saturating_sub(1)).copied(),
    }
}

/// Whether one of some touches is of the episode that opened at this position.
pub fn has_touch_at(touches: &[Touch], at: usize) -> bool
    ensures { result ≡ list_any (λ u. u.episode == at) touches.now }
{
    touches.iter().any(|touch| touch.episode == at)
}

/// The touches since the trace's own last one.
pub fn touches_since(trace: TraceId, touches: &[Touch]) -> &[Touch]
    ensures { result.now ≡ touches_since trace touches.now }
{
    match place_of(trace, touches) {
        None => touches,
        Some(place) => &touches[..place],
    }
}

fn place_of(trace: TraceId, touches: &[Touch]) -> Option<usize>
    ensures { result ≡ position (λ u. same_trace u.trace trace) touches.now }
{
    touches.iter().position(|touch| touch.is_of(trace))
}

/// How many different traces were touched with this verdict.
pub fn count_touched(verdict: Verdict, touches: &[Touch]) -> usize
    ensures { result ≡ length (last_touched verdict touches.now) }
{
    let mut count = 0;
    for i in 0..touches.len() {
        let touch = touches[i];
        if is_further(verdict, touch, &touches[..i]) {
            count += 1;
        }
    }
    count
}

/// Whether a touch is of this verdict, and of a trace that no earlier one with it was of.
fn is_further(verdict: Verdict, touch: Touch, earlier: &[Touch]) -> bool
    ensures { result ≡ is_further verdict touch earlier.now }
{
    touch.is_as(verdict) && !is_touched(verdict, touch.trace(), earlier)
}

fn is_touched(verdict: Verdict, trace: TraceId, touches: &[Touch]) -> bool
    ensures { result ≡ is_touched verdict trace touches.now }
{
    touches
        .iter()
        .any(|touch| touch.is_as(verdict) && touch.is_of(trace))
}
