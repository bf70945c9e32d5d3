//! The buffer and the cache of a shard, and how it decides.
ghost use Rattle.std.specs.Prelude.{◌≡◌, ◌⊎◌, ◌-◌, ◌^◌, min, ℕ, replicate, [], ◌∷◌, ◌++◌, ◌+◌, ◌/◌, if◌then◌else◌, ◌<◌, ◌≤◌, max, Bool, IsTrue, IsSome, true, false, length, OnOk, IfOk, IsErr, position, find, option_map, Some, None};
ghost use Rattle.std.specs.List.{list_all};
ghost use Rattle.span_ids.specs.declared.outcome.Reason.{Reason};
ghost use Rattle.span_ids.specs.Same.{same_trace};
ghost use Rattle.journal_theory.specs.Journal.{Journal, IsAnswered};
ghost use Rattle.policy_tree.specs.Tree.{limiters};
ghost use Rattle.policy_tree.specs.Meaning.{meaning};
ghost use Rattle.policy_eval.specs.Meaning.{knows};
ghost use Rattle.policy_eval.specs.Given.{EvaluatesWithAnswers};
ghost use Rattle.policy_eval.specs.Searches.{are_known};
ghost use Rattle.policy_tree.specs.Expressions.{expressions_in};
ghost use Rattle.journal_theory.specs.Fate.{effect, effect_dealt, released_dealt, dropped_dealt};
ghost use Rattle.shard_core.specs.Taking.{Releases, is_kept};
ghost use Rattle.trace_buffer.specs.Buffer.{Appended, Opened, is_due_at, is_new, opened_by, stands_undecided};
ghost use Rattle.shard_core.specs.Holding.{answer_to_append, policies_on};

use crate::answer::{Decided, Decision, DueTrace, Taken, late};
use crate::ends::all_but;
use crate::held::held_by;
use crate::keeping::{appended, opened};
use crate::setup::{ShardSetup, Waits, nothing_held};
use crate::telling::cause_of;
use arrayvec::ArrayVec;
use decision_cache::DecisionCache;
use decision_line::TraceHeld;
use otlp_types::{Arrival, Ids, Item};
use policy_eval::{Evaluation, Searches, evaluate_with_answers, searches_for};
use policy_tree::Policies;
use rate_budget::Limiter;
use span_ids::{Moment, Reason, TraceId, Verdict};
use std::alloc::{AllocError, Global};
use std::marker::Model;
use trace_buffer::{Episode, Evicted, State, TraceBuffer};

/// A shard.
///
/// Its clock is the greatest moment of the spans and ticks that it has taken, 0 at first. Its mark is the clock at the
/// last tick. A caller hands it an item by `take`, then calls `decide` until the answer is `Nothing`, and so on until
/// `take` answers `Finished` and the last traces are decided.
#[derive(Drop)]
pub struct Shard {
    policies: Policies,
    /// For the expressions of the policies.
    searches: Searches,
    waits: Waits,
    buffer: TraceBuffer,
    cache: DecisionCache,
    clock: Moment,
    mark: Moment,
    ends: Vec<bool>,
}

impl Model for Shard {
    ghost use Rattle.std.specs.Prelude.{◌<◌, ◌≡◌, true};
    ghost use Rattle.shard_core.specs.Held.{Held, held_of};
    ghost use Rattle.shard_core.specs.Forgotten.{traces, have_spans, AreForgotten};
    ghost use Rattle.trace_buffer.specs.Buffer.{opened_by};
    ghost use Rattle.policy_eval.specs.Searches.{are_known};
    ghost use Rattle.policy_tree.specs.Expressions.{expressions_in};
    ghost use Rattle.policy_tree.specs.Meaning.{meaning};
    ghost use Rattle.std.specs.Coded.{codes};
    ghost use Rattle.otlp_types.specs.contracts.value.AnyValue as any_value;
    ghost use Rattle.policy_tree.specs.contracts.policy.PolicyKind as kind;

    ghost Value = { Held };

    ghost coded = { Prim.hlevel (codes, any_value.the_row.coded, kind.the_row.coded) };

    ghost view = { λ s. held_of s.policies s.waits s.buffer s.cache s.clock s.mark s.ends.items };

    ghost invariant = { λ s. (0 < s.waits.decision_wait) × (0 < s.buffer.num_traces) × (have_spans s.buffer.episodes ≡ true) × (opened_by s.clock s.buffer.episodes ≡ true) × AreForgotten (traces s.buffer.episodes) s.cache × (are_known s.searches (expressions_in (meaning s.policies)) ≡ true) };
}

impl Shard {
    ghost use Rattle.shard_core.specs.Held.{StandsFor, has_due, is_finished, due_by, settings, settings_of};
    ghost use Rattle.shard_core.specs.Taking.{entry, ends_after, answer_to, is_refusal, is_kept, only_clock, TellsFate, is_last, released_by, dropped_by, Decides, DecidesWithDecider, DecidesWithAnswers, waiting, released_in, dropped_in, dealt_after};
    ghost use Rattle.std.specs.Prelude.{drop};
    ghost use Rattle.journal_theory.specs.Journal.{due_now, has_ids, finding, notes};
    ghost use Rattle.journal_theory.specs.Marked.{marks_apply};
    ghost use Rattle.shard_core.specs.Telling.{due_trace, next_told};
    ghost use Rattle.shard_core.specs.HeldTrace.{trace_held, state_told};
    ghost use Rattle.journal_theory.specs.Laws.{state_found};
    ghost use Rattle.shard_core.specs.Holding.{held_after_tick, held_after_end, TakesSpan};
    ghost use Rattle.trace_buffer.specs.Buffer.{traces_waiting, spans_waiting};

    /// A shard that has taken nothing. `Err` where memory was refused, or an expression of the policies is none.
    pub fn new(alloc: Global, policies: Policies, setup: ShardSetup) -> Result<Shard, AllocError>
        requires waits { 0 < setup.waits.decision_wait }
        requires keeps_a_trace { 0 < setup.num_traces }
        requires has_senders { 0 < setup.senders }
        ensures stands { IfOk result (λ shard. StandsFor shard [] 0) }
        ensures policies { IfOk result (λ shard. shard.policies ≡ policies) }
        ensures settings { IfOk result (λ shard. settings shard ≡ settings_of policies setup.waits setup.num_traces setup.sampled_cache_size setup.non_sampled_cache_size setup.senders) }
        ensures nothing_due { IfOk result (λ shard. has_due shard ≡ false) }
        ensures running { IfOk result (λ shard. is_finished shard ≡ false) }
        ensures ends { IfOk result (λ shard. shard.standing.ends ≡ replicate setup.senders false) }
    {
        let searches = searches_for(alloc, &policies)?;
        match nothing_held(alloc, setup) {
            Ok((buffer, cache, ends)) => Ok(Shard {
                policies,
                searches,
                waits: setup.waits,
                buffer,
                cache,
                clock: 0,
                mark: 0,
                ends,
            }),
            Err(error) => Err(error),
        }
    }

    /// Whether a trace is to be decided before the next item.
    pub fn has_due(&self) -> bool
        ensures { result ≡ has_due self.now }
    {
        let (mark, decision_wait, root_wait) = self.due_by();
        self.buffer
            .next_due(mark, decision_wait, root_wait)
            .is_some()
    }

    /// The mark by which, and the wait after which a trace is due: once all senders have ended, each is.
    fn due_by(&self) -> (Moment, Moment, Moment)
        ensures { result ≡ due_by self.now }
    {
        if self.finished() {
            // No episode opened after the clock, so without a wait each is due.
            (self.clock, 0, 0)
        } else {
            (self.mark, self.waits.decision_wait, self.waits.root_wait)
        }
    }

    /// Its clock, in milliseconds.
    pub fn clock(&self) -> Moment
        ensures { result ≡ self.now.standing.clock }
    {
        self.clock
    }

    /// How many traces wait for their decision, and how many spans they have, at most 2^64-1. It walks over all.
    pub fn waiting(&self) -> (u64, u64)
        ensures traces { result.0 ≡ traces_waiting self.now.standing.episodes }
        ensures spans { result.1 ≡ min (spans_waiting self.now.standing.episodes) (2 ^ 64 - 1) }
    {
        self.buffer.waiting()
    }

    /// When the trace opened that has waited longest of those that wait for their decision: the first that were due at
    /// the last moment that there is, without a wait.
    pub fn oldest_waiting(&self) -> Option<Moment>
        ensures { result ≡ option_map (λ e. e.moment) (find (is_due_at (2 ^ 64 - 1) 0 0) self.now.standing.episodes) }
    {
        match self.buffer.next_due(Moment::MAX, 0, 0) {
            Some(episode) => Some(episode.moment()),
            None => None,
        }
    }

    /// What it holds of a trace, which stays as it is: none that is remembered is so for longer. Where nothing is due,
    /// the trace stands as a span of it would find it, by all that was taken.
    pub fn held_of(&self, trace: TraceId) -> TraceHeld
        ensures held { result ≡ trace_held trace self.now }
        ensures found { (past : Journal) (dealt : ℕ) → StandsFor self.now past dealt → has_due self.now ≡ false → is_finished self.now ≡ false →
            state_told result ≡ state_found (finding (settings self.now) (notes (settings self.now) past) trace) }
    {
        held_by(self.buffer.get(trace), &self.cache, trace)
    }

    /// Whether every sender has ended.
    pub fn finished(&self) -> bool
        ensures { result ≡ is_finished self.now }
    {
        self.ends.iter().all(|ended| *ended)
    }

    /// Whether every sender has ended once this item is taken.
    pub fn finishes_with(&self, item: &Item) -> bool
        requires running { is_finished self.now ≡ false }
        ensures { result ≡ list_all (λ b. b) (ends_after item.now self.now.standing.ends) }
    {
        match item {
            Item::End(sender) => all_but(&self.ends, *sender as usize),
            Item::Span(_) | Item::Tick(_) => false,
        }
    }

    /// Takes an item. A span has valid ids. An `End` taken before, or of no sender, changes nothing.
    ///
    /// Memory is taken only to keep a span, and to remember the verdict of an episode that leaves. A span that is
    /// refused changes the clock alone; a verdict that is lost changes nothing else. Where there is said to be no
    /// memory, no span is kept: each that isn't late is refused.
    pub fn take(&mut self, item: Item, has_memory: bool) -> Taken
        requires nothing_due { has_due self.old ≡ false }
        requires running { is_finished self.old ≡ false }
        requires ids { has_ids item ≡ true }
        ensures stands { (past : Journal) (dealt : ℕ) → StandsFor self.old past dealt → StandsFor self.new (entry item result ∷ past) 0 }
        ensures answer { (past : Journal) (dealt : ℕ) → StandsFor self.old past dealt → result ≡ answer_to (settings self.old) (entry item result) past }
        ensures marks { (past : Journal) (dealt : ℕ) → StandsFor self.old past dealt → marks_apply (settings self.old) (entry item result) past ≡ true }
        ensures fate { (past : Journal) (dealt : ℕ) → StandsFor self.old past dealt → TellsFate (settings self.old) past item result }
        ensures released { (past : Journal) (dealt : ℕ) → StandsFor self.old past dealt → released_dealt (settings self.old) (entry item result ∷ past) 0 ≡ released_dealt (settings self.old) past dealt ++ released_by result }
        ensures dropped { (past : Journal) (dealt : ℕ) (reason : Reason) → StandsFor self.old past dealt → dropped_dealt (settings self.old) (entry item result ∷ past) 0 reason ≡ dropped_dealt (settings self.old) past dealt reason + dropped_by reason result }
        ensures refused { is_refusal result ≡ true → self.new ≡ only_clock item self.old }
        ensures no_memory { has_memory ≡ false → is_kept result ≡ false }
        ensures finished { is_finished self.new ≡ is_last result }
        ensures ends { self.new.standing.ends ≡ ends_after item self.old.standing.ends }
        ensures policies { self.new.policies ≡ self.old.policies }
        ensures settings { settings self.new ≡ settings self.old }
    {
        // A look at a field: what holds of every shard is known below.
        let _ = &self.policies;
        match item {
            Item::Span(arrival) => self.take_span(arrival, has_memory),
            Item::Tick(moment) => self.take_tick(moment),
            Item::End(sender) => self.take_end(sender as usize),
        }
    }

    fn take_span(&mut self, arrival: Arrival, has_memory: bool) -> Taken
        requires { IsSome arrival.rec.span.ids }
        ensures takes { TakesSpan self.old arrival arrival.rec.span.ids result self.new }
        ensures no_memory { has_memory ≡ false → is_kept result ≡ false }
    {
        self.clock = arrival.moment.max(self.clock);
        let ids = ids_of(&arrival).unwrap();
        // The other id is read for the proof: the borrow checker's part must see each type that a lent span has.
        let (trace, _span) = (ids.trace, ids.span);
        // Looked up here and again by `append`: what becomes of it is the shard's rule, its place the buffer's (D-285).
        match self.buffer.find(trace) {
            Some(State::Undecided) => {
                appended(append(&mut self.buffer, arrival, self.clock, has_memory))
            }
            Some(State::Decided(verdict)) => late(arrival, verdict),
            None => match self.cache.ask(trace) {
                Some(verdict) => late(arrival, verdict),
                None => opened(
                    &mut self.cache,
                    open(
                        &mut self.buffer,
                        arrival,
                        self.clock,
                        self.waits.maximum_trace_size,
                        has_memory,
                    ),
                ),
            },
        }
    }

    fn take_tick(&mut self, moment: Moment) -> Taken
        ensures answer { result ≡ Taken.Ticked }
        ensures after { self.new ≡ record self.old { standing = held_after_tick moment self.old.standing } }
    {
        self.clock = moment.max(self.clock);
        self.mark = self.clock;
        Taken::Ticked
    }

    fn take_end(&mut self, sender: usize) -> Taken
        ensures answer { result ≡ (if is_finished self.new then Taken.Finished else Taken.Ended) }
        ensures after { self.new ≡ record self.old { standing = held_after_end sender self.old.standing } }
    {
        // One of no sender changes nothing, and so does one that was taken before.
        if sender < self.ends.len() {
            self.ends[sender] = true;
        }
        if self.finished() {
            Taken::Finished
        } else {
            Taken::Ended
        }
    }

    /// Looks for the due trace that was opened first. The buffer keeps how far it looked: all decisions at a mark look
    /// through it once.
    fn search(&mut self)
        ensures { self.new ≡ self.old }
    {
        let (mark, decision_wait, root_wait) = self.due_by();
        self.buffer.search(mark, decision_wait, root_wait);
    }

    /// Decides the due trace that was opened first. It takes no memory that can be refused, and waits only where the
    /// limiter does.
    ///
    /// The limiter is one of the policies' limiter nodes, and is asked just what they ask for the trace's spans. Where
    /// no trace is due, or the trace is too big, it isn't asked: that isn't sampled, whatever the policies are.
    pub fn decide<L: Limiter>(&mut self, limiter: &mut L) -> Decided
        requires nodes { knows (L.has_node limiter.old) (limiters (meaning self.old.policies)) ≡ true }
        ensures decides { Decides L.asks self.old self.new result limiter.old limiter.new }
        ensures unchanged { result ≡ Decided.Nothing → (self.new ≡ self.old) × (limiter.new ≡ limiter.old) }
        ensures keeps { (node : ℕ) → L.has_node limiter.new node ≡ L.has_node limiter.old node }
        ensures all_dealt { result ≡ Decided.Nothing → (past : Journal) (dealt : ℕ) → StandsFor self.old past dealt → effect_dealt (settings self.old) past dealt ≡ effect (settings self.old) past }
        ensures answered { result ≡ Decided.Nothing → (past : Journal) (dealt : ℕ) → StandsFor self.old past dealt → IsAnswered (settings self.old) past }
        ensures nothing { result ≡ Decided.Nothing → has_due self.new ≡ false }
        ensures fewer { (result ≡ Decided.Nothing) ⊎ (waiting self.new < waiting self.old) }
        ensures finished { is_finished self.new ≡ is_finished self.old }
        ensures ends { self.new.standing.ends ≡ self.old.standing.ends }
        ensures policies { self.new.policies ≡ self.old.policies }
        ensures settings { settings self.new ≡ settings self.old }
    {
        self.decide_with_decider(limiter).0
    }

    /// The same, with the place of the policy that decided, from 0 on: none where none did, since none samples, or
    /// nothing is due.
    pub fn decide_with_decider<L: Limiter>(&mut self, limiter: &mut L) -> (Decided, Option<usize>)
        requires nodes { knows (L.has_node limiter.old) (limiters (meaning self.old.policies)) ≡ true }
        ensures decides { DecidesWithDecider L.asks self.old self.new result.0 result.1 limiter.old limiter.new }
        ensures unchanged { result.0 ≡ Decided.Nothing → (self.new ≡ self.old) × (limiter.new ≡ limiter.old) }
        ensures keeps { (node : ℕ) → L.has_node limiter.new node ≡ L.has_node limiter.old node }
        ensures all_dealt { result.0 ≡ Decided.Nothing → (past : Journal) (dealt : ℕ) → StandsFor self.old past dealt → effect_dealt (settings self.old) past dealt ≡ effect (settings self.old) past }
        ensures answered { result.0 ≡ Decided.Nothing → (past : Journal) (dealt : ℕ) → StandsFor self.old past dealt → IsAnswered (settings self.old) past }
        ensures nothing { result.0 ≡ Decided.Nothing → has_due self.new ≡ false }
        ensures fewer { (result.0 ≡ Decided.Nothing) ⊎ (waiting self.new < waiting self.old) }
        ensures finished { is_finished self.new ≡ is_finished self.old }
        ensures ends { self.new.standing.ends ≡ self.old.standing.ends }
        ensures policies { self.new.policies ≡ self.old.policies }
        ensures settings { settings self.new ≡ settings self.old }
    {
        let Decision {
            decided,
            decider,
            answers: _,
        } = self.decide_with_answers(limiter);
        (decided, decider)
    }

    /// The same, with what each policy answered, in order: nothing where none was asked, since the trace is too big, or
    /// nothing is due.
    pub fn decide_with_answers<L: Limiter>(&mut self, limiter: &mut L) -> Decision
        requires nodes { knows (L.has_node limiter.old) (limiters (meaning self.old.policies)) ≡ true }
        ensures decides { DecidesWithAnswers L.asks self.old self.new result.decided result.decider result.answers.items limiter.old limiter.new }
        ensures unchanged { result.decided ≡ Decided.Nothing → (self.new ≡ self.old) × (limiter.new ≡ limiter.old) }
        ensures keeps { (node : ℕ) → L.has_node limiter.new node ≡ L.has_node limiter.old node }
        ensures all_dealt { result.decided ≡ Decided.Nothing → (past : Journal) (dealt : ℕ) → StandsFor self.old past dealt → effect_dealt (settings self.old) past dealt ≡ effect (settings self.old) past }
        ensures answered { result.decided ≡ Decided.Nothing → (past : Journal) (dealt : ℕ) → StandsFor self.old past dealt → IsAnswered (settings self.old) past }
        ensures nothing { result.decided ≡ Decided.Nothing → has_due self.new ≡ false }
        ensures fewer { (result.decided ≡ Decided.Nothing) ⊎ (waiting self.new < waiting self.old) }
        ensures finished { is_finished self.new ≡ is_finished self.old }
        ensures ends { self.new.standing.ends ≡ self.old.standing.ends }
        ensures policies { self.new.policies ≡ self.old.policies }
        ensures settings { settings self.new ≡ settings self.old }
    {
        // It goes on from where it came to, as long as mark and waits are the same (D-084).
        self.search();
        let (mark, decision_wait, root_wait) = self.due_by();
        let now = self.clock;
        let Some(episode) = self.buffer.next_due(mark, decision_wait, root_wait) else {
            return Decision {
                decided: Decided::Nothing,
                decider: None,
                answers: ArrayVec::new(),
            };
        };
        let Evaluation {
            verdict,
            decider,
            answers,
        } = decide_on(&self.policies, episode, now, limiter, &mut self.searches);
        let spans = self.buffer.settle(mark, decision_wait, root_wait, verdict);
        Decision {
            decided: decided(verdict, spans),
            decider,
            answers,
        }
    }

    /// The trace that is decided next, if one is due.
    pub fn next_due(&mut self) -> Option<DueTrace>
        ensures due { result ≡ due_trace self.old }
        ensures told { (past : Journal) (dealt : ℕ) → StandsFor self.old past dealt → result ≡ next_told (settings self.old) past (drop dealt (due_now (settings self.old) past)) }
        ensures same { self.new ≡ self.old }
    {
        self.search();
        let (mark, decision_wait, root_wait) = self.due_by();
        let finished = self.finished();
        match self.buffer.next_due(mark, decision_wait, root_wait) {
            Some(episode) => Some(DueTrace {
                trace: episode.trace(),
                opened: episode.moment(),
                moment: self.clock,
                spans: episode.spans().len() as u64,
                cause: cause_of(episode, finished, mark, decision_wait),
            }),
            None => None,
        }
    }
}

/// What the policies make of an episode's spans: no policy is asked where it is too big.
fn decide_on<L: Limiter>(
    policies: &Policies,
    episode: &Episode,
    now: Moment,
    limiter: &mut L,
    searches: &mut Searches,
) -> Evaluation
    requires nodes { knows (L.has_node limiter.old) (limiters (meaning policies.now)) ≡ true }
    requires spans { 0 < length episode.now.spans }
    requires expressions { are_known searches.old (expressions_in (meaning policies.now)) ≡ true }
    ensures evaluates { EvaluatesWithAnswers L.asks (policies_on (meaning policies.now) episode.now) (now / 1000) episode.now.spans result.verdict result.decider result.answers.items limiter.old limiter.new }
    ensures keeps { (m : ℕ) → L.has_node limiter.new m ≡ L.has_node limiter.old m }
    ensures same { searches.new ≡ searches.old }
{
    // No policy is asked: so the maximum holds against each, and no limiter pays for what isn't kept (D-064).
    if episode.is_too_big() {
        return Evaluation {
            verdict: Verdict::NotSampled,
            decider: None,
            answers: ArrayVec::new(),
        };
    }
    evaluate_with_answers(policies, episode.spans(), now, limiter, searches)
}

/// Appends a span to its trace's episode, if there is memory.
fn append(
    buffer: &mut TraceBuffer,
    arrival: Arrival,
    clock: Moment,
    has_memory: bool,
) -> Result<(), (Arrival, AllocError)>
    requires { stands_undecided arrival.rec.span.ids buffer.old.episodes ≡ true }
    ensures appended { Appended buffer.old arrival arrival.rec.span.ids clock result buffer.new }
    ensures no_memory { has_memory ≡ false → is_kept (answer_to_append result) ≡ false }
{
    // A brake counts as memory that was refused, so that for the core it is the same input (D-173).
    if has_memory {
        buffer.append(arrival, clock)
    } else {
        Err((arrival, AllocError))
    }
}

/// Opens an episode with a span, if there is memory.
fn open(
    buffer: &mut TraceBuffer,
    first: Arrival,
    clock: Moment,
    maximum_trace_size: u64,
    has_memory: bool,
) -> Result<Option<Evicted>, (Arrival, AllocError)>
    requires ids { IsSome first.rec.span.ids }
    requires unknown { is_new first.rec.span.ids buffer.old.episodes ≡ true }
    requires clock { opened_by clock buffer.old.episodes ≡ true }
    ensures opened { Opened buffer.old first first.rec.span.ids clock maximum_trace_size result buffer.new }
    ensures no_memory { has_memory ≡ false → IsErr result }
{
    if has_memory {
        buffer.open(first, clock, maximum_trace_size)
    } else {
        Err((first, AllocError))
    }
}

/// What is answered for the spans of an episode by its verdict.
fn decided(verdict: Verdict, spans: Vec<Arrival>) -> Decided
    ensures { Releases result spans.items verdict }
{
    match verdict {
        Verdict::Sampled => Decided::Release(spans),
        Verdict::NotSampled => Decided::Dropped(spans.len() as u64),
    }
}

fn ids_of(arrival: &Arrival) -> Option<Ids>
    ensures { result ≡ arrival.now.rec.span.ids }
{
    arrival.rec.span.get().ids
}
