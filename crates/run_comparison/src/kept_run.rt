//! What one run decided and kept, told while it runs.
ghost use Rattle.std.specs.Prelude.{◌≡◌, map, string_bytes, option_map, IfOk, OnErr, OnOk};
ghost use Rattle.run_comparison.specs.Ends.{decided_end, with_end};
ghost use Rattle.run_comparison.specs.Policies.{kept_by_all};
ghost use Rattle.run_comparison.specs.Run.{decider_of, kept_by_decision, no_run, with_decision, with_eviction, with_late_span};
ghost use Rattle.run_comparison.specs.Services.{KeepsFront, with_places, with_spans};

use crate::amount::Amount;
use crate::end::{HowEnded, decided_end, evicted_end};
use crate::policies::PolicyAmounts;
use crate::service_name::service_of;
use crate::services::Services;
use crate::steps::Steps;
use crate::traces::Traces;
use decision_line::{DecidedTrace, EvictedTrace};
use otlp_types::Arrival;
use span_ids::{TraceId, Verdict};
use span_size::{size_of, span_size};
use std::alloc::{AllocError, Global};
use std::marker::Model;

/// What one run decided and kept.
///
/// It takes memory for at most [`MOST_TRACES`](crate::MOST_TRACES) traces and [`MOST_SERVICES`](crate::MOST_SERVICES)
/// services.
#[derive(Drop)]
pub struct KeptRun {
    names: Vec<String>,
    traces: Traces,
    policies: PolicyAmounts,
    services: Services,
    steps: Steps,
}

impl Model for KeptRun {
    ghost use Rattle.std.specs.Prelude.{map, string_bytes};
    ghost use Rattle.run_comparison.specs.Policies.{kept_by_all};
    ghost use Rattle.run_comparison.specs.Run.{Run};

    ghost Value = { Run };

    ghost view = { λ r. record { names = map string_bytes r.names.items; traces = r.traces; policies = r.policies; services = r.services; steps = r.steps } };
}

/// Services get places. `Err` where memory was refused: some of them may have.
#[tactic(auto, using(crate::proofs::Fronts::front_goes_on))]
fn place_all(services: &mut Services, spans: &[Arrival]) -> Result<(), AllocError>
    ensures placed { OnOk result (services.new ≡ with_places services.old spans.now) }
    ensures front { KeepsFront services.old services.new }
{
    for span in spans {
        services.place(service_of(span))?;
    }
    Ok(())
}

/// Spans are counted, each with those of its service.
fn add_all(services: &mut Services, spans: &[Arrival])
    ensures { services.new ≡ with_spans services.old spans.now }
{
    for span in spans {
        services.add(service_of(span));
    }
}

/// What a decision kept: these spans.
fn kept_by_decision(decision: &DecidedTrace, spans: &[Arrival]) -> Amount
    ensures { result ≡ kept_by_decision decision.now spans.now }
{
    let traces = match decision.verdict {
        Verdict::Sampled => 1,
        Verdict::NotSampled => 0,
    };
    Amount {
        traces,
        spans: spans.len() as u64,
        bytes: size_of(spans),
    }
}

/// The trace of a span.
fn trace_of(span: &Arrival) -> Option<TraceId>
    ensures { result ≡ option_map (λ ids. ids.trace) span.now.rec.span.ids }
{
    match &span.rec.span.get().ids {
        Some(ids) => Some(ids.trace),
        None => None,
    }
}

/// The place of the policy that decided the trace of a span, where its last end was decided, and stands in the table.
fn decider_of(traces: &Traces, span: &Arrival) -> Option<usize>
    ensures { result ≡ decider_of traces.now span.now }
{
    match traces.end_of(trace_of(span)?)?.how {
        HowEnded::Decided { decider, .. } => decider,
        HowEnded::Evicted => None,
    }
}

impl KeptRun {
    /// A run by policies of these names, in their order, that has decided nothing. `Err` where memory was refused.
    pub fn new(alloc: Global, names: Vec<String>) -> Result<KeptRun, AllocError>
        ensures { IfOk result (λ r. r ≡ no_run (map string_bytes names.items)) }
    {
        let policies = PolicyAmounts::new(alloc, names.len())?;
        let services = Services::new(alloc)?;
        let steps = Steps::new(alloc)?;
        Ok(KeptRun {
            names,
            traces: Traces::new(alloc),
            policies,
            services,
            steps,
        })
    }

    /// All that takes memory for a decision: the services get places, and the trace's end is told. `Err` where memory was
    /// refused: all is as it was.
    #[tactic(auto, using(crate::proofs::Fronts::front_back))]
    fn make_room(&mut self, decision: &DecidedTrace, released: &[Arrival]) -> Result<(), AllocError>
        ensures made { OnOk result (self.new ≡ record self.old {
          traces = with_end self.old.traces decision.now.trace (decided_end decision.now);
          services = with_places self.old.services released.now;
        }) }
        ensures same { OnErr result (self.new ≡ self.old) }
    {
        let places = self.services.len();
        let placed = place_all(&mut self.services, released);
        if placed.is_ok()
            && self
                .traces
                .put(decision.trace, decided_end(decision))
                .is_ok()
        {
            return Ok(());
        }
        self.services.truncate(places);
        Err(AllocError)
    }

    /// A trace was decided; these spans of it are handed over, where it is sampled. `Err` where memory was refused: all
    /// is as it was.
    pub fn decided(
        &mut self,
        decision: &DecidedTrace,
        released: &[Arrival],
    ) -> Result<(), AllocError>
        ensures told { OnOk result (self.new ≡ with_decision self.old decision.now released.now) }
        ensures same { OnErr result (self.new ≡ self.old) }
    {
        self.make_room(decision, released)?;
        let amount = kept_by_decision(decision, released);
        self.policies.add(decision.decider, amount);
        add_all(&mut self.services, released);
        self.steps.add(decision.moment, amount.spans);
        Ok(())
    }

    /// A trace left the full buffer undecided. `Err` where memory was refused: all is as it was.
    pub fn evicted(&mut self, evicted: &EvictedTrace) -> Result<(), AllocError>
        ensures told { OnOk result (self.new ≡ with_eviction self.old evicted.now) }
        ensures same { OnErr result (self.new ≡ self.old) }
    {
        self.traces.put(evicted.trace, evicted_end(evicted))
    }

    /// A span of a sampled trace came late, at a moment in milliseconds, and is handed over: it counts under its
    /// trace's policy, where the trace's last end stands here, and else under none. `Err` where memory was refused: all
    /// is as it was.
    pub fn kept_late(&mut self, moment: u64, span: &Arrival) -> Result<(), AllocError>
        ensures told { OnOk result (self.new ≡ with_late_span self.old moment span.now) }
        ensures same { OnErr result (self.new ≡ self.old) }
    {
        let decider = decider_of(&self.traces, span);
        let service = service_of(span);
        self.services.place(service)?;
        self.services.add(service);
        let amount = Amount {
            traces: 0,
            spans: 1,
            bytes: span_size(span.rec.span.get()),
        };
        self.policies.add(decider, amount);
        self.steps.add(moment, 1);
        Ok(())
    }

    /// The names of the policies, in their order.
    pub fn names(&self) -> &[String]
        ensures { map string_bytes result.now ≡ self.now.names }
    {
        &self.names
    }

    /// The last end of each trace.
    pub fn traces(&self) -> &Traces
        ensures { result.now ≡ self.now.traces }
    {
        &self.traces
    }

    /// What all policies kept, and what was kept without one.
    pub fn kept(&self) -> Amount
        ensures { result ≡ kept_by_all self.now.policies }
    {
        self.policies.all()
    }

    /// What each policy kept.
    pub fn policies(&self) -> &PolicyAmounts
        ensures { result.now ≡ self.now.policies }
    {
        &self.policies
    }

    /// The spans that were kept of each service.
    pub fn services(&self) -> &Services
        ensures { result.now ≡ self.now.services }
    {
        &self.services
    }

    /// The spans that were kept over time.
    pub fn steps(&self) -> &Steps
        ensures { result.now ≡ self.now.steps }
    {
        &self.steps
    }
}
