//! Worked runs.
use crate::tests::settings::plain_settings;
use otlp_types::{AnyValue, Boxed, KeyValue, List, Record, Span, Text};
use plain_shards::one_policy;
use plain_spans::{numbered_ids, plain_record};
use policy_tree::{Join, Leaf, Limit, Policies, Policy, PolicyKind, Wanted};
use span_ids::Reason;
use span_world::{CoreConfig, Step, StepRefusal, World};
use std::alloc::{AllocError, Global};
use std::process::Abort;
use std::test::Fail;

/// A step in a world of one lane and one shard: the receipt of a span of a trace at a moment, or of one of trace 1 at 0
/// whose request had this target; a tick by its moment; a decision by the limiter's answers; the End of a sender.
#[derive(Clone, Copy)]
enum Act<'a> {
    Receive(u8, u64),
    Request(&'a str),
    Route,
    Refuse,
    Take,
    Tick(u64),
    Decide(&'a [bool]),
    Ship,
    Pull,
    Hand,
    Close,
    End(u16),
    DropBatch(Reason),
    Fail,
}

/// One span until the shard took it.
const TAKEN: [Act<'static>; 3] = [Act::Receive(1, 0), Act::Route, Act::Take];

/// One span until it is due.
const DUE: [Act<'static>; 4] = [Act::Receive(1, 0), Act::Route, Act::Take, Act::Tick(10)];

/// One span from its receipt to the closed world.
const ONE_SPAN: [Act<'static>; 11] = [
    Act::Receive(1, 0),
    Act::Route,
    Act::Take,
    Act::Tick(10),
    Act::Decide(&[]),
    Act::Ship,
    Act::Pull,
    Act::Hand,
    Act::Close,
    Act::End(0),
    Act::End(1),
];

/// Every kind of step, `Fail` last and twice.
const ALL_KINDS: [Act<'static>; 17] = [
    Act::Receive(2, 20),
    Act::Route,
    Act::Take,
    Act::Tick(30),
    Act::Refuse,
    Act::Close,
    Act::End(0),
    Act::End(1),
    Act::End(2),
    Act::Decide(&[]),
    Act::Ship,
    Act::Pull,
    Act::Hand,
    Act::DropBatch(Reason::NoMemory),
    Act::DropBatch(Reason::ExporterDown),
    Act::Fail,
    Act::Fail,
];

/// The target of a request as an attribute.
fn attribute_of(alloc: Global, target: &str) -> Result<KeyValue, AllocError> {
    let value = Text::from_str(alloc, target)?;
    Ok(KeyValue {
        key: Text::from_str(alloc, "http.target")?,
        value: AnyValue::Str(value),
    })
}

/// A span of a request with this target.
fn span_of_target(alloc: Global, target: &str) -> Result<Span, AllocError> {
    let attribute = attribute_of(alloc, target)?;
    let mut span = Span::empty(alloc);
    span.ids = numbered_ids(1, true);
    span.attributes.push(attribute)?;
    Ok(span)
}

/// The same in a record.
fn record_of_target(alloc: Global, target: &str) -> Result<Record, AllocError> {
    let span = Boxed::new(alloc, span_of_target(alloc, target)?)?;
    let mut rec = plain_record(alloc, None, 0, 0, 0)?;
    rec.span = span;
    Ok(rec)
}

/// The receipt of this record.
fn receipt(alloc: Global, rec: Record, moment: u64) -> Result<Step, AllocError> {
    Ok(Step::Receive {
        lane: 0,
        ordinal: 0,
        moment,
        records: vec![in alloc; rec]?,
    })
}

/// The step of an act.
fn step_of(alloc: Global, act: Act<'_>) -> Result<Step, AllocError> {
    match act {
        Act::Receive(trace, moment) => receipt(
            alloc,
            plain_record(alloc, numbered_ids(trace, true), 0, 0, 0)?,
            moment,
        ),
        Act::Request(target) => receipt(alloc, record_of_target(alloc, target)?, 0),
        Act::Decide(answers) => Ok(Step::Decide {
            shard: 0,
            answers: Vec::from_slice(alloc, answers)?,
        }),
        other => Ok(plain_step(other)),
    }
}

/// The step of an act that holds no list.
fn plain_step(act: Act<'_>) -> Step {
    match act {
        Act::Route => Step::Route { lane: 0, shard: 0 },
        Act::Refuse => Step::Refuse { lane: 0, shard: 0 },
        Act::Take => Step::Take {
            shard: 0,
            refused: false,
            lost: false,
        },
        Act::Tick(moment) => Step::Tick { shard: 0, moment },
        Act::Ship => Step::Ship { shard: 0 },
        Act::Pull => Step::Pull,
        Act::Hand => Step::Hand,
        Act::Close => Step::Close { lane: 0 },
        Act::End(sender) => Step::End { shard: 0, sender },
        Act::DropBatch(reason) => Step::DropBatch { reason },
        _ => Step::Fail,
    }
}

/// The steps of acts.
fn steps_of(alloc: Global, acts: &[Act<'_>]) -> Result<Vec<Step>, AllocError> {
    let mut steps = Vec::new(alloc);
    for act in acts {
        steps.push(step_of(alloc, *act)?)?;
    }
    Ok(steps)
}

/// What acts did to a world: at which place, if at one, the first ones were refused, whether behind them one batch of
/// one span had been handed over, which of those that followed were enabled, and how many spans had been counted in the
/// end.
#[derive(Clone, Copy)]
struct Outcome {
    refused_at: Option<usize>,
    handed_one: bool,
    enabled: [bool; 17],
    counted: usize,
}

/// What acts do to a world that has made its first ones.
fn outcome_of(alloc: Global, world: &mut World, acts: &[Act<'_>]) -> Result<Outcome, AllocError> {
    let handed = world.handed();
    let handed_one = handed.len() == 1 && handed[0].len() == 1;
    let mut enabled = [false; 17];
    for (is_enabled, act) in enabled.iter_mut().zip(acts) {
        match world.step(step_of(alloc, *act)?) {
            Err(StepRefusal::NoMemory) => return Err(AllocError),
            answer => *is_enabled = answer.is_ok(),
        }
    }
    Ok(Outcome {
        refused_at: None,
        handed_one,
        enabled,
        counted: world.counted().len(),
    })
}

/// What acts do to a new world with a wait of ten milliseconds, room for one trace, no decision remembered, and batches
/// of one span. Given is the greatest size of a trace, in bytes, where 0 is none.
fn play(
    alloc: Global,
    policies: Policies,
    maximum_trace_size: u64,
    first: &[Act<'_>],
    then: &[Act<'_>],
) -> Result<Outcome, AllocError> {
    let mut shard = plain_settings(policies);
    shard.maximum_trace_size = maximum_trace_size;
    let config = CoreConfig {
        shard,
        batch_size: 1,
    };
    match World::replay(alloc, 1, 1, config, steps_of(alloc, first)?) {
        Ok(mut world) => outcome_of(alloc, &mut world, then),
        Err((_, StepRefusal::NoMemory)) => Err(AllocError),
        Err((place, StepRefusal::NotEnabled)) => Ok(Outcome {
            refused_at: Some(place),
            handed_one: false,
            enabled: [false; 17],
            counted: 0,
        }),
    }
}

/// The same where each trace is sampled.
fn play_sampled(alloc: Global, first: &[Act<'_>], then: &[Act<'_>]) -> Result<Outcome, AllocError> {
    let policies = one_policy(alloc, PolicyKind::Leaf(Leaf::AlwaysSample))?;
    play(alloc, policies, 0, first, then)
}

#[test]
fn one_span_through_the_world(rt: HostRuntime) -> Result<(), Fail> {
    let found = play_sampled(rt.alloc(), &ONE_SPAN, &ALL_KINDS)?;
    let mut fails_once = [false; 17];
    fails_once[15] = true;
    let enabled = found.enabled;
    assert_eq!(rt; enabled, fails_once);
    let others = (found.refused_at, found.handed_one, found.counted);
    assert_eq!(rt; others, (None, true, 0));
    Ok(())
}

/// A second tick is refused while a trace is due.
#[test]
fn second_tick_while_due(rt: HostRuntime) -> Result<(), Fail> {
    let acts = [
        Act::Receive(1, 0),
        Act::Route,
        Act::Take,
        Act::Tick(10),
        Act::Tick(10),
    ];
    let found = play_sampled(rt.alloc(), &acts, &[])?;
    assert_eq!(rt; found.refused_at, Some(4));
    Ok(())
}

/// How many spans are counted by the decision behind these acts, or the place of what is refused, of an act or, behind
/// those, of the decision.
fn decided_by(
    alloc: Global,
    policies: Policies,
    maximum_trace_size: u64,
    first: &[Act<'_>],
    answers: &[bool],
) -> Result<Result<usize, usize>, AllocError> {
    let found = play(
        alloc,
        policies,
        maximum_trace_size,
        first,
        &[Act::Decide(answers)],
    )?;
    let is_decided = found.enabled[0];
    match found.refused_at {
        Some(place) => Ok(Err(place)),
        None if is_decided => Ok(Ok(found.counted)),
        None => Ok(Err(first.len())),
    }
}

/// A policy that asks twice at most, and for the second time where the first asking is granted.
fn asks_twice(alloc: Global) -> Result<Policies, AllocError> {
    let mut parts = List::new(alloc);
    for name in ["first", "second"] {
        parts.push(Policy {
            name: Text::from_str(alloc, name)?,
            kind: PolicyKind::Limiting(Limit::Spans { per_second: 0 }),
        })?;
    }
    one_policy(
        alloc,
        PolicyKind::Joined {
            join: Join::And,
            policies: parts,
        },
    )
}

/// The decision of that policy after these acts.
fn decided_by_asking(
    alloc: Global,
    maximum_trace_size: u64,
    first: &[Act<'_>],
    answers: &[bool],
) -> Result<Result<usize, usize>, AllocError> {
    decided_by(
        alloc,
        asks_twice(alloc)?,
        maximum_trace_size,
        first,
        answers,
    )
}

/// So many spans are counted in the row of a table.
fn counts(rt: &impl Abort, row: usize, found: Result<usize, usize>, wanted: Result<usize, usize>) {
    assert_eq!(rt; found, wanted, "row {row}");
}

#[test]
fn one_answer_for_each_asking(rt: HostRuntime) -> Result<(), Fail> {
    let refused = Err(DUE.len());
    let rows: [(&[bool], Result<usize, usize>); 7] = [
        (&[], refused),
        (&[false], Ok(1)),
        (&[true], refused),
        (&[false, false], refused),
        (&[true, false], Ok(1)),
        (&[true, true], Ok(0)),
        (&[true, true, true], refused),
    ];
    for row in 0..rows.len() {
        let (answers, counted) = rows[row];
        let found = decided_by_asking(rt.alloc(), 0, &DUE, answers)?;
        counts(&rt, row, found, counted);
    }
    Ok(())
}

/// The decision on a root without an error, which has 74 bytes, just after it was taken.
#[test]
fn too_big_is_due_at_its_span(rt: HostRuntime) -> Result<(), Fail> {
    let refused = Err(TAKEN.len());
    let rows: [(u64, &[bool], Result<usize, usize>); 5] = [
        (0, &[], refused),
        (74, &[], refused),
        (74, &[false], refused),
        (73, &[], Ok(1)),
        (73, &[false], refused),
    ];
    for row in 0..rows.len() {
        let (maximum_trace_size, answers, counted) = rows[row];
        let found = decided_by_asking(rt.alloc(), maximum_trace_size, &TAKEN, answers)?;
        counts(&rt, row, found, counted);
    }
    Ok(())
}

/// A policy on the targets of requests: one of these expressions has a match.
fn on_targets(alloc: Global, expressions: &[&str]) -> Result<Policies, AllocError> {
    let mut texts = List::new(alloc);
    for expression in expressions {
        texts.push(Text::from_str(alloc, expression)?)?;
    }
    let leaf = Leaf::Attribute {
        key: Text::from_str(alloc, "http.target")?,
        wanted: Wanted::StringMatching(texts),
        invert_match: false,
    };
    one_policy(alloc, PolicyKind::Leaf(leaf))
}

/// The decision of that policy on a span of a request with this target.
fn decided_on_target(
    alloc: Global,
    expressions: &[&str],
    target: &str,
) -> Result<Result<usize, usize>, AllocError> {
    let acts = [Act::Request(target), Act::Route, Act::Take, Act::Tick(10)];
    decided_by(alloc, on_targets(alloc, expressions)?, 0, &acts, &[])
}

#[test]
fn expressions_match_anywhere(rt: HostRuntime) -> Result<(), Fail> {
    let rows: [(&[&str], &str, usize); 7] = [
        (&["^/health"], "/healthz", 0),
        (&["^/health"], "/api/health", 1),
        (&["health"], "/api/healthz", 0),
        (&["health$"], "/api/healthz", 1),
        (&["/v[0-9]+/"], "/api/v12/users", 0),
        (&["^/health", "users"], "/api/v12/users", 0),
        (&["^/health", "Users"], "/api/v12/users", 1),
    ];
    for row in 0..rows.len() {
        let (expressions, target, counted) = rows[row];
        let found = decided_on_target(rt.alloc(), expressions, target)?;
        counts(&rt, row, found, Ok(counted));
    }
    Ok(())
}
