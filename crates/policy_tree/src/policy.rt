//! One policy: its name and its kind (tailsamplingprocessor README, "Policies").
ghost use Rattle.std.specs.Prelude.{◌≡◌, IfOk};

use crate::limit::Limit;
use otlp_types::{List, Text, TryClone};
use ottl_text::ErrorMode;
use std::alloc::{AllocError, Global};

/// A policy by its name (tailsamplingprocessor README, `policies`).
#[cycle(policy)]
#[derive(Drop)]
pub struct Policy {
    /// Different from the names of the other policies of its list.
    pub name: Text,
    pub kind: PolicyKind,
}

/// What a policy samples (tailsamplingprocessor README, `type`).
#[cycle(policy)]
#[derive(Drop)]
pub enum PolicyKind {
    /// What this leaf samples.
    Leaf(Leaf),
    /// A trace whose spans, or their bytes, a limiter grants.
    Limiting(Limit),
    /// What is made of these policies. They are asked in order, and no further one behind one whose answer ends that.
    Joined { join: Join, policies: List<Policy> },
}

/// What is made of policies that are asked in order: up to the first that does not sample, but for a first match.
#[derive(Clone, Copy, Debug, PartialEq, Eq)]
pub enum Join {
    /// A trace is sampled that each of them samples (`and_sub_policy`).
    And,
    /// A trace is sampled that one of them doesn't sample; there is one (`not_sub_policy`).
    Not,
    /// A trace is dropped that each of them samples, whatever any other policy says (`drop_sub_policy`).
    Drop,
    /// They are asked up to the first that samples or drops, and a trace is sampled by their answers as by those of all
    /// policies (`sample_on_first_match`; a `composite`, of which each part is a `Share`).
    FirstMatch,
    /// A trace is sampled that each of them samples, and dropped where only the first ones do: a part of a `composite`
    /// and the limiter of its share.
    Share,
}

/// What a policy samples that has no parts and asks no limiter: it is decided by the spans of the trace alone.
#[derive(Drop)]
pub enum Leaf {
    /// Every trace.
    AlwaysSample,
    /// A trace that takes from the earliest start of its spans to their latest end, in whole milliseconds, at least
    /// `threshold_ms`; with an upper threshold above `threshold_ms` and at most the upper one. 0 is no upper threshold.
    Latency {
        threshold_ms: u64,
        upper_threshold_ms: u64,
    },
    /// A trace with a span whose status code is among these (`trace.proto` v1, `Status.code`).
    StatusCode {
        codes: List<i32>,
    },
    /// A trace with a span or resource attribute of this key that is as wanted; with `invert_match` none with such a
    /// span.
    Attribute {
        key: Text,
        wanted: Wanted,
        invert_match: bool,
    },
    /// A trace of at least `min_spans` spans and at most `max_spans`. 0 is no greatest number.
    SpanCount {
        min_spans: u64,
        max_spans: u64,
    },
    /// A trace whose id has, behind the salt, a hash among the lowest: this number of ten-thousandths of a percent of
    /// all hashes, from 0 to 1000000 (`probabilistic`: `hash_salt`, `sampling_percentage`).
    Probabilistic {
        hash_salt: Text,
        ten_thousandths: u32,
    },
    /// A trace with a span whose trace state has a member of this key with one of these values (W3C Trace Context,
    /// section 3.3; `trace_state`: `key`, `values`).
    TraceState {
        key: Text,
        values: List<Text>,
    },
    /// A trace with a span that one of the conditions on spans is true of, or with an event of a span that one of those on
    /// events is true of (OTTL; `ottl_condition`: `error_mode`, `span`, `spanevent`).
    OttlCondition {
        error_mode: ErrorMode,
        on_span: List<Text>,
        on_event: List<Text>,
    },
    /// A trace with a span that was flagged as sampled: the lowest bit of its flags is set (`trace.proto` v1,
    /// `Span.flags`; `trace_flags`).
    TraceFlags,
}

/// What the value of an attribute is to be (tailsamplingprocessor README, `string_attribute`, `numeric_attribute`,
/// `boolean_attribute`).
#[derive(Drop)]
pub enum Wanted {
    /// One of these texts.
    StringAmong(List<Text>),
    /// A text in which one of these regular expressions has a match, anywhere (`enabled_regex_matching`).
    StringMatching(List<Text>),
    /// A whole number within these bounds, both included.
    NumberWithin { min_value: i64, max_value: i64 },
    /// This truth value.
    Boolean(bool),
}

#[cycle(clone)]
fn clone_policy(alloc: Global, policy: &Policy) -> Result<Policy, AllocError>
    ensures { IfOk result (λ copy. copy ≡ policy.now) }
{
    Ok(Policy {
        name: policy.name.try_clone(alloc)?,
        kind: clone_kind(alloc, &policy.kind)?,
    })
}

#[cycle(clone)]
fn clone_kind(alloc: Global, kind: &PolicyKind) -> Result<PolicyKind, AllocError>
    ensures { IfOk result (λ copy. copy ≡ kind.now) }
{
    match kind {
        PolicyKind::Leaf(leaf) => Ok(PolicyKind::Leaf(leaf.try_clone(alloc)?)),
        PolicyKind::Limiting(limit) => Ok(PolicyKind::Limiting(*limit)),
        PolicyKind::Joined { join, policies } => Ok(PolicyKind::Joined {
            join: *join,
            policies: clone_policies(alloc, policies)?,
        }),
    }
}

#[cycle(clone)]
fn clone_policies(alloc: Global, policies: &List<Policy>) -> Result<List<Policy>, AllocError>
    ensures { IfOk result (λ copy. copy ≡ policies.now) }
{
    let mut copy = List::new(alloc);
    for policy in policies.as_slice() {
        copy.push(clone_policy(alloc, policy)?)?;
    }
    Ok(copy)
}

fn copy_codes(alloc: Global, codes: &[i32]) -> Result<List<i32>, AllocError>
    ensures { IfOk result (λ copy. copy ≡ codes.now) }
{
    Ok(List::from_vec(codes.to_vec(alloc)?))
}

impl TryClone for Policy {
    fn try_clone(&self, alloc: Global) -> Result<Policy, AllocError> {
        clone_policy(alloc, self)
    }
}

impl TryClone for PolicyKind {
    fn try_clone(&self, alloc: Global) -> Result<PolicyKind, AllocError> {
        clone_kind(alloc, self)
    }
}

impl TryClone for Leaf {
    fn try_clone(&self, alloc: Global) -> Result<Leaf, AllocError> {
        match self {
            Leaf::AlwaysSample => Ok(Leaf::AlwaysSample),
            Leaf::Latency {
                threshold_ms,
                upper_threshold_ms,
            } => Ok(Leaf::Latency {
                threshold_ms: *threshold_ms,
                upper_threshold_ms: *upper_threshold_ms,
            }),
            Leaf::StatusCode { codes } => Ok(Leaf::StatusCode {
                codes: copy_codes(alloc, codes.as_slice())?,
            }),
            Leaf::Attribute {
                key,
                wanted,
                invert_match,
            } => Ok(Leaf::Attribute {
                key: key.try_clone(alloc)?,
                wanted: wanted.try_clone(alloc)?,
                invert_match: *invert_match,
            }),
            Leaf::SpanCount {
                min_spans,
                max_spans,
            } => Ok(Leaf::SpanCount {
                min_spans: *min_spans,
                max_spans: *max_spans,
            }),
            Leaf::Probabilistic {
                hash_salt,
                ten_thousandths,
            } => Ok(Leaf::Probabilistic {
                hash_salt: hash_salt.try_clone(alloc)?,
                ten_thousandths: *ten_thousandths,
            }),
            Leaf::TraceState { key, values } => Ok(Leaf::TraceState {
                key: key.try_clone(alloc)?,
                values: values.try_clone(alloc)?,
            }),
            Leaf::OttlCondition {
                error_mode,
                on_span,
                on_event,
            } => Ok(Leaf::OttlCondition {
                error_mode: *error_mode,
                on_span: on_span.try_clone(alloc)?,
                on_event: on_event.try_clone(alloc)?,
            }),
            Leaf::TraceFlags => Ok(Leaf::TraceFlags),
        }
    }
}

impl TryClone for Wanted {
    fn try_clone(&self, alloc: Global) -> Result<Wanted, AllocError> {
        match self {
            Wanted::StringAmong(values) => Ok(Wanted::StringAmong(values.try_clone(alloc)?)),
            Wanted::StringMatching(values) => Ok(Wanted::StringMatching(values.try_clone(alloc)?)),
            Wanted::NumberWithin {
                min_value,
                max_value,
            } => Ok(Wanted::NumberWithin {
                min_value: *min_value,
                max_value: *max_value,
            }),
            Wanted::Boolean(value) => Ok(Wanted::Boolean(*value)),
        }
    }
}
