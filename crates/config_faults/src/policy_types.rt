//! The types of policy, and the table of the settings of each (tailsamplingprocessor README).
ghost use Rattle.std.specs.Prelude.{◌≡◌, map};
ghost use Rattle.config_faults.specs.PolicyTypes as spec;
ghost use Rattle.config_faults.specs.Tables.{setting_of};

use crate::settings::{ItemKind, Setting, ValueKind};

/// A whole number from 0 on.
const NATURAL: ValueKind = ValueKind::Integer(0, i64::MAX);

/// The names of status codes.
const STATUS_CODES: ValueKind = ValueKind::Array(ItemKind::StatusCode);

/// The types of policy (tailsamplingprocessor README, `type`).
#[derive(Clone, Copy, PartialEq, Eq)]
pub enum PolicyType {
    AlwaysSample,
    Latency,
    StatusCode,
    StringAttribute,
    NumericAttribute,
    BooleanAttribute,
    SpanCount,
    RateLimiting,
    BytesLimiting,
    Probabilistic,
    TraceState,
    OttlCondition,
    TraceFlags,
    And,
    Not,
    Drop,
    Composite,
}

impl PolicyType {
    /// Each type once.
    pub fn all() -> &'static [PolicyType]
        ensures { result.now ≡ spec.all_types }
    {
        &[
            PolicyType::AlwaysSample,
            PolicyType::Latency,
            PolicyType::StatusCode,
            PolicyType::StringAttribute,
            PolicyType::NumericAttribute,
            PolicyType::BooleanAttribute,
            PolicyType::SpanCount,
            PolicyType::RateLimiting,
            PolicyType::BytesLimiting,
            PolicyType::Probabilistic,
            PolicyType::TraceState,
            PolicyType::OttlCondition,
            PolicyType::TraceFlags,
            PolicyType::And,
            PolicyType::Not,
            PolicyType::Drop,
            PolicyType::Composite,
        ]
    }

    /// The text that names it, which is also the key of its settings.
    pub fn name(self) -> &'static str
        ensures { result.now ≡ spec.type_name self }
    {
        match self {
            PolicyType::AlwaysSample => "always_sample",
            PolicyType::Latency => "latency",
            PolicyType::StatusCode => "status_code",
            PolicyType::StringAttribute => "string_attribute",
            PolicyType::NumericAttribute => "numeric_attribute",
            PolicyType::BooleanAttribute => "boolean_attribute",
            PolicyType::SpanCount => "span_count",
            PolicyType::RateLimiting => "rate_limiting",
            PolicyType::BytesLimiting => "bytes_limiting",
            PolicyType::Probabilistic => "probabilistic",
            PolicyType::TraceState => "trace_state",
            PolicyType::OttlCondition => "ottl_condition",
            PolicyType::TraceFlags => "trace_flags",
            PolicyType::And => "and",
            PolicyType::Not => "not",
            PolicyType::Drop => "drop",
            PolicyType::Composite => "composite",
        }
    }

    /// Its settings, but for the policies that it is made of.
    pub fn settings(self) -> &'static [Setting]
        ensures { map setting_of result.now ≡ spec.settings self }
    {
        match self {
            PolicyType::Latency => &[
                Setting::Required("threshold_ms", NATURAL),
                Setting::Optional("upper_threshold_ms", NATURAL),
            ],
            PolicyType::StatusCode => &[Setting::Required("status_codes", STATUS_CODES)],
            PolicyType::StringAttribute => &[
                Setting::Required("key", ValueKind::Text),
                Setting::Required("values", ValueKind::Array(ItemKind::Text)),
                Setting::Optional("invert_match", ValueKind::Truth),
                Setting::Optional("enabled_regex_matching", ValueKind::Truth),
                // Without effect: configurations of the processor have it (D-047).
                Setting::Optional("cache_max_size", NATURAL),
            ],
            PolicyType::NumericAttribute => &[
                Setting::Required("key", ValueKind::Text),
                Setting::Optional("min_value", ValueKind::Whole),
                Setting::Optional("max_value", ValueKind::Whole),
                Setting::Optional("invert_match", ValueKind::Truth),
            ],
            PolicyType::BooleanAttribute => &[
                Setting::Required("key", ValueKind::Text),
                Setting::Required("value", ValueKind::Truth),
                Setting::Optional("invert_match", ValueKind::Truth),
            ],
            PolicyType::SpanCount => &[
                Setting::Required("min_spans", NATURAL),
                Setting::Optional("max_spans", NATURAL),
            ],
            PolicyType::RateLimiting => &[Setting::Required("spans_per_second", NATURAL)],
            PolicyType::BytesLimiting => &[
                Setting::Required("bytes_per_second", NATURAL),
                Setting::Optional("burst_capacity", NATURAL),
            ],
            PolicyType::Probabilistic => &[
                Setting::Optional("hash_salt", ValueKind::Text),
                Setting::Required("sampling_percentage", ValueKind::Percentage),
            ],
            PolicyType::TraceState => &[
                Setting::Required("key", ValueKind::Text),
                Setting::Required("values", ValueKind::Array(ItemKind::Text)),
            ],
            PolicyType::OttlCondition => &[
                Setting::Optional("error_mode", ValueKind::ErrorMode),
                Setting::Optional("span", ValueKind::Array(ItemKind::Text)),
                Setting::Optional("spanevent", ValueKind::Array(ItemKind::Text)),
            ],
            PolicyType::Composite => &[
                Setting::Required("max_total_spans_per_second", NATURAL),
                Setting::Optional("policy_order", ValueKind::Array(ItemKind::Text)),
                Setting::Optional("rate_allocation", ValueKind::Array(ItemKind::Allocation)),
            ],
            PolicyType::AlwaysSample
            | PolicyType::TraceFlags
            | PolicyType::And
            | PolicyType::Not
            | PolicyType::Drop => &[],
        }
    }
}
