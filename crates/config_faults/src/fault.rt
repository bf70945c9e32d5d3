//! What is wrong with a configuration.
ghost use Rattle.std.specs.Prelude.{◌≡◌};
ghost use Rattle.config_faults.specs.Faults as spec;

use policy_tree::PolicyFault;
use std::error::Error;
use std::fmt;

/// Why a configuration is refused. Its number, from 1 to 10, orders the faults: the least that the text has is
/// answered.
#[derive(Clone, Copy, Debug, PartialEq, Eq)]
pub enum ConfigFault {
    /// 1: the text is no TOML.
    NotToml,
    /// 2: a table has a key that isn't one of its keys.
    UnknownKey,
    /// 3: a required key is missing.
    MissingKey,
    /// 4: a value is of another type than its key has.
    WrongType,
    /// 5: a number is out of its range, or a text is none of those that its key takes.
    OutOfRange,
    /// 6: there are fewer traces than shards (`num_traces`, `shards`), so that some shard would keep none.
    TooFewTraces,
    /// 7: the policies are refused, for the reason inside.
    Policy(PolicyFault),
    /// 8: memory was refused. Where it was refused while the text was parsed, the text may have any other fault.
    NoMemory,
    /// 9: a text in `values` is no regular expression, where `enabled_regex_matching` is set (tailsamplingprocessor
    /// README, `string_attribute`); or a text in `span` or `spanevent` is no condition, or one in it no regular
    /// expression (`ottl_condition`). `tsc_config::read` answers it only of a text that has none of the faults 1 to 7;
    /// `config_findings::faults` tells it beside others, but where the policies have a fault of their own (7).
    NotAnExpression,
    /// 10: an expression, compiled, would take more than about 1 MiB. `tsc_config::read` answers it only of a text that
    /// has none of the faults 1 to 7 and 9; `config_findings::faults` tells it behind all others, but where the
    /// policies have one (7).
    ExpressionTooBig,
}

impl fmt::Display for ConfigFault {
    ghost use Rattle.std.specs.Prelude.{Some};
    ghost use Rattle.config_faults.specs.FaultTexts.{fault_text};

    ghost output = { λ fault. Some (fault_text fault) };

    fn fmt<W: fmt::Write>(&self, f: &mut fmt::Formatter<W>) -> fmt::Result {
        match self {
            ConfigFault::NotToml => f.write_str("the text is no TOML"),
            ConfigFault::UnknownKey => f.write_str("a table has an unknown key"),
            ConfigFault::MissingKey => f.write_str("a required key is missing"),
            ConfigFault::WrongType => f.write_str("a value has the wrong type"),
            ConfigFault::OutOfRange => f.write_str(
                "a number is out of its range, or a text is none of those that its key takes",
            ),
            ConfigFault::TooFewTraces => f.write_str("there are fewer traces than shards"),
            ConfigFault::Policy(fault) => fault.fmt(f),
            ConfigFault::NoMemory => f.write_str("no memory"),
            ConfigFault::NotAnExpression => f.write_str("a value is no regular expression"),
            ConfigFault::ExpressionTooBig => f.write_str("a regular expression is too big"),
        }
    }
}

impl Error for ConfigFault {}

impl ConfigFault {
    /// The number of the fault, from 1 to 10. A program prints a policy fault as `7.P`, P being its own number.
    pub fn number(self) -> u8
        ensures { result ≡ spec.config_fault_number self }
    {
        match self {
            ConfigFault::NotToml => 1,
            ConfigFault::UnknownKey => 2,
            ConfigFault::MissingKey => 3,
            ConfigFault::WrongType => 4,
            ConfigFault::OutOfRange => 5,
            ConfigFault::TooFewTraces => 6,
            ConfigFault::Policy(_) => 7,
            ConfigFault::NoMemory => 8,
            ConfigFault::NotAnExpression => 9,
            ConfigFault::ExpressionTooBig => 10,
        }
    }
}

/// The fault of less number, and none only where both are none.
pub fn least(first: Option<ConfigFault>, second: Option<ConfigFault>) -> Option<ConfigFault>
    ensures { result ≡ spec.least first second }
{
    match (first, second) {
        (None, other) => other,
        (Some(fault), None) => Some(fault),
        (Some(fault), Some(other)) => {
            if other.number() < fault.number() {
                Some(other)
            } else {
                Some(fault)
            }
        }
    }
}
