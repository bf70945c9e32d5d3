//! What is wrong with some policies.
ghost use Rattle.std.specs.Prelude.{◌≡◌};
ghost use Rattle.policy_tree.specs.Faults.{policy_fault_number};

use std::error::Error;
use std::fmt;

/// Why a list of policies is refused. Its number, from 1 to 7, orders the faults: the least that holds is answered.
#[derive(Clone, Copy, Debug, PartialEq, Eq)]
pub enum PolicyFault {
    /// 1: a list of policies is empty.
    EmptyList,
    /// 2: policies are nested deeper than 8. A top policy has depth 1.
    TooDeep,
    /// 3: there are more than 64 policies in all.
    TooMany,
    /// 4: two policies of one list have the same name.
    SameName,
    /// 5: two bounds leave nothing between them: an upper latency that isn't above the threshold, or a greatest number
    /// below the least (an upper latency or a greatest number of spans that is 0 is no bound).
    CrossedBounds,
    /// 6: the values or status codes of a policy are an empty list.
    NoValues,
    /// 7: memory was refused.
    NoMemory,
}

impl fmt::Display for PolicyFault {
    ghost use Rattle.std.specs.Prelude.{Some};
    ghost use Rattle.policy_tree.specs.FaultTexts.{fault_text};

    ghost output = { λ fault. Some (fault_text fault) };

    fn fmt<W: fmt::Write>(&self, f: &mut fmt::Formatter<W>) -> fmt::Result {
        match self {
            PolicyFault::EmptyList => f.write_str("a list of policies is empty"),
            PolicyFault::TooDeep => f.write_str("policies are nested deeper than 8"),
            PolicyFault::TooMany => f.write_str("there are more than 64 policies"),
            PolicyFault::SameName => f.write_str("two policies of one list have the same name"),
            PolicyFault::CrossedBounds => f.write_str("two bounds leave nothing between them"),
            PolicyFault::NoValues => f.write_str("a policy has no values"),
            PolicyFault::NoMemory => f.write_str("no memory"),
        }
    }
}

impl Error for PolicyFault {}

impl PolicyFault {
    /// The number of the fault, from 1 to 7.
    pub fn number(self) -> u8
        ensures { result ≡ policy_fault_number self }
    {
        match self {
            PolicyFault::EmptyList => 1,
            PolicyFault::TooDeep => 2,
            PolicyFault::TooMany => 3,
            PolicyFault::SameName => 4,
            PolicyFault::CrossedBounds => 5,
            PolicyFault::NoValues => 6,
            PolicyFault::NoMemory => 7,
        }
    }
}
