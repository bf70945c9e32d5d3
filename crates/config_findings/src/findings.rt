//! The faults of a configuration that were found, where each stands and what would be right.
ghost use Rattle.std.specs.Prelude.{◌≡◌, ◌++◌, [], ◌∷◌, IfOk, OnOk, length, replicate};
ghost use Rattle.config_findings.specs.FaultLists as spec;
ghost use Rattle.config_faults.specs.declared.fault.ConfigFault.TheVariants.{MissingKey, ExpressionTooBig};

use crate::finding_texts::missing_text;
use config_faults::ConfigFault;
use std::alloc::{AllocError, Global};
use std::marker::Model;

/// A fault of a configuration.
#[derive(Drop)]
pub struct ConfigFinding {
    /// Which fault it is.
    pub fault: ConfigFault,
    /// Where it stands and what would be right, in one line without a line feed, as
    /// `policies[2].latency.threshold_ms: a whole number is wanted`.
    pub said: String,
}

/// What was found so far of what the text tells: to contracts the faults, in order.
#[derive(Drop)]
pub struct Findings {
    list: Vec<ConfigFinding>,
}

impl Model for Findings {
    ghost use Rattle.std.specs.Prelude.{List};
    ghost use Rattle.config_findings.specs.FaultLists.{faults_in};
    ghost use Rattle.config_faults.specs.declared.fault.ConfigFault.{ConfigFault};

    ghost Value = { List ConfigFault };

    ghost view = { λ it. faults_in it.list.items };
}

impl Findings {
    /// Nothing found.
    pub fn new(alloc: Global) -> Findings
        ensures { result ≡ [] }
    {
        Findings {
            list: Vec::new(alloc),
        }
    }

    /// One more fault.
    pub fn add(&mut self, fault: ConfigFault, said: String) -> Result<(), AllocError>
        ensures { OnOk result (self.new ≡ self.old ++ (fault ∷ [])) }
    {
        self.list.push(ConfigFinding { fault, said })?;
        Ok(())
    }

    /// One more key that is missing, at this place.
    pub fn add_missing(&mut self, alloc: Global, place: &str) -> Result<(), AllocError>
        ensures { OnOk result (self.new ≡ self.old ++ (MissingKey ∷ [])) }
    {
        self.add(ConfigFault::MissingKey, missing_text(alloc, place)?)
    }

    /// The findings, in order, and behind them one for each expression that is too big, of which this is said.
    pub fn with_big(self, big: Vec<String>) -> Result<Vec<ConfigFinding>, AllocError>
        ensures { IfOk result (λ found. spec.faults_in found.items ≡ self ++ replicate (length big.items) ExpressionTooBig) }
    {
        let mut found = self.list;
        // Apart until here, so that what finds these can neither lose nor add a fault (D-211).
        for said in big {
            found.push(ConfigFinding {
                fault: ConfigFault::ExpressionTooBig,
                said,
            })?;
        }
        Ok(found)
    }
}
