//! A script is run by two configurations, and what each keeps is compared.
ghost use Rattle.std.specs.Prelude.{List, Option, ℕ};
ghost use Rattle.collector_commands.specs.Configuration.{file_of};
ghost use Rattle.collector_commands.specs.Courses.{Compares, IsKeptBack, IsTold};

use crate::asking::{Form, VERSION};
use crate::configuration::{FileFault, config_of};
use crate::outcome::Outcome;
use comparison_text::{About, put_json, put_page, put_text};
use decision_line::{DecidedTrace, EvictedTrace, Said};
use otlp_types::Arrival;
use run_comparison::KeptRun;
use script_session::{ComparedRuns, Listener, ReplayFault, compare_run};
use std::alloc::{AllocError, Global};
use tsc_config::Config;
use tsc_script::ScriptSource;

/// What hears of one of the runs, until memory is refused to it.
#[derive(Drop)]
struct Hearing {
    kept: KeptRun,
    /// Something was told that found no memory.
    is_full: bool,
}

impl Hearing {
    /// One that has heard nothing of a run by this configuration.
    fn new(alloc: Global, config: &Config) -> Result<Self, AllocError> {
        let mut names = Vec::new(alloc);
        for policy in config.policies.as_slice() {
            names.push(String::from_str(alloc, policy.name.as_str())?)?;
        }
        Ok(Hearing {
            kept: KeptRun::new(alloc, names)?,
            is_full: false,
        })
    }
}

impl Listener for Hearing {
    fn hears(&self) -> bool {
        !self.is_full
    }

    fn decided(&mut self, decision: &DecidedTrace, _said: &[Said], released: &[Arrival]) {
        if self.kept.decided(decision, released).is_err() {
            self.is_full = true;
        }
    }

    fn evicted(&mut self, evicted: &EvictedTrace) {
        if self.kept.evicted(evicted).is_err() {
            self.is_full = true;
        }
    }

    fn kept_late(&mut self, moment: u64, span: &Arrival) {
        if self.kept.kept_late(moment, span).is_err() {
            self.is_full = true;
        }
    }
}

/// Runs the script by the configurations in what was read from their files, which have these paths, and tells what each
/// keeps.
pub fn compare_by<R: ScriptSource>(
    alloc: Global,
    files: (Result<Vec<u8>, FileFault>, Result<Vec<u8>, FileFault>),
    paths: (&str, &str),
    form: Form,
    reader: &mut R,
) -> Outcome
    ensures { (arguments : List (List ℕ)) (taken : Option (List ℕ)) → Compares (record {
      arguments = arguments;
      file = file_of (λ v. v.items) files.0;
      unread = R.given reader.old;
      unread_after = R.given reader.new;
      taken = taken;
      taken_after = taken;
    }) (file_of (λ v. v.items) files.1) result }
{
    let (old_file, new_file) = files;
    let old = match config_of(alloc, old_file) {
        Ok(config) => config,
        Err(outcome) => return outcome,
    };
    let new = match config_of(alloc, new_file) {
        Ok(config) => config,
        Err(outcome) => return outcome,
    };
    let (Ok(old_hearing), Ok(new_hearing)) = (Hearing::new(alloc, &old), Hearing::new(alloc, &new))
    else {
        return Outcome::NoMemory;
    };
    match compare_run(alloc, old, new, reader, (old_hearing, new_hearing)) {
        Ok(runs) => told_of(alloc, &runs, paths, form),
        Err(fault) => outcome_of_fault(fault),
    }
}

/// What two runs kept, as it is asked for.
fn told_of(
    alloc: Global,
    runs: &ComparedRuns<Hearing, Hearing>,
    paths: (&str, &str),
    form: Form,
) -> Outcome
    ensures { IsTold result }
{
    if runs.old.is_full || runs.new.is_full {
        return Outcome::NoMemory;
    }
    let about = About {
        version: VERSION,
        old: paths.0,
        new: paths.1,
    };
    let mut text = Vec::new(alloc);
    let (old, new) = (&runs.old.kept, &runs.new.kept);
    let put = match form {
        Form::Text => put_text(&mut text, old, new, &about),
        Form::Json => put_json(&mut text, old, new, &about),
        Form::Page => put_page(&mut text, old, new, &about),
    };
    match put {
        Ok(()) => Outcome::Shown(text),
        Err(_) => Outcome::NoMemory,
    }
}

/// How the program ends where something kept a comparison from the script's end.
fn outcome_of_fault(fault: ReplayFault) -> Outcome
    ensures { IsKeptBack result }
{
    match fault {
        ReplayFault::NoMemory => Outcome::NoMemory,
        ReplayFault::Refused(line) | ReplayFault::Fault(line) => Outcome::Script(line),
        ReplayFault::CounterOverflow => Outcome::CounterOverflow,
        ReplayFault::SinkDown(_) => Outcome::SinkDown,
    }
}
