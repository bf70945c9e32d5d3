//! A script is run.
ghost use Rattle.std.specs.Prelude.{◌≡◌, List, ℕ};
ghost use Rattle.collector_commands.specs.Configuration.{file_of};
ghost use Rattle.collector_commands.specs.Courses.{Replays};
ghost use Rattle.collector_commands.specs.Outcomes.{outcome_of};

use crate::configuration::{FileFault, config_of};
use crate::outcome::Outcome;
use drop_ledger::Report;
use script_session::{ReplayFault, replay_run};
use span_sink::WriteSink;
use std::alloc::Global;
use std::io::Write;
use tsc_script::ScriptSource;

/// Runs the script by the configuration in what was read from its file.
pub fn replay_by<R: ScriptSource, W: Write>(
    alloc: Global,
    file: Result<Vec<u8>, FileFault>,
    reader: &mut R,
    writer: W,
) -> (W, Outcome)
    ensures { (arguments : List (List ℕ)) → Replays (record {
      arguments = arguments;
      file = file_of (λ v. v.items) file;
      unread = R.given reader.old;
      unread_after = R.given reader.new;
      taken = W.contents writer;
      taken_after = W.contents result.0;
    }) result.1 }
{
    let config = match config_of(alloc, file) {
        Ok(config) => config,
        Err(outcome) => return (writer, outcome),
    };
    let (sink, answer) = replay_run(alloc, config, reader, WriteSink::new(writer));
    (sink.end(), outcome_of(answer))
}

/// How the program ends after a script's run with this answer.
fn outcome_of(answer: Result<Report, ReplayFault>) -> Outcome
    ensures { result ≡ outcome_of answer }
{
    match answer {
        Ok(report) => Outcome::Done(report),
        Err(ReplayFault::NoMemory) => Outcome::NoMemory,
        Err(ReplayFault::Refused(line)) => Outcome::Script(line),
        Err(ReplayFault::Fault(line)) => Outcome::Script(line),
        Err(ReplayFault::CounterOverflow) => Outcome::CounterOverflow,
        Err(ReplayFault::SinkDown(_)) => Outcome::SinkDown,
    }
}
