//! One script is run by two configurations, side by side.
ghost use Rattle.std.specs.Prelude.{◌≡◌, false, None, IfOk};
ghost use Rattle.config_shards.specs.Shards.{CanReplay, settings_by};
ghost use Rattle.script_run.specs.Laws.{CanPlay};
ghost use Rattle.tsc_config.specs.declared.config.Config.{Config};
ghost use Rattle.script_session.specs.Comparing.{BothPlayed, sizes_of};
ghost use Rattle.script_session.specs.Starting.{IsStart};

use crate::fault::ReplayFault;
use crate::listening::Listener;
use crate::replay::session_of;
use crate::session::Session;
use drop_ledger::Report;
use span_sink::{Sink, SinkFault};
use std::alloc::Global;
use tsc_config::Config;
use tsc_script::{Pair, ScriptSource, play_script};

/// A sink that takes all bytes and keeps none.
#[derive(Drop)]
pub struct Discards;

impl Sink for Discards {
    ghost use Rattle.std.specs.Prelude.{None};

    ghost taken = { λ sink. None };

    ghost failures = { λ sink. 0 };

    fn write(&mut self, bytes: &[u8]) -> Result<usize, SinkFault> {
        Ok(bytes.len())
    }

    fn failures(&self) -> u64 {
        0
    }
}

/// What two runs over one script came to.
#[derive(Drop)]
pub struct ComparedRuns<Old, New> {
    /// The report by the first configuration.
    pub old_report: Report,
    /// The report by the second configuration.
    pub new_report: Report,
    /// What heard of the first run.
    pub old: Old,
    /// What heard of the second run.
    pub new: New,
}

/// Runs a script by two configurations at once: each line is read once, and played by the one and then by the other, as
/// [`crate::replay_run`] plays it; the lines that both would print are let go. An error tells what kept one of them from
/// the script's end.
pub fn compare_run<R: ScriptSource, Old: Listener + Drop, New: Listener + Drop>(
    alloc: Global,
    old: Config,
    new: Config,
    reader: &mut R,
    listeners: (Old, New),
) -> Result<ComparedRuns<Old, New>, ReplayFault>
    requires old { CanReplay old }
    requires new { CanReplay new }
    ensures played { IfOk result (λ both. BothPlayed old new (R.given reader.old) (R.given reader.new) both.old_report both.new_report) }
{
    let (old_listener, new_listener) = listeners;
    let Ok(first) = session_of(alloc, &old, Discards, old_listener) else {
        return Err(ReplayFault::NoMemory);
    };
    let Ok(second) = session_of(alloc, &new, Discards, new_listener) else {
        return Err(ReplayFault::NoMemory);
    };
    run_both(alloc, reader, Pair { first, second })
}

/// Plays a script on two sessions that have seen no line.
fn run_both<R: ScriptSource, Old: Listener + Drop, New: Listener + Drop>(
    alloc: Global,
    reader: &mut R,
    sessions: Pair<Session<Discards, Old>, Session<Discards, New>>,
) -> Result<ComparedRuns<Old, New>, ReplayFault>
    requires first_open { sessions.first.closed ≡ false }
    requires second_open { sessions.second.closed ≡ false }
    requires first_up { sessions.first.output.0.sink.is_down ≡ false }
    requires second_up { sessions.second.output.0.sink.is_down ≡ false }
    ensures played { (old new : Config) → CanPlay (settings_by old) (sizes_of old) old.lanes → CanPlay (settings_by new) (sizes_of new) new.lanes
        → IsStart old None 0 sessions.first.connections sessions.first.shards.items sessions.first.limiter sessions.first.output sessions.first.queue_capacity sessions.first.keeps_doubles sessions.first.closed
        → IsStart new None 0 sessions.second.connections sessions.second.shards.items sessions.second.limiter sessions.second.output sessions.second.queue_capacity sessions.second.keeps_doubles sessions.second.closed
        → IfOk result (λ both. BothPlayed old new (R.given reader.old) (R.given reader.new) both.old_report both.new_report) }
{
    let mut sessions = sessions;
    let played = play_script(alloc, reader, &mut sessions);
    let Pair { first, second } = sessions;
    let (_, old_answer, old) = first.end(played);
    let (_, new_answer, new) = second.end(played);
    match (old_answer, new_answer) {
        (Ok(old_report), Ok(new_report)) => Ok(ComparedRuns {
            old_report,
            new_report,
            old,
            new,
        }),
        (Err(fault), _) | (Ok(_), Err(fault)) => Err(fault),
    }
}
