//! What a script means, and that each script that is played is a run of the core.
//!
//! The definitions are in `specs/`, to be read in this order: `Connections`, `Requests`, `Sending`, `Limiting`,
//! `World` (what an instruction does), `Counts`, `Writing`, `CoreRun`, `Calm`, `Laws`. The functions of this
//! crate do nothing: the contract of each is a law of all scripts.
#![tactic(auto)]

ghost use Rattle.script_run.specs.Laws.{CalmRunsAgree, CalmScriptsAgree, CalmStopsAgree, EachIsARunOfCore, EachWritesItsEvents};

/// The sink has the lines of the replies and of the batches that were handed over, in turn, and then at most a part of
/// the line at which a write failed: behind that nothing more.
pub fn writes_its_events()
    ensures { EachWritesItsEvents }
{}

/// Each script that is played is a run of the core from its new world: the lanes received what the script's connections
/// did, the shards have the script's journals, the batches that were handed over and the counts are the same, and the
/// headline of the core holds. Between two lines each span that waits is in a shard's buffer, and once the script is
/// closed so is the core.
pub fn scripts_are_runs_of_the_core()
    ensures { EachIsARunOfCore }
{}

/// Two runs of one script receive, take and write the same, where in neither memory was refused or a write failed;
/// where the bytes of the sink are known at first, the runs leave the same bytes.
pub fn calm_runs_agree()
    ensures { CalmRunsAgree }
{
    span_exporter::line_is_unique();
}

/// So where in neither run memory was refused or a write failed, what is received, taken, counted and written is one
/// function of the script's bytes.
pub fn calm_scripts_agree()
    ensures { CalmScriptsAgree }
{
    calm_runs_agree();
}

/// The same of two runs over one script's bytes that stopped at the same line, as at the first that is refused.
pub fn calm_stops_agree()
    ensures { CalmStopsAgree }
{
    calm_runs_agree();
}
