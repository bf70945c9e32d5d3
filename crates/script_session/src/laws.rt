//! What holds of any two runs of one script.
ghost use Rattle.script_session.specs.CalmReplays.{CalmReplaysAgree};

/// What [`crate::replay_run`] promises is one function of the settings, the script and the sink's bytes, where memory
/// was never refused and no write failed: the same bytes and the same report, and the same line where one is refused.
pub fn calm_replays_agree()
    ensures { CalmReplaysAgree }
{
    script_run::calm_scripts_agree();
    script_run::calm_stops_agree();
}
